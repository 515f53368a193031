// A header's capitals: its address characters in capitals, its type codes as sent.
ghost use Rattle.std.specs.Prelude.{◌≡◌};
ghost use Rattle.octets.specs.Choice.{◌!◌, ◌is◌, same};
ghost use Rattle.header.specs.Capitals.{header_capitals};

use crate::PITCH;
use octets::hex::capital;
use octets::slices::byte_at;

// The byte at a place of a header's capitals; a byte that is missing counts as 0.
#[tactic(auto, using(crate::proofs::CapitalsLaws::header_at), unfolding(crate::specs::Capitals::capital_at))]
pub fn capital_at(h: &[u8], i: usize) -> u8
    ensures { result ≡ header_capitals h.now ! i }
{
    let b = byte_at(h, i);
    if i % PITCH == 0 { b } else { capital(b) }
}

// Whether two headers have the same capitals.
pub fn same_capitals(h: &[u8], g: &[u8]) -> bool
    ensures { result ≡ same (header_capitals h.now) (header_capitals g.now) }
{
    h.len() == g.len() && (0..h.len()).all(|i| capital_at(h, i) == capital_at(g, i))
}
