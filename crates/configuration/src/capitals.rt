// The list in capitals, once: what is tested, measured and stored of it.
ghost use Rattle.std.specs.Prelude.{◌≡◌, ◌<◌, ◌≤◌, length};
ghost use Rattle.octets.specs.Choice.{◌!◌};
ghost use Rattle.octets.specs.Buffer.{overlay};
ghost use Rattle.configuration.specs.Capitals.{list_capitals};

use board::files::{RECORD, SIZE};
use octets::hex::capital;

// A byte of the list: F, T and P are as sent, the digits of SIZE and QQQQ in capitals.
#[tactic(auto, using(crate::proofs::CapitalsLaws::filled))]
fn capital_in(d: &[u8], i: usize) -> u8
    requires { i < length d.now }
    ensures { result ≡ list_capitals d.now ! i }
{
    let b = d[i];
    if i % RECORD < SIZE { b } else { capital(b) }
}

// The list in capitals, at the start of a room.
pub fn put_capitals(d: &[u8], list: &mut [u8])
    requires { length d.now ≤ length list.old }
    ensures { list.new ≡ overlay list.old (list_capitals d.now) }
{
    for i in 0..d.len() {
        list[i] = capital_in(d, i);
    }
}
