// The blocks of a body that is known to be good, taken one by one with their sums: for whoever writes them.
ghost use Rattle.std.specs.Prelude.{◌≡◌, ◌+◌, ◌≤◌, length};
ghost use Rattle.body.specs.InnerTaking.{behind_data, taken_at};

use crate::steps::no_sum;
use crate::sum::checksum;
use octets::bytes::ETX;
use octets::slices::{byte_at, plain_run};

// A block's command byte, where its data end, the checksum of both, and where what stands behind it starts: the next block, if there is one.
#[derive(Clone, Copy)]
pub struct Taken {
    pub command: u8,
    pub to: usize,
    pub sum: u16,
    pub next: usize,
}

// Behind ETX and four digits, behind ETX, or where the data end.
#[tactic(auto, unfolding(crate::specs::InnerTaking::behind_data))]
fn behind_data(s: &[u8], to: usize) -> usize
    requires { to ≤ length s.now }
    ensures { result ≡ behind_data s.now to }
{
    if byte_at(s, to) != ETX {
        return to;
    }
    if no_sum(byte_at(s, to + 1)) {
        return to + 1;
    }
    to + 5
}

// The block whose STX stands at a place. Its digits are not looked at: who judged the body has.
// Stays: `walk` would search and add up in one look, but called from here too it cost every reading 1 to 10 percent more instructions with the older kit (docs/COST.md).
#[tactic(auto, using(crate::proofs::TakingLaws::takings))]
pub fn take_at(s: &[u8], at: usize) -> Taken
    requires { at + 2 ≤ length s.now }
    ensures { result ≡ taken_at s.now at }
{
    let command = byte_at(s, at + 1);
    let from = at + 2;
    let to = plain_run(s, from);
    Taken {
        command,
        to,
        sum: checksum(command, &s[from..to]),
        next: behind_data(s, to),
    }
}
