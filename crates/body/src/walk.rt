// A block's data, walked once: "The smallest boards read each block once for its end and again for its sum. Do both in one pass."
// Sixteen bytes are taken at a time as long as all of them are data, and the fewer than sixteen that are left one by one. So a walk looks at
// each byte of the data once, and once more at the sixteen bytes in which they end; the last look is at the byte that ends them.
ghost use Rattle.std.specs.Prelude.{◌≡◌, ◌<◌, ◌≤◌, length};
ghost use Rattle.body.specs.InnerWalking.{STRIDE, walked, left, Near};

use crate::sum::{add_up, added};
use octets::bytes::PLAIN;

// How many bytes are taken at a time.
const STRIDE: usize = 16;

// As far as the data were walked: the place, and a sum with each of their bytes up to it.
// Stays: that the place is in the slice is asked by three, since a struct that holds both would be the reader once more.
#[derive(Clone, Copy)]
pub struct Walked {
    pub to: usize,
    pub sum: u16,
}

// The data as far as they go by sixteens. The sixteen bytes in which they end are left, and what these added is thrown away.
// Stays: the loop's own measure says how often it goes round (`stride-less`, docs/COST.md), and a `for` over chunks has none.
#[tactic(auto, using(crate::proofs::WalkLaws::striding))]
fn by_strides(s: &[u8], start: Walked) -> Walked
    requires { start.to ≤ length s.now }
    ensures { Near s.now start result }
{
    let mut walked = start;
    while let Some(part) = s[walked.to..].first_chunk::<STRIDE>() {
        let Ok(sum) = add_up(part, walked.sum) else {
            break;
        };
        walked = Walked {
            to: walked.to + STRIDE,
            sum,
        };
    }
    walked
}

// The data that are left, byte by byte: fewer than sixteen, so this loop goes round no more often.
// Stays: that bound is the loop's own measure (`walk-less`, docs/COST.md), and a `for` over what is left of the frame has none.
#[tactic(auto, using(crate::proofs::WalkLaws::walking))]
fn by_bytes(s: &[u8], start: Walked) -> Walked
    requires from_in_bounds { start.to ≤ length s.now }
    requires from_len_bound { length (left s.now start.to) < STRIDE }
    ensures { result ≡ walked start (left s.now start.to) }
{
    let mut walked = start;
    while walked.to < s.len() {
        let x = s[walked.to];
        if x < PLAIN {
            break;
        }
        walked = Walked {
            to: walked.to + 1,
            sum: added(walked.sum, x),
        };
    }
    walked
}

// The bytes 05H to FFH from a place on: where they end, and a sum with each of them added to it. A block that has no checksum is added up
// too, for nothing: that it has none is seen behind its end.
#[tactic(auto, using(crate::proofs::WalkLaws::nearing))]
pub fn walk(s: &[u8], start: Walked) -> Walked
    requires { start.to ≤ length s.now }
    ensures { result ≡ walked start (left s.now start.to) }
{
    by_bytes(s, by_strides(s, start))
}
