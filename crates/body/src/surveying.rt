// The blocks of a body, walked once: whether they are a good body (7, 8 or neither), and what is to be known of them before they are
// written.
ghost use Rattle.std.specs.Prelude.{◌≡◌, drop};
ghost use Rattle.octets.specs.Bytes.{BLOCKS};
ghost use Rattle.body.specs.Body.{blocks, is_read};
ghost use Rattle.body.specs.InnerSurveying.{further, surveyed, Countable};

use crate::reader::step_from;
use crate::{BlockStep, Placed};
use octets::bytes::{B, BLOCKS, F, H, J, N};

// What is known of the blocks of a body: whether one of them is a read, whether no sum is wrong, how many they are, and how many bytes
// of data they have.
#[derive(Clone, Copy)]
pub struct Survey {
    pub read: bool,
    pub right: bool,
    pub count: usize,
    pub bytes: usize,
}

// "bad body", 7; "a read that is not last", 8, with what is known of the blocks all the same
#[derive(Clone, Copy)]
pub enum Refusal {
    BadBody,
    ReadNotLast(Survey),
}

// "A read (codes "B", "F", "H", "J", "N")"
#[tactic(auto, unfolding(crate::specs::Body::is_read))]
pub fn is_read(c: u8) -> bool
    ensures { result ≡ is_read c }
{
    matches!(c, B | F | H | J | N)
}

// One block more.
fn further(seen: Survey, block: Placed) -> Survey
    requires { Countable seen block }
    ensures { result ≡ further seen block }
{
    Survey {
        read: seen.read || is_read(block.command),
        right: seen.right && block.right,
        count: seen.count + 1,
        bytes: seen.bytes + (block.to - block.from),
    }
}

// 7 and 8 are told apart only at the last block: a bad body is 7 wherever a read stands in it.
#[tactic(auto, using(crate::proofs::SurveyingLaws::surveys))]
pub fn survey_at(s: &[u8], from: usize) -> Result<Survey, Refusal>
    ensures { result ≡ surveyed (blocks BLOCKS (drop from s.now)) }
{
    let mut at = from;
    let mut seen = Survey {
        read: false,
        right: true,
        count: 0,
        bytes: 0,
    };
    for _ in 0..BLOCKS {
        match step_from(s, at) {
            BlockStep::Stray => return Err(Refusal::BadBody),
            BlockStep::Last { block } => {
                let whole = further(seen, block);
                if seen.read {
                    return Err(Refusal::ReadNotLast(whole));
                }
                return Ok(whole);
            }
            BlockStep::More { block, next } => {
                seen = further(seen, block);
                at = next;
            }
        }
    }
    Err(Refusal::BadBody)
}
