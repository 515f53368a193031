// The block that stands at a place of a frame.
ghost use Rattle.std.specs.Prelude.{◌≡◌, ◌+◌, ◌<◌, ◌||◌, length, drop};
ghost use Rattle.octets.specs.Choice.{◌is◌};
ghost use Rattle.octets.specs.Bytes.{STX, EOT};
ghost use Rattle.body.specs.Body.{is_end, follow, after_etx, after_data};
ghost use Rattle.body.specs.Steps.{placed, found_at, data_of, read_back};
ghost use Rattle.body.specs.InnerWalking.{stx, Inside, Summed};

use crate::sum::{added, opening};
use crate::walk::{Walked, walk};
use crate::{BlockStep, Placed};
use octets::bytes::{EOT, ETX, PLAIN, STX};
use octets::hex::carried_four_at;
use octets::slices::byte_at;

// "EOT as the very last byte"
#[tactic(auto, using(crate::proofs::StepsLaws::places))]
fn is_end(s: &[u8], at: usize) -> bool
    ensures { result ≡ is_end (drop at s.now) }
{
    byte_at(s, at) == EOT && s.len() - at == 1
}

// "then STX or EOT": a block, with what stands behind it at `next`.
#[tactic(auto, using(crate::proofs::StepsLaws::places), unfolding(crate::specs::Body::follow, crate::specs::Steps::placed))]
fn follow(s: &[u8], block: Placed, next: usize) -> BlockStep
    requires { Inside s.now block }
    ensures { result ≡ placed s.now (stx block) (follow (read_back s.now block) (drop next s.now)) }
{
    if byte_at(s, next) == STX {
        return BlockStep::More { block, next };
    }
    if is_end(s, next) {
        return BlockStep::Last { block };
    }
    BlockStep::Stray
}

// "STX or EOT means no checksum"
pub fn no_sum(b: u8) -> bool
    ensures { result ≡ (b is STX || b is EOT) }
{
    matches!(b, STX | EOT)
}

// "After ETX, STX or EOT means no checksum; otherwise four upper-case hex digits, then STX or EOT."; small letters
// are taken too. The ETX stands where the block's data end.
#[tactic(auto, using(crate::proofs::StepsLaws::behind_etx), unfolding(crate::specs::Body::after_etx))]
fn after_etx(s: &[u8], block: Placed, sum: u16) -> BlockStep
    requires walked { Summed s.now block sum }
    requires etx { block.to < length s.now }
    ensures { result ≡ placed s.now (stx block) (after_etx block.command (data_of s.now block) (drop (block.to + 1) s.now)) }
{
    if no_sum(byte_at(s, block.to + 1)) {
        return follow(s, block, block.to + 1);
    }
    match carried_four_at(s, block.to + 1) {
        None => BlockStep::Stray,
        Some(v) => {
            let told = Placed {
                right: v == sum,
                ..block
            };
            follow(s, told, block.to + 5)
        }
    }
}

// "ETX ends a block; only the last may end at EOT without it." The block counts as right, and its sum is needed only where ETX and digits follow.
#[tactic(auto, using(crate::proofs::StepsLaws::places), unfolding(crate::specs::Body::after_data, crate::specs::Steps::placed))]
fn after_data(s: &[u8], block: Placed, sum: u16) -> BlockStep
    requires { Summed s.now block sum }
    ensures { result ≡ placed s.now (stx block) (after_data block.command (data_of s.now block) (drop block.to s.now)) }
{
    if byte_at(s, block.to) == ETX {
        return after_etx(s, block, sum);
    }
    if is_end(s, block.to) {
        return BlockStep::Last { block };
    }
    BlockStep::Stray
}

// "A block is STX, a command byte, data. Both are bytes 05H to FFH."
#[tactic(auto, using(crate::proofs::StepsLaws::finding))]
pub fn block_at(s: &[u8], at: usize) -> BlockStep
    ensures { result ≡ found_at s.now at }
{
    if byte_at(s, at) != STX {
        return BlockStep::Stray;
    }
    let command = byte_at(s, at + 1);
    if command < PLAIN {
        return BlockStep::Stray;
    }
    let from = at + 2;
    let start = Walked {
        to: from,
        sum: opening(command),
    };
    let text = walk(s, start);
    let block = Placed {
        from,
        to: text.to,
        command,
        right: true,
    };
    after_data(s, block, added(text.sum, ETX))
}
