// A frame's blocks: where they start, and a step over them. The calls below answer enums that hold values, which C has not: here they are plain numbers.
ghost use Rattle.std.specs.Prelude.{◌≡◌};
ghost use Rattle.body.specs.Steps.{found_at};
ghost use Rattle.port.specs.Blocks.{ReadsAs, block_told, block_as};

use crate::{BlockPlaces, Places};
use frame::{BlockStep, Placed, Read, read, step_from};

// Stays: C's interface tells the kind of a step by a byte.
const NO_BLOCK: u8 = 0;

const MORE: u8 = 1;

const LAST: u8 = 2;

// Reads a frame: 0, or 3 to 8. The bytes that a printable frame stands for come to the start of the room.
#[unsafe(no_mangle)]
#[tactic(auto, unfolding(crate::specs::Blocks::places_as))]
pub extern "C" fn pagozkin_read(frame: &[u8], room: &mut [u8; 8192]) -> Places
    ensures { ReadsAs frame.now room.old result room.new }
{
    match read(frame, room) {
        Err(refusal) => Places {
            number: refusal.number(),
            printable: 0,
            length: 0,
            header: 0,
            body: 0,
        },
        Ok(Read::Standard { header, body }) => Places {
            number: 0,
            printable: 0,
            length: frame.len(),
            header,
            body,
        },
        Ok(
            Read::Printable {
                length,
                header,
                body,
            },
        ) => Places {
            number: 0,
            printable: 1,
            length,
            header,
            body,
        },
    }
}

// A block, and where the reader is left behind it.
fn told(kind: u8, block: Placed, next: usize) -> BlockPlaces
    ensures { result ≡ block_told kind block next }
{
    BlockPlaces {
        kind,
        command: block.command,
        right: u8::from(block.right),
        from: block.from,
        to: block.to,
        next,
    }
}

// The block that starts at a place.
#[unsafe(no_mangle)]
#[tactic(auto, unfolding(crate::specs::Blocks::block_as))]
pub extern "C" fn pagozkin_step(bytes: &[u8], at: usize) -> BlockPlaces
    ensures { result ≡ block_as bytes.now (found_at bytes.now at) }
{
    match step_from(bytes, at) {
        BlockStep::Stray => BlockPlaces {
            kind: NO_BLOCK,
            command: 0,
            right: 0,
            from: 0,
            to: 0,
            next: bytes.len(),
        },
        BlockStep::More { block, next } => told(MORE, block, next),
        BlockStep::Last { block } => told(LAST, block, bytes.len()),
    }
}
