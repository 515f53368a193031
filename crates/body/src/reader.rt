// "The blocks are taken by a reader that remembers the frame and its place in it."
// The reader is thin: what stands at a place, and which place comes next, is told by functions on the slice and on numbers.
ghost use Rattle.std.specs.Prelude.{◌≡◌};
ghost use Rattle.body.specs.Steps.{found_at};
ghost use Rattle.body.specs.Readers.{place_behind, Opened, Stepped};

use crate::BlockStep;
use crate::steps::block_at;

// The frame, and the place in it where the next block is looked for.
#[derive(Drop)]
pub struct Reader<'a> {
    pub frame: &'a [u8],
    pub at: usize,
}

// The place behind what was found: that of the next block, or the frame's end where there is none.
#[tactic(auto, unfolding(crate::specs::Readers::place_behind))]
fn place_after(b: BlockStep, end: usize) -> usize
    ensures { result ≡ place_behind b end }
{
    match b {
        BlockStep::More { block: _, next } => next,
        BlockStep::Stray | BlockStep::Last { block: _ } => end,
    }
}

// A reader at a place of a frame.
// Stays: document 01 names the reader, and docs/PROMISES.md these calls of it, so they are no methods.
pub fn open_at(frame: &[u8], at: usize) -> Reader<'_>
    ensures { Opened frame.entry at result }
{
    Reader { frame, at }
}

// The block where the reader stands; it is left at the next one, or at the end of the frame where there is none.
#[tactic(auto, unfolding(crate::specs::Readers::place_after))]
pub fn step(r: &mut Reader) -> BlockStep
    ensures { Stepped r.old r.new result }
{
    let found = block_at(r.frame, r.at);
    r.at = place_after(found, r.frame.len());
    found
}

// From a slice and a place to a reader and back: its contract says nothing of a reader, so whoever calls it need not know of one.
pub fn step_from(s: &[u8], at: usize) -> BlockStep
    ensures { result ≡ found_at s.now at }
{
    let mut r = open_at(s, at);
    step(&mut r)
}
