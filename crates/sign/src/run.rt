// Running one frame on a board: "1, 2, empty (3), first byte (4), raw length (3), 5, translated length (3), lead (4), 6, 7, 8, 9", and 28.
ghost use Rattle.std.specs.Prelude.{◌≡◌, true, false, ◌+◌, ◌<◌, ◌≤◌, length};
ghost use Rattle.octets.specs.Choice.{part};
ghost use Rattle.octets.specs.Bytes.{BLOCKS};
ghost use Rattle.header.specs.Addressing.{starts};
ghost use Rattle.body.specs.Steps.{read_back, blocks_at};
ghost use Rattle.reading.specs.Reading.{frame, read};
ghost use Rattle.reading.specs.Places.{is_printable};
ghost use Rattle.board.specs.Board.{board};
ghost use Rattle.board.specs.Soundness.{sound};
ghost use Rattle.configuration.specs.Starting.{START-MEMORY};
ghost use Rattle.effects.specs.InnerLeaving.{Ready};
ghost use Rattle.commands.specs.Blocks.{run_block};
ghost use Rattle.sign.specs.Run.{nothing, count, measure, outcome, untouched, onto, run_blocks, begun, run_frame, run};
ghost use Rattle.sign.specs.InnerRunning.{number_in, answer_as, Runnable, Running, Framed, admission};

use crate::{Answer, Refusal, Tally};
use board::Settings;
use board::soundness::sound;
use commands::blocks::do_block;
use configuration::starting::{START_MEMORY, start};
use effects::recording::fault_noted;
use effects::reply::reply_room;
use frame::{BlockStep, Placed, Read, addressed, is_printable, read, read_bare, starts, step_from};
use octets::bytes::BLOCKS;

impl Tally {
    // "both 0 if none"
    pub fn none() -> Tally
        ensures { result ≡ nothing }
    {
        Tally {
            done: 0,
            refused: 0,
            place: 0,
            reason: 0,
            length: 0,
        }
    }

    // One block more, of that number.
    fn count(self, number: u8) -> Tally
        requires { self.done + self.refused < BLOCKS }
        ensures { result ≡ count self number }
    {
        if number == 0 {
            return Tally {
                done: self.done + 1,
                ..self
            };
        }
        if self.reason == 0 {
            return Tally {
                refused: self.refused + 1,
                place: self.done + self.refused + 1,
                reason: number,
                ..self
            };
        }
        Tally {
            refused: self.refused + 1,
            ..self
        }
    }

    // A reply of that length, if there is one.
    fn measure(self, n: usize) -> Tally
        ensures { result ≡ measure self n }
    {
        if n == 0 {
            return self;
        }
        Tally { length: n, ..self }
    }
}

// "1 to 9: board and buffers untouched, everything else returned is 0."; 28 "leaves and returns what 1 to 9 do".
fn untouched(s: Settings, number: u8) -> Answer
    ensures { result ≡ answer_as number nothing s }
{
    Answer {
        number,
        tally: Tally::none(),
        settings: s,
    }
}

impl Answer {
    // One block of t more, and its number noted in the register.
    fn run_block(&mut self, m: &mut [u8], t: &[u8], block: Placed, out: &mut [u8])
        requires runnable { Runnable (outcome self.old m.old out.old) }
        requires inside { (block.from ≤ block.to) × (block.to ≤ length t.now) }
        ensures { outcome self.new m.new out.new ≡ onto (outcome self.old m.old out.old) (run_block (board self.old.settings m.old) (read_back t.now block)) }
    {
        let Placed {
            command,
            from,
            to,
            right,
        } = block;
        let text = &t[from..to];
        let done = do_block(&mut self.settings, m, command, text, right, out);
        let number = done.number;
        self.tally = self.tally.count(number).measure(done.length);
        self.settings.errors = fault_noted(self.settings.errors, number);
    }
}

// The blocks in order, taken by the reader; a refused block changes nothing but the register, and the blocks behind it run.
fn run_blocks(s: Settings, m: &mut [u8], out: &mut [u8], t: &[u8], from: usize) -> Answer
    requires { Running (board s m.old) out.old t.now from }
    ensures { outcome result m.new out.new ≡ run_blocks (untouched 0 (board s m.old) out.old) (blocks_at t.now from) }
{
    let mut at = from;
    let mut ran = untouched(s, 0);
    for _ in 0..BLOCKS {
        match step_from(t, at) {
            BlockStep::Stray => return ran,
            BlockStep::Last { block } => {
                ran.run_block(m, t, block, out);
                return ran;
            }
            BlockStep::More { block, next } => {
                ran.run_block(m, t, block, out);
                at = next;
            }
        }
    }
    ran
}

// Why a frame of this header is not run: 9, and 28 "straight after 9".
#[tactic(auto, using(crate::proofs::Answering::admitting))]
fn admission(h: &[u8], own: u8, address: u8, room: usize) -> Result<(), Refusal>
    ensures { number_in result ≡ admission own address h.now room }
{
    let away = !addressed(h, own, address);
    let small = starts(h) & (room < START_MEMORY);
    if away {
        return Err(Refusal::NotAddressed);
    }
    if small {
        return Err(Refusal::MemoryTooSmall);
    }
    Ok(())
}

// The settings before the first block: of type "z" the board "first gets" its files.
fn begin(s: Settings, m: &mut [u8], h: &[u8]) -> Settings
    requires m_value { sound (board s m.old) ≡ true }
    requires in_bounds { starts h.now ≡ true → START-MEMORY ≤ length m.old }
    ensures { board result m.new ≡ begun (board s m.old) h.now }
{
    if starts(h) {
        return start(s, m);
    }
    s
}

// The blocks of a frame, on the board that it begins with.
fn run_begun(
    s: Settings,
    m: &mut [u8],
    out: &mut [u8],
    t: &[u8],
    header: usize,
    from: usize,
) -> Answer
    requires framed { Framed (board s m.old) out.old t.now header from }
    requires in_bounds { starts (part header from t.now) ≡ true → START-MEMORY ≤ length m.old }
    ensures { outcome result m.new out.new ≡ run_blocks (untouched 0 (begun (board s m.old) (part header from t.now)) out.old) (blocks_at t.now from) }
{
    let begun = begin(s, m, &t[header..from]);
    run_blocks(begun, m, out, t, from)
}

// A frame that was read, on a sound board: 9, 28, or its blocks.
// Stays: the bytes and two places in them go through this function and the one before; a struct would be made in two others only to be opened here.
fn run_frame(
    s: Settings,
    m: &mut [u8],
    out: &mut [u8],
    t: &[u8],
    header: usize,
    from: usize,
) -> Answer
    requires { Framed (board s m.old) out.old t.now header from }
    ensures { outcome result m.new out.new ≡ run_frame (board s m.old) out.old (frame (part header from t.now) (blocks_at t.now from)) }
{
    if let Err(refusal) = admission(&t[header..from], s.own, s.address, m.len()) {
        return untouched(s, refusal.number());
    }
    run_begun(s, m, out, t, header, from)
}

// Any frame on a sound board: a printable one needs a room for the bytes that it stands for.
fn run_roomed(s: Settings, m: &mut [u8], out: &mut [u8], bytes: &[u8]) -> Answer
    requires { Ready (board s m.old) out.old }
    ensures { outcome result m.new out.new ≡ run_frame (board s m.old) out.old (read bytes.now) }
{
    let mut room = [0u8; 8192];
    // An answer is handed back where it is made: as the value of the match its settings would be copied once more.
    match read(bytes, &mut room) {
        Err(refusal) => return untouched(s, refusal.number()),
        Ok(Read::Standard { header, body }) => return run_frame(s, m, out, bytes, header, body),
        Ok(
            Read::Printable {
                length,
                header,
                body,
            },
        ) => {
            let translated = &room[..length];
            return run_frame(s, m, out, translated, header, body);
        }
    }
}

// One that is not printable needs none: this stands by itself, so that no room is cleared for it.
fn run_bare(s: Settings, m: &mut [u8], out: &mut [u8], bytes: &[u8]) -> Answer
    requires ready { Ready (board s m.old) out.old }
    requires bytes_value { is_printable bytes.now ≡ false }
    ensures { outcome result m.new out.new ≡ run_frame (board s m.old) out.old (read bytes.now) }
{
    match read_bare(bytes) {
        Err(refusal) => return untouched(s, refusal.number()),
        Ok(Read::Standard { header, body }) => return run_frame(s, m, out, bytes, header, body),
        // no such answer comes without a room
        // Stays: frame promises read_bare with this type.
        Ok(
            Read::Printable {
                length: _,
                header: _,
                body: _,
            },
        ) => return untouched(s, 0),
    }
}

// Running: a frame on a board, with a reply buffer.
pub fn run(s: Settings, m: &mut [u8], out: &mut [u8], bytes: &[u8]) -> Answer
    ensures { outcome result m.new out.new ≡ run (board s m.old) out.old bytes.now }
{
    if !sound(s, m) {
        return untouched(s, Refusal::NotSound as u8);
    }
    if out.len() < reply_room(m) {
        return untouched(s, Refusal::ReplyTooShort as u8);
    }
    if is_printable(bytes) {
        return run_roomed(s, m, out, bytes);
    }
    run_bare(s, m, out, bytes)
}
