// The demo of document 01: reads one frame from standard input, runs it on a fresh 512-byte board of type "C" and prints five lines.
#![tactic(auto)]

ghost use Rattle.std.specs.Prelude.{◌≤◌, length, IfOk};

use sign::Answer;
use sign::fresh::fresh;
use sign::run::run;
use std::io;
use std::io::Read;

// one byte more than the longest frame: an over-long input stays over-long
const ROOM: usize = 24577;

// where the reply to F "#" has the unused memory, and how many digits
const UNUSED: usize = 32;

const DIGITS: usize = 4;

// Frame number; blocks done; blocks refused; place and number of the first refused.
fn print_answer(rt: &impl Print, r: Answer) -> io::Result<()> {
    let tally = r.tally;
    println!(rt; "result {}", r.number)?;
    println!(rt; "done {}", tally.done)?;
    println!(rt; "refused {}", tally.refused)?;
    println!(rt; "first {} {}", tally.place, tally.reason)
}

// "unused memory in hex"
fn print_unused(rt: &impl Print, reply: &[u8; 576]) -> io::Result<()> {
    rt.write_all(b"unused ")?;
    rt.write_all(&reply[UNUSED..UNUSED + DIGITS])?;
    rt.write_all(b"\n")
}

fn show(rt: &impl Print, frame: &[u8]) -> io::Result<()> {
    let mut memory = [0u8; 512];
    let mut reply = [0u8; 576];
    let made = fresh(b'C', &mut memory);
    let settings = made.settings;
    let first = run(settings, &mut memory, &mut reply, frame);
    print_answer(rt, first)?;
    let next = first.settings;
    let _pool = run(next, &mut memory, &mut reply, b"_01Z00_02F#_04");
    print_unused(rt, &reply)
}

// How many bytes of the input stand at the start of buf: it is full, or the input has ended.
// Stays: read_to_end takes a Vec, which can run out of memory, and this program takes none besides the stack.
fn read_full<R: Read>(input: &mut R, buf: &mut [u8]) -> io::Result<usize>
    ensures { IfOk result (λ n. n ≤ length buf.new) }
{
    let mut at = 0;
    for _ in 0..u64::MAX {
        if at == buf.len() {
            break;
        }
        let n = input.read(&mut buf[at..])?;
        if n == 0 {
            break;
        }
        at += n;
    }
    Ok(at)
}

fn main(rt: HostRuntime) -> io::Result<()> {
    let mut frame = [0u8; ROOM];
    let n = read_full(&mut rt.reader(), &mut frame)?;
    show(&rt, &frame[..n])
}
