// Twelve permit notices, one summed frame each, joined two at a time into one frame in each of the three forms and run on a board,
// beside the same twelve run one by one on another: what both boards hold is printed and compared.
#![tactic(auto)]

ghost use Rattle.std.specs.Prelude.{◌≡◌, ◌≤◌, length, IfOk};

use board::Settings;
use std::io;
use std::io::Write;

// each notice's file takes an 11-byte record and 32 bytes of content
const RECORD: usize = 11;

const PITCH: usize = RECORD + 32;

const NOTICES: u8 = 12;

// A board, and the counts of what was run on it.
#[derive(Drop)]
struct Trial {
    settings: Settings,
    memory: [u8; 1024],
    reply: [u8; 1088],
    // Stays: a sum of the numbers that runs answered.
    number: u64,
    done: u64,
    refused: u64,
}

impl Trial {
    // A fresh board with its twelve files.
    fn prepared() -> Trial {
        let mut memory = [0u8; 1024];
        let mut reply = [0u8; 1088];
        let made = sign::fresh::fresh(b'C', &mut memory);
        let r = sign::run::run(
            made.settings,
            &mut memory,
            &mut reply,
            b"_01Z00_02E$AAU0020FF00BAU0020FF00CAU0020FF00DAU0020FF00EAU0020FF00FAU0020FF00GAU0020FF00HAU0020FF00IAU0020FF00JAU0020FF00KAU0020FF00LAU0020FF00_04",
        );
        Trial {
            settings: r.settings,
            memory,
            reply,
            number: 0,
            done: 0,
            refused: 0,
        }
    }

    fn run(&mut self, frame: &[u8]) {
        let r = sign::run::run(self.settings, &mut self.memory, &mut self.reply, frame);
        self.settings = r.settings;
        self.number = self.number.saturating_add(u64::from(r.number));
        self.done = self.done.saturating_add(u64::from(r.tally.done));
        self.refused = self.refused.saturating_add(u64::from(r.tally.refused));
    }

    fn print_counts(&self, rt: &impl Print, name: &str) -> io::Result<()> {
        println!(rt; "{name} {} {} {}", self.number, self.done, self.refused)
    }
}

// The first n bytes, and all of them where there are fewer.
fn front(s: &[u8], n: usize) -> &[u8]
    ensures { length result.now ≤ length s.now }
{
    &s[..n.min(s.len())]
}

// Notice k, as a summed frame at the start of a buffer.
fn notice<'a>(k: u8, out: &'a mut [u8; 64]) -> io::Result<&'a [u8]>
    ensures { IfOk result (λ frame. length frame.now ≤ 64) }
{
    let label = char::from(b'A' - 1 + k % 16);
    let mut text = [0u8; 28];
    write!(&mut text[..], "{label}PERMIT {k:02} RENEW BY 31 MARCH")?;
    let w = frame::write(2, b"Z00", b'A', &text, out);
    Ok(front(out, w.length))
}

// All twelve in one frame at the start of a buffer: its length, or the number of the first joining that does not answer 0.
// Stays: a buffer and a length, since a Vec can run out of memory, and this program takes none besides the stack.
fn pack(form: u8, packed: &mut [u8; 4096]) -> io::Result<Result<usize, u8>>
    ensures { IfOk result (λ joined. IfOk joined (λ n. n ≤ 4096)) }
{
    let mut one = [0u8; 64];
    let first = notice(1, &mut one)?;
    let mut n = first.len();
    packed[..n].copy_from_slice(first);
    for k in 2..=NOTICES {
        let mut out = [0u8; 4096];
        let next = notice(k, &mut one)?;
        let w = frame::join(form, front(packed, n), next, &mut out);
        if w.number != 0 {
            return Ok(Err(w.number));
        }
        n = w.length;
        *packed = out;
    }
    Ok(Ok(front(packed, n).len()))
}

// `same` or another word.
fn told(rt: &impl Print, name: &str, equal: bool, otherwise: &str) -> io::Result<()> {
    let word = if equal { "same" } else { otherwise };
    println!(rt; "{name} {word}")
}

// A file's label, and its content without the zeros.
fn print_file(rt: &impl Print, file: &[u8]) -> io::Result<()>
    requires { length file.now ≡ 43 }
{
    rt.write_all(&file[..1])?;
    rt.write_all(b" ")?;
    let content = &file[RECORD..];
    let end = content.iter().position(|b| *b == 0);
    rt.write_all(&content[..end.unwrap_or(content.len())])?;
    rt.write_all(b"\n")
}

fn print_files(rt: &impl Print, memory: &[u8; 1024]) -> io::Result<()> {
    for k in 0..12usize {
        let at = k * PITCH;
        print_file(rt, &memory[at..at + PITCH])?;
    }
    Ok(())
}

// The twelve in one frame run on one board, and one by one on another.
fn compare(rt: &impl Print, frame: &[u8]) -> io::Result<()> {
    let mut packed = Trial::prepared();
    packed.run(frame);
    let mut apart = Trial::prepared();
    for k in 1..=NOTICES {
        let mut one = [0u8; 64];
        apart.run(notice(k, &mut one)?);
    }
    packed.print_counts(rt, "packed")?;
    apart.print_counts(rt, "separate")?;
    told(rt, "settings", packed.settings == apart.settings, "differ")?;
    told(rt, "memory", packed.memory == apart.memory, "differs")?;
    told(rt, "reply", packed.reply == apart.reply, "differs")?;
    print_files(rt, &packed.memory)
}

// One form: the twelve packed and run, the twelve run one by one, and what both left.
fn show(rt: &impl Print, form: u8) -> io::Result<()> {
    println!(rt; "form {form}")?;
    let mut packed = [0u8; 4096];
    match pack(form, &mut packed)? {
        Ok(n) => {
            println!(rt; "length {n}")?;
            compare(rt, front(&packed, n))
        }
        Err(number) => println!(rt; "join {number}"),
    }
}

fn main(rt: HostRuntime) -> io::Result<()> {
    for form in 1..=3 {
        show(&rt, form)?;
    }
    Ok(())
}
