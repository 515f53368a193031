// Replays a stream of cases from standard input through the public calls, a line of output for each.
// A case is a call byte and its arguments: a number is one byte, or two with the most significant first (a signed one in two's
// complement), a string its length in two bytes and its bytes.
#![tactic(auto)]

use board::Settings;
use frame::Written;
use octets::hex::hex_digit;
use renewal::Date;
use sign::Answer;
use std::io::{BufReader, BufWriter, ErrorKind, Read, Write};
use std::{fmt, io};

// What the longest string takes. There are three, which main makes once: a case takes nothing from the heap, and so cannot run out of it.
type Room = [u8; 65535];

#[derive(Drop)]
struct Rooms {
    a: Room,
    b: Room,
    c: Room,
}

// What is read of the stream. Where it ends within an argument, a read fails with UnexpectedEof.
#[derive(Drop)]
struct Cases<R> {
    input: R,
}

impl<R: Read> Cases<R> {
    fn array<const N: usize>(&mut self) -> io::Result<[u8; N]> {
        let mut bytes = [0u8; N];
        self.input.read_exact(&mut bytes)?;
        Ok(bytes)
    }

    fn number(&mut self) -> io::Result<u8> {
        let [n]: [u8; 1] = self.array()?;
        Ok(n)
    }

    fn long_number(&mut self) -> io::Result<u16> {
        Ok(u16::from_be_bytes(self.array()?))
    }

    // A string, at the start of a room.
    fn string<'a>(&mut self, room: &'a mut Room) -> io::Result<&'a mut [u8]> {
        let length = usize::from(self.long_number()?);
        let s = &mut room[..length];
        self.input.read_exact(s)?;
        Ok(s)
    }

    // The settings string: a byte for each of the ten settings, two for the unused amount and for each label's place, one for the
    // offset and one for the register. One of another length is InvalidData.
    fn settings(&mut self, room: &mut Room) -> io::Result<Settings> {
        let set: &[u8] = self.string(room)?;
        match <&[u8; SETTINGS]>::try_from(set) {
            Ok(set) => Ok(settings(set)),
            Err(_) => Err(io::Error::from(ErrorKind::InvalidData)),
        }
    }
}

// A call of few numbers has them read in one piece: in pieces of their own they would take a good part of its case.
fn date(year: [u8; 2], month: u8, day: u8) -> Date {
    Date {
        year: u16::from_be_bytes(year),
        month,
        day,
    }
}

const SETTINGS: usize = 204;

fn settings(set: &[u8; SETTINGS]) -> Settings {
    let mut places = [0; 95];
    for i in 0..95usize {
        places[i] = u16::from_be_bytes([set[12 + 2 * i], set[13 + 2 * i]]);
    }
    Settings {
        hour: set[0],
        minute: set[1],
        month: set[2],
        day: set[3],
        year: set[4],
        format: set[5],
        speaker: set[6],
        address: set[7],
        own: set[8],
        files: set[9],
        unused: u16::from_be_bytes([set[10], set[11]]),
        places,
        offset: set[202].cast_signed(),
        errors: set[203],
    }
}

// So many bytes are written at a time: formatted one by one they would take most of a run.
const PART: usize = 64;

// A string in hex digits, or "-" for an empty one.
#[derive(Drop)]
struct Hex<'a>(&'a [u8]);

impl fmt::Display for Hex<'_> {
    fn fmt<W: fmt::Write>(&self, f: &mut fmt::Formatter<W>) -> fmt::Result {
        if self.0.is_empty() {
            return f.write_str("-");
        }
        for part in self.0.chunks(PART) {
            let mut digits = [[b'0'; 2]; PART];
            for (pair, b) in digits.iter_mut().zip(part) {
                *pair = [hex_digit(*b / 16), hex_digit(*b % 16)];
            }
            let n = part.len().min(PART);
            let text = digits[..n].as_flattened();
            match str::from_utf8(text) {
                Ok(text) => f.write_str(text)?,
                Err(_) => return Err(fmt::Error),
            }
        }
        Ok(())
    }
}

fn print_written<W: Write>(to: &mut W, r: Written, out: &[u8]) -> io::Result<()> {
    writeln!(to, "{} {} {}", r.number, r.length, Hex(out))
}

fn print_settings<W: Write>(to: &mut W, s: &Settings) -> io::Result<()> {
    write!(
        to,
        "{} {} {} {} {} ",
        s.hour, s.minute, s.month, s.day, s.year
    )?;
    write!(
        to,
        "{} {} {} {} {} {} ",
        s.format, s.speaker, s.address, s.own, s.files, s.unused
    )?;
    let mut places = [[0; 2]; 95];
    for (bytes, place) in places.iter_mut().zip(s.places) {
        *bytes = place.to_be_bytes();
    }
    write!(
        to,
        "{} {} {}",
        Hex(places.as_flattened()),
        s.offset,
        s.errors
    )
}

fn print_answer<W: Write>(to: &mut W, r: Answer) -> io::Result<()> {
    let t = r.tally;
    write!(
        to,
        "{} {} {} {} {} {} ",
        r.number, t.done, t.refused, t.place, t.reason, t.length
    )?;
    print_settings(to, &r.settings)
}

fn reform<R: Read, W: Write>(
    cases: &mut Cases<R>,
    rooms: &mut Rooms,
    to: &mut W,
) -> io::Result<()> {
    let form = cases.number()?;
    let frame = cases.string(&mut rooms.a)?;
    let out = cases.string(&mut rooms.b)?;
    let r = frame::reform(form, frame, out);
    print_written(to, r, out)
}

fn run<R: Read, W: Write>(cases: &mut Cases<R>, rooms: &mut Rooms, to: &mut W) -> io::Result<()> {
    let settings = cases.settings(&mut rooms.a)?;
    let memory = cases.string(&mut rooms.a)?;
    let reply = cases.string(&mut rooms.b)?;
    let frame = cases.string(&mut rooms.c)?;
    let r = sign::run::run(settings, memory, reply, frame);
    print_answer(to, r)?;
    writeln!(to, " {} {}", Hex(memory), Hex(reply))
}

fn fresh<R: Read, W: Write>(cases: &mut Cases<R>, rooms: &mut Rooms, to: &mut W) -> io::Result<()> {
    let own = cases.number()?;
    let memory = cases.string(&mut rooms.a)?;
    let r = sign::fresh::fresh(own, memory);
    write!(to, "{} ", r.number)?;
    print_settings(to, &r.settings)?;
    writeln!(to, " {}", Hex(memory))
}

fn write<R: Read, W: Write>(cases: &mut Cases<R>, rooms: &mut Rooms, to: &mut W) -> io::Result<()> {
    let form = cases.number()?;
    let header = cases.string(&mut rooms.a)?;
    let command = cases.number()?;
    let data = cases.string(&mut rooms.b)?;
    let out = cases.string(&mut rooms.c)?;
    let r = frame::write(form, header, command, data, out);
    print_written(to, r, out)
}

fn join<R: Read, W: Write>(cases: &mut Cases<R>, rooms: &mut Rooms, to: &mut W) -> io::Result<()> {
    let form = cases.number()?;
    let first = cases.string(&mut rooms.a)?;
    let second = cases.string(&mut rooms.b)?;
    let out = cases.string(&mut rooms.c)?;
    let r = frame::join(form, first, second, out);
    print_written(to, r, out)
}

fn renewal_date<R: Read, W: Write>(cases: &mut Cases<R>, to: &mut W) -> io::Result<()> {
    let [a, b, month, day, high, low]: [u8; 6] = cases.array()?;
    let first = date([a, b], month, day);
    let months = i16::from_be_bytes([high, low]);
    let r = renewal::renewing::renewal_date(first, months);
    let date = r.date;
    writeln!(to, "{} {} {} {}", r.number, date.year, date.month, date.day)
}

fn weekday<R: Read, W: Write>(cases: &mut Cases<R>, to: &mut W) -> io::Result<()> {
    let [a, b, month, day]: [u8; 4] = cases.array()?;
    let r = renewal::days::weekday(date([a, b], month, day));
    writeln!(to, "{} {}", r.number, r.weekday)
}

fn days_between<R: Read, W: Write>(cases: &mut Cases<R>, to: &mut W) -> io::Result<()> {
    let [a, b, month, day, c, d, other, last]: [u8; 8] = cases.array()?;
    let r = renewal::days::days_between(date([a, b], month, day), date([c, d], other, last));
    writeln!(to, "{} {}", r.number, r.days)
}

fn add_offset<R: Read, W: Write>(cases: &mut Cases<R>, to: &mut W) -> io::Result<()> {
    let [offset, high, low]: [u8; 3] = cases.array()?;
    let reading = i16::from_be_bytes([high, low]);
    let r = temperature::correcting::add_offset(offset.cast_signed(), reading);
    writeln!(to, "{} {}", r.number, r.sum)
}

fn port_errors<R: Read, W: Write>(
    cases: &mut Cases<R>,
    rooms: &mut Rooms,
    to: &mut W,
) -> io::Result<()> {
    let settings = cases.settings(&mut rooms.a)?;
    let bits = cases.number()?;
    let r = sign::errors::port_errors(settings, bits);
    write!(to, "{} ", r.number)?;
    print_settings(to, &r.settings)?;
    to.write_all(b"\n")
}

// Whether there was a case. A call byte that is none is InvalidData.
fn one_case<R: Read, W: Write>(
    cases: &mut Cases<R>,
    rooms: &mut Rooms,
    to: &mut W,
) -> io::Result<bool> {
    let mut call = [0u8; 1];
    if cases.input.read(&mut call)? == 0 {
        return Ok(false);
    }
    // Stays: the stream names a call by a byte, and each call reads arguments of its own.
    match call[0] {
        b'F' => reform(cases, rooms, to)?,
        b'R' => run(cases, rooms, to)?,
        b'N' => fresh(cases, rooms, to)?,
        b'W' => write(cases, rooms, to)?,
        b'J' => join(cases, rooms, to)?,
        b'D' => renewal_date(cases, to)?,
        b'Y' => weekday(cases, to)?,
        b'B' => days_between(cases, to)?,
        b'T' => add_offset(cases, to)?,
        b'P' => port_errors(cases, rooms, to)?,
        _ => return Err(io::Error::from(ErrorKind::InvalidData)),
    }
    Ok(true)
}

// A proved loop has to end, and nothing says that the input does: no run has so many cases.
fn main(rt: HostRuntime) -> io::Result<()> {
    let mut cases = Cases {
        input: BufReader::new(rt.alloc(), rt.reader())?,
    };
    let mut to = BufWriter::new(rt.alloc(), io::writer(&rt))?;
    let mut rooms = Rooms {
        a: [0; 65535],
        b: [0; 65535],
        c: [0; 65535],
    };
    for _ in 0..u64::MAX {
        match one_case(&mut cases, &mut rooms, &mut to) {
            Ok(true) => {}
            Ok(false) => break,
            Err(e) => {
                if !matches!(e.kind(), ErrorKind::UnexpectedEof | ErrorKind::InvalidData) {
                    return Err(e);
                }
                to.write_all(b"bad case\n")?;
                break;
            }
        }
    }
    to.flush()
}
