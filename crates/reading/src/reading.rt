// How a frame reads: "empty (3), first byte (4), raw length (3), 5, translated length (3), lead (4), 6, 7, 8".
ghost use Rattle.std.specs.Prelude.{◌≡◌, true, false, ◌||◌, ◌≤◌, length, drop, position};
ghost use Rattle.octets.specs.Choice.{◌is◌};
ghost use Rattle.octets.specs.Bytes.{NUL, SOH, STX};
ghost use Rattle.reading.specs.Lead.{led, lead_of};
ghost use Rattle.reading.specs.Reading.{read_led, read};
ghost use Rattle.reading.specs.Places.{numbered, is_printable, bare_read, Reads};
ghost use Rattle.reading.specs.InnerParts.{parts_at, part_places, Translates};

use crate::lead::lead_end;
use crate::translation::{count_translated, translate_into};
use crate::{Read, Refusal};
use body::surveying::{Survey, survey_at};
use header::is_header;
use octets::bytes::{ESCAPE, NUL, PRINTABLE, SOH, STANDARD, STX, TRANSLATED};
use octets::slices::byte_at;

// Where header and body start, and what is known of the blocks.
#[derive(Clone, Copy)]
pub struct Parts {
    pub header: usize,
    pub body: usize,
    pub seen: Survey,
}

// Where the first STX stands.
fn first_stx(t: &[u8]) -> Option<usize>
    ensures { result ≡ position (λ x. x is STX) t.now }
{
    t.iter().position(|x| *x == STX)
}

// The header from a place on, and the body behind it.
#[tactic(auto, using(crate::proofs::Parting::leading))]
fn read_led(t: &[u8], header: usize) -> Result<Parts, Refusal>
    requires { header ≤ length t.now }
    ensures { numbered result ≡ parts_at header (read_led (led (drop header t.now))) }
{
    let Some(length) = first_stx(&t[header..]) else {
        return Err(Refusal::BadHeader);
    };
    let body = header + length;
    if !is_header(&t[header..body]) {
        return Err(Refusal::BadHeader);
    }
    let seen = survey_at(t, body)?;
    Ok(Parts { header, body, seen })
}

// Lead, header and body of the bytes that a frame stands for.
#[tactic(auto, using(crate::proofs::Parting::parting))]
pub fn read_parts(t: &[u8], printable: bool) -> Result<Parts, Refusal>
    ensures { numbered result ≡ part_places printable t.now (read_led (lead_of printable t.now)) }
{
    match lead_end(t, printable) {
        None => Err(Refusal::WrongLead),
        Some(header) => read_led(t, header),
    }
}

// "5FH: printable"
pub fn is_printable(s: &[u8]) -> bool
    ensures { result ≡ is_printable s.now }
{
    byte_at(s, 0) == ESCAPE
}

// "First byte 00H or 01H: standard."
fn opens_standard(first: u8) -> bool
    ensures { result ≡ (first is NUL || first is SOH) }
{
    first == NUL || first == SOH
}

// A frame that is not printable stands for itself: "empty (3), first byte (4), raw length (3)", and then its parts.
#[tactic(auto, using(crate::proofs::Rooms::standard))]
pub fn read_standard(s: &[u8]) -> Result<Parts, Refusal>
    requires { is_printable s.now ≡ false }
    ensures { numbered result ≡ part_places false s.now (read s.now) }
{
    if s.is_empty() {
        return Err(Refusal::WrongLength);
    }
    if !opens_standard(byte_at(s, 0)) {
        return Err(Refusal::WrongLead);
    }
    if STANDARD < s.len() {
        return Err(Refusal::WrongLength);
    }
    read_parts(s, false)
}

// The bytes that a printable frame stands for, put into a room, and how many they are: "raw length (3), 5, translated length (3)".
// Stays: the test stands where the kind of frame is chosen; a type for such frames would be made there to hold the same slice.
#[tactic(auto, using(crate::proofs::Rooms::translating))]
pub fn translate(s: &[u8], room: &mut [u8; 8192]) -> Result<usize, Refusal>
    requires { is_printable s.now ≡ true }
    ensures { Translates s.now room.old result room.new }
{
    if PRINTABLE < s.len() {
        return Err(Refusal::WrongLength);
    }
    let Some(length) = count_translated(s) else {
        return Err(Refusal::BadPrintable);
    };
    if TRANSLATED < length {
        return Err(Refusal::WrongLength);
    }
    translate_into(s, room);
    Ok(length)
}

// A frame whose first byte is 5FH.
#[tactic(auto, using(crate::proofs::Rooms::printable))]
fn read_printable(s: &[u8], room: &mut [u8; 8192]) -> Result<Read, Refusal>
    requires { is_printable s.now ≡ true }
    ensures { Reads s.now room.old result room.new }
{
    let length = translate(s, room)?;
    let parts = read_parts(&room[..length], true)?;
    Ok(Read::Printable {
        length,
        header: parts.header,
        body: parts.body,
    })
}

// Reading without a room: a frame that is not printable. To this call the first byte of a printable one is a wrong one.
#[tactic(auto, using(crate::proofs::Rooms::bare))]
pub fn read_bare(s: &[u8]) -> Result<Read, Refusal>
    ensures { numbered result ≡ bare_read s.now }
{
    if is_printable(s) {
        return Err(Refusal::WrongLead);
    }
    let parts = read_standard(s)?;
    Ok(Read::Standard {
        header: parts.header,
        body: parts.body,
    })
}

// Reading a frame: where its header and its blocks stand, in the frame itself or, for a printable one, in the room.
#[tactic(auto, using(crate::proofs::Rooms::readings))]
pub fn read(s: &[u8], room: &mut [u8; 8192]) -> Result<Read, Refusal>
    ensures { Reads s.now room.old result room.new }
{
    if is_printable(s) {
        read_printable(s, room)
    } else {
        read_bare(s)
    }
}
