// What is taken to be written: a frame that reads, and no sum of which is wrong. What is seen is a frame that reads, whatever its sums: the
// second frame is only seen, and its sums are tested where it is joined, so that a contract of their own tells of them.
ghost use Rattle.std.specs.Prelude.{◌≡◌, true, false, ◌≤◌, length, Ok};
ghost use Rattle.octets.specs.Bytes.{TRANSLATED};
ghost use Rattle.reading.specs.Lead.{lead_of};
ghost use Rattle.reading.specs.Reading.{read_led, read};
ghost use Rattle.reading.specs.Capitals.{in_capitals};
ghost use Rattle.reading.specs.Places.{is_printable};
ghost use Rattle.reading.specs.InnerParts.{parts_view};
ghost use Rattle.writing.specs.Reforming.{checked};
ghost use Rattle.writing.specs.InnerSources.{Parted};
ghost use Rattle.writing.specs.InnerFrames.{frame_of, reading_of};

use crate::Refusal;
use crate::source::Source;
use reading::reading::{Parts, read_parts, read_standard, translate};

// The bytes that a frame stands for, with what a reading of them answers.
fn take_parts<'a>(s: &'a [u8], parts: Parts) -> Source<'a>
    requires { Parted s.now parts }
    ensures { frame_of result ≡ in_capitals (parts_view s.now (Ok parts)) }
{
    Source { bytes: s, parts }
}

// The bytes that a printable frame stands for: its 4, 6, 7 and 8.
fn take_room<'a>(t: &'a [u8]) -> Result<Source<'a>, Refusal>
    requires { length t.now ≤ TRANSLATED }
    ensures { reading_of result ≡ in_capitals (read_led (lead_of true t.now)) }
{
    Ok(take_parts(t, read_parts(t, true)?))
}

// A frame that stands for itself, whatever its sums.
pub fn see_standard<'a>(s: &'a [u8]) -> Result<Source<'a>, Refusal>
    requires { is_printable s.now ≡ false }
    ensures { reading_of result ≡ in_capitals (read s.now) }
{
    Ok(take_parts(s, read_standard(s)?))
}

// A printable frame, whatever its sums, whose bytes are put into a room.
pub fn see_printable<'a>(s: &[u8], room: &'a mut [u8; 8192]) -> Result<Source<'a>, Refusal>
    requires { is_printable s.now ≡ true }
    ensures { reading_of result ≡ in_capitals (read s.now) }
{
    let length = translate(s, room)?;
    take_room(&room[..length])
}

// A frame that reads: 17, or the frame.
fn right_sums<'a>(source: Source<'a>) -> Result<Source<'a>, Refusal>
    ensures { reading_of result ≡ checked (frame_of source.entry) }
{
    let right = source.parts.seen.right;
    if !right {
        return Err(Refusal::WrongSum);
    }
    Ok(source)
}

// A frame that stands for itself.
pub fn take_standard<'a>(s: &'a [u8]) -> Result<Source<'a>, Refusal>
    requires { is_printable s.now ≡ false }
    ensures { reading_of result ≡ checked (in_capitals (read s.now)) }
{
    right_sums(see_standard(s)?)
}

// A printable frame, whose bytes are put into a room.
pub fn take_printable<'a>(s: &[u8], room: &'a mut [u8; 8192]) -> Result<Source<'a>, Refusal>
    requires { is_printable s.now ≡ true }
    ensures { reading_of result ≡ checked (in_capitals (read s.now)) }
{
    right_sums(see_printable(s, room)?)
}
