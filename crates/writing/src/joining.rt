// "Joining puts the second frame's blocks after the first's under the common header."
// "Joining: 15, the first input's 3 to 8 and 17, the second's, 12," 19, "13, 18, 14."
ghost use Rattle.std.specs.Prelude.{◌≡◌, true, ◌++◌};
ghost use Rattle.octets.specs.Choice.{same};
ghost use Rattle.header.specs.Capitals.{header_capitals};
ghost use Rattle.reading.specs.Reading.{read};
ghost use Rattle.reading.specs.Capitals.{in_capitals};
ghost use Rattle.reading.specs.Places.{is_printable};
ghost use Rattle.forms.specs.Forms.{render};
ghost use Rattle.forms.specs.InnerNumbers.{form_number};
ghost use Rattle.forms.specs.InnerPieces.{Takes, Puts};
ghost use Rattle.writing.specs.Output.{output, put};
ghost use Rattle.writing.specs.Reforming.{checked};
ghost use Rattle.writing.specs.Joining.{put_joined, join};
ghost use Rattle.writing.specs.InnerSources.{answered};
ghost use Rattle.writing.specs.InnerRefusals.{told};
ghost use Rattle.writing.specs.InnerFrames.{text_of, blocks_of, frame_of};

use crate::blocks::{escapes_of, put_blocks, put_headed};
use crate::output::fit;
use crate::source::Source;
use crate::taking::{see_printable, see_standard, take_printable, take_standard};
use crate::{Refusal, Written};
use forms::{Form, put_eot};
use header::addressing::starts;
use header::capitals::same_capitals;
use reading::reading::is_printable;

// The first frame's header, its blocks and then the second's, in a form.
fn put_joined(out: &mut [u8], form: Form, first: &Source, second: &Source) -> usize
    requires { Takes out.old 0 (render (form_number form) (header_capitals (text_of first.now)) (blocks_of first.now ++ blocks_of second.now)) }
    ensures { Puts out.old 0 (render (form_number form) (header_capitals (text_of first.now)) (blocks_of first.now ++ blocks_of second.now)) out.new result }
{
    let next = put_headed(out, form, first);
    let end = put_blocks(out, next, form, false, second);
    put_eot(out, end, form)
}

// 18, 14, or the length of the joined frame: all that is to be known of it are sums.
fn fit_both(form: Form, first: &Source, second: &Source, room: usize) -> Result<usize, Refusal>
    ensures { told result ≡ answered (form_number form) (header_capitals (text_of first.now)) (blocks_of first.now ++ blocks_of second.now) room }
{
    let header = first.header_text().len();
    let escapes = escapes_of(form, first) + escapes_of(form, second);
    let count = first.parts.seen.count + second.parts.seen.count;
    let bytes = first.parts.seen.bytes + second.parts.seen.bytes;
    fit(form, header, count, bytes, escapes, room)
}

// Two frames that may be joined: 18, 14 or the result.
fn join_calm(form: Form, first: &Source, second: &Source, out: &mut [u8]) -> Result<usize, Refusal>
    ensures { output (told result) out.new ≡ put (form_number form) (header_capitals (text_of first.now)) (blocks_of first.now ++ blocks_of second.now) out.old }
{
    fit_both(form, first, second, out.len())?;
    Ok(put_joined(out, form, first, second))
}

// "the common header": headers that differ only in small letters "count as equal in joining".
fn is_common(h: &[u8], g: &[u8]) -> bool
    ensures { result ≡ same (header_capitals h.now) (header_capitals g.now) }
{
    same_capitals(h, g)
}

// Two frames whose sums are right: 12, 19, 13, and then the rest.
fn join_right(form: Form, first: &Source, second: &Source, out: &mut [u8]) -> Result<usize, Refusal>
    ensures { output (told result) out.new ≡ put_joined (form_number form) (frame_of first.now) (frame_of second.now) out.old }
{
    if !is_common(first.header_text(), second.header_text()) {
        return Err(Refusal::HeadersDiffer);
    }
    let alone = starts(first.header_text());
    if alone {
        return Err(Refusal::StartJoined);
    }
    let read = first.parts.seen.read;
    if read {
        return Err(Refusal::FirstHasRead);
    }
    join_calm(form, first, second, out)
}

// The first frame is read and its sums are right, the second is read: the second's 17, and then the rest.
fn join_seen(form: Form, first: &Source, second: &Source, out: &mut [u8]) -> Result<usize, Refusal>
    ensures { output (told result) out.new ≡ put_joined (form_number form) (frame_of first.now) (checked (frame_of second.now)) out.old }
{
    let right = second.parts.seen.right;
    if !right {
        return Err(Refusal::WrongSum);
    }
    join_right(form, first, second, out)
}

// A printable second frame, whose bytes need a room: this stands by itself, so that a standard frame needs none.
fn join_printable(
    form: Form,
    first: &Source,
    second: &[u8],
    out: &mut [u8],
) -> Result<usize, Refusal>
    requires { is_printable second.now ≡ true }
    ensures { output (told result) out.new ≡ put_joined (form_number form) (frame_of first.now) (checked (in_capitals (read second.now))) out.old }
{
    let mut room = [0u8; 8192];
    join_seen(form, first, &see_printable(second, &mut room)?, out)
}

// The first frame is read and its sums are right: the second's numbers.
fn join_second(form: Form, first: &Source, second: &[u8], out: &mut [u8]) -> Result<usize, Refusal>
    ensures { output (told result) out.new ≡ put_joined (form_number form) (frame_of first.now) (checked (in_capitals (read second.now))) out.old }
{
    if is_printable(second) {
        return join_printable(form, first, second, out);
    }
    join_seen(form, first, &see_standard(second)?, out)
}

// A printable first frame, with a room of its own.
fn first_printable(
    form: Form,
    first: &[u8],
    second: &[u8],
    out: &mut [u8],
) -> Result<usize, Refusal>
    requires { is_printable first.now ≡ true }
    ensures { output (told result) out.new ≡ put_joined (form_number form) (checked (in_capitals (read first.now))) (checked (in_capitals (read second.now))) out.old }
{
    let mut room = [0u8; 8192];
    join_second(form, &take_printable(first, &mut room)?, second, out)
}

// The first frame's numbers, and then the second's.
fn join_frames(form: u8, first: &[u8], second: &[u8], out: &mut [u8]) -> Result<usize, Refusal>
    ensures { output (told result) out.new ≡ join form first.now second.now out.old }
{
    let form = Form::try_from(form)?;
    if is_printable(first) {
        return first_printable(form, first, second, out);
    }
    join_second(form, &take_standard(first)?, second, out)
}

// Joining two frames into one, in a form, at the start of the output buffer.
pub fn join(form: u8, first: &[u8], second: &[u8], out: &mut [u8]) -> Written
    ensures { output result out.new ≡ join form first.now second.now out.old }
{
    Written::from(join_frames(form, first, second, out))
}
