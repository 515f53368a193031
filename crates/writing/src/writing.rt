// Writing a one-command frame: "15, 6, 16, 18, 14".
ghost use Rattle.std.specs.Prelude.{◌≡◌, true, ◌≤◌, length};
ghost use Rattle.octets.specs.Bytes.{TRANSLATED};
ghost use Rattle.header.specs.Capitals.{header_capitals};
ghost use Rattle.forms.specs.Forms.{render};
ghost use Rattle.forms.specs.InnerNumbers.{form_number};
ghost use Rattle.forms.specs.InnerPieces.{Takes, Puts};
ghost use Rattle.writing.specs.Output.{output, put};
ghost use Rattle.writing.specs.Writing.{write};
ghost use Rattle.writing.specs.InnerSources.{escapes_in, answered};
ghost use Rattle.writing.specs.InnerRefusals.{told};
ghost use Rattle.writing.specs.InnerFrames.{block_of};

use crate::output::fit;
use crate::single::Single;
use crate::{Refusal, Written};
use body::sum::{add_up, added, opening};
use forms::lengths::count_escapes;
use forms::{Form, put_eot, put_heading, put_piece};
use header::is_header;
use octets::bytes::{ETX, PLAIN, TRANSLATED};
use reading::Refusal as Fault;

// The header and the block, in a form, with the sum that is known of it, and EOT.
fn put_written(out: &mut [u8], form: Form, single: &Single) -> usize
    requires { Takes out.old 0 (render (form_number form) (header_capitals single.now.header.now) (block_of single.now)) }
    ensures { Puts out.old 0 (render (form_number form) (header_capitals single.now.header.now) (block_of single.now)) out.new result }
{
    let next = put_heading(out, form, single.header);
    let end = put_piece(
        out,
        next,
        form,
        true,
        single.command,
        single.text,
        single.sum,
    );
    put_eot(out, end, form)
}

// The escapes in the block: form 3 alone needs their number.
fn written_escapes(form: Form, single: &Single) -> usize
    requires { length single.now.text.now ≤ TRANSLATED }
    ensures { result ≡ escapes_in (form_number form) (block_of single.now) }
{
    match form {
        Form::Printable => {
            usize::from(count_escapes(&[single.command])) + usize::from(count_escapes(single.text))
        }
        _ => 0,
    }
}

// 18, 14, or the length of the result.
fn fit_written(form: Form, single: &Single, room: usize) -> Result<usize, Refusal>
    ensures { told result ≡ answered (form_number form) (header_capitals single.now.header.now) (block_of single.now) room }
{
    let bytes = single.text.len();
    if TRANSLATED < bytes {
        return Err(Refusal::TooLong);
    }
    let escapes = written_escapes(form, single);
    fit(form, single.header.len(), 1, bytes, escapes, room)
}

// A good header text and plain bytes: 18, 14 or the result.
fn write_plain(form: Form, single: &Single, out: &mut [u8]) -> Result<usize, Refusal>
    ensures { output (told result) out.new ≡ put (form_number form) (header_capitals single.now.header.now) (block_of single.now) out.old }
{
    fit_written(form, single, out.len())?;
    Ok(put_written(out, form, single))
}

// Any header text and bytes. The data are tested and added up in one look.
fn write_frame(
    form: u8,
    h: &[u8],
    command: u8,
    text: &[u8],
    out: &mut [u8],
) -> Result<usize, Refusal>
    ensures { output (told result) out.new ≡ write form h.now command text.now out.old }
{
    let form = Form::try_from(form)?;
    if !is_header(h) {
        return Err(Refusal::Unread(Fault::BadHeader));
    }
    if command < PLAIN {
        return Err(Refusal::ByteTooLow);
    }
    let Ok(body) = add_up(text, opening(command)) else {
        return Err(Refusal::ByteTooLow);
    };
    let single = Single {
        header: h,
        command,
        text,
        sum: added(body, ETX),
    };
    write_plain(form, &single, out)
}

// Writing: header text, command byte and data in a form, at the start of the output buffer.
pub fn write(form: u8, h: &[u8], command: u8, text: &[u8], out: &mut [u8]) -> Written
    ensures { output result out.new ≡ write form h.now command text.now out.old }
{
    Written::from(write_frame(form, h, command, text, out))
}
