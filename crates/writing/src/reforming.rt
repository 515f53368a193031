// Putting a frame into another form: "15, 3 to 8 in the run's order, 17, 18, 14".
ghost use Rattle.std.specs.Prelude.{◌≡◌, true};
ghost use Rattle.header.specs.Capitals.{header_capitals};
ghost use Rattle.reading.specs.Reading.{read};
ghost use Rattle.reading.specs.Capitals.{in_capitals};
ghost use Rattle.reading.specs.Places.{is_printable};
ghost use Rattle.forms.specs.Forms.{render};
ghost use Rattle.forms.specs.InnerNumbers.{form_number};
ghost use Rattle.forms.specs.InnerPieces.{Takes, Puts};
ghost use Rattle.writing.specs.Output.{output, put};
ghost use Rattle.writing.specs.Reforming.{checked, put_read, reform};
ghost use Rattle.writing.specs.InnerSources.{answered};
ghost use Rattle.writing.specs.InnerRefusals.{told};
ghost use Rattle.writing.specs.InnerFrames.{text_of, blocks_of};

use crate::blocks::{escapes_of, put_headed};
use crate::output::fit;
use crate::source::Source;
use crate::taking::{take_printable, take_standard};
use crate::{Refusal, Written};
use forms::{Form, put_eot};
use reading::reading::is_printable;

// The whole frame, in a form.
fn put_reformed(out: &mut [u8], form: Form, source: &Source) -> usize
    requires { Takes out.old 0 (render (form_number form) (header_capitals (text_of source.now)) (blocks_of source.now)) }
    ensures { Puts out.old 0 (render (form_number form) (header_capitals (text_of source.now)) (blocks_of source.now)) out.new result }
{
    let next = put_headed(out, form, source);
    put_eot(out, next, form)
}

// 18, 14, or the length of the result.
fn fit_reformed(form: Form, source: &Source, room: usize) -> Result<usize, Refusal>
    ensures { told result ≡ answered (form_number form) (header_capitals (text_of source.now)) (blocks_of source.now) room }
{
    let header = source.header_text().len();
    let seen = source.parts.seen;
    fit(
        form,
        header,
        seen.count,
        seen.bytes,
        escapes_of(form, source),
        room,
    )
}

// A frame whose sums are right: 18, 14 or the result.
fn reform_right(form: Form, source: &Source, out: &mut [u8]) -> Result<usize, Refusal>
    ensures { output (told result) out.new ≡ put (form_number form) (header_capitals (text_of source.now)) (blocks_of source.now) out.old }
{
    fit_reformed(form, source, out.len())?;
    Ok(put_reformed(out, form, source))
}

// A printable frame, whose bytes need a room: this stands by itself, so that a standard frame needs none.
// Stays: three such functions, one here and two in joining. One that takes a closure would hand it the buffer that it writes, and joining
// would need one closure inside another: no plainer than two lines each.
fn reform_printable(form: Form, s: &[u8], out: &mut [u8]) -> Result<usize, Refusal>
    requires { is_printable s.now ≡ true }
    ensures { output (told result) out.new ≡ put_read (form_number form) (checked (in_capitals (read s.now))) out.old }
{
    let mut room = [0u8; 8192];
    reform_right(form, &take_printable(s, &mut room)?, out)
}

// The same of any frame.
fn reform_frame(form: u8, s: &[u8], out: &mut [u8]) -> Result<usize, Refusal>
    ensures { output (told result) out.new ≡ reform form s.now out.old }
{
    let form = Form::try_from(form)?;
    if is_printable(s) {
        return reform_printable(form, s, out);
    }
    reform_right(form, &take_standard(s)?, out)
}

// Re-forming: what a frame reads as, in a form, at the start of the output buffer.
pub fn reform(form: u8, s: &[u8], out: &mut [u8]) -> Written
    ensures { output result out.new ≡ reform form s.now out.old }
{
    Written::from(reform_frame(form, s, out))
}
