// What a call that writes a form answers: "18, 14".
ghost use Rattle.std.specs.Prelude.{◌≡◌};
ghost use Rattle.forms.specs.InnerNumbers.{form_number};
ghost use Rattle.writing.specs.InnerSources.{Reckoned, fitted};
ghost use Rattle.writing.specs.InnerRefusals.{told};

use crate::Refusal;
use forms::Form;
use forms::lengths::{form_length, render_length};
use octets::bytes::{BLOCKS, TRANSLATED};

// 18, 14, or the result's length: reckoned from the length of the header, the number of blocks, the bytes of their data, the escapes among
// them and the buffer's length.
// Stays: four amounts, which nothing but this takes together; their struct would be made at three calls to be taken apart here.
pub fn fit(
    form: Form,
    header: usize,
    count: usize,
    bytes: usize,
    escapes: usize,
    room: usize,
) -> Result<usize, Refusal>
    requires { Reckoned header count bytes escapes }
    ensures { told result ≡ fitted (form_number form) header count bytes escapes room }
{
    if BLOCKS < count {
        return Err(Refusal::TooLong);
    }
    let long = form_length(form, header, count, bytes);
    if TRANSLATED < long {
        return Err(Refusal::TooLong);
    }
    let raw = render_length(form, long, count, escapes);
    if room < raw {
        return Err(Refusal::NoRoom);
    }
    Ok(raw)
}
