// How long a result is, reckoned from what is known of its blocks: nothing is written to find it out.
ghost use Rattle.std.specs.Prelude.{◌≡◌, ◌+◌, ◌<◌, ◌≤◌, length, drop};
ghost use Rattle.octets.specs.Bytes.{TRANSLATED};
ghost use Rattle.forms.specs.InnerNumbers.{form_number};
ghost use Rattle.forms.specs.InnerLengths.{is_escaped, escapes, form_length, render_length, Known};

use crate::Form;
use crate::forms::is_itself;
use octets::bytes::PLAIN;

// A byte 05H to FFH that form 3 carries as an escape. All tests are made, so that a compiler can make them of many bytes at once.
fn is_escaped(b: u8) -> bool
    ensures { result ≡ is_escaped b }
{
    (PLAIN <= b) & !is_itself(b)
}

// How many such bytes there are. The sum is narrow, so that a compiler can add many at a time.
pub fn count_escapes(s: &[u8]) -> u16
    requires { length s.now ≤ TRANSLATED }
    ensures { result ≡ escapes s.now }
{
    s.iter().map(|b| u16::from(is_escaped(*b))).sum()
}

// How many bytes a form stands for.
pub fn form_length(form: Form, header: usize, count: usize, bytes: usize) -> usize
    requires { Known header count bytes }
    ensures { result ≡ form_length (form_number form) header count bytes }
{
    match form {
        Form::Plain => 6 + header + 3 * count + bytes,
        Form::Summed => 7 + header + 7 * count + bytes,
        Form::Printable => 2 + header + 7 * count + bytes,
    }
}

// How many bytes it has.
pub fn render_length(form: Form, long: usize, count: usize, escapes: usize) -> usize
    requires { Known long count escapes }
    ensures { result ≡ render_length (form_number form) long count escapes }
{
    match form {
        Form::Printable => long + 2 * (2 + 2 * count + escapes),
        _ => long,
    }
}
