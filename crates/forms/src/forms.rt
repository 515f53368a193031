// "Three forms we write": each call puts bytes into a buffer from a place on, where it has places for them, and answers the next place.
// Stays: buffer and place are two parameters. Of a struct that lends the buffer, `returns-clause-out_after` did not close without names of
// the kit's own.
ghost use Rattle.std.specs.Prelude.{◌≡◌, [], ◌∷◌, ◌+◌, ◌<◌, ◌≤◌, length};
ghost use Rattle.octets.specs.Bytes.{STX, EOT};
ghost use Rattle.octets.specs.Hex.{in_hex4};
ghost use Rattle.header.specs.Capitals.{header_capitals};
ghost use Rattle.body.specs.Sum.{checksum};
ghost use Rattle.forms.specs.Forms.{is_itself, escape_of, nuls};
ghost use Rattle.forms.specs.InnerNumbers.{form_number};
ghost use Rattle.forms.specs.InnerPieces.{Takes, Puts, in_hex2, encode, parting, ending, piece, heading};

use crate::Form;
use buffers::copying::copy_at;
use header::capitals::capital_at;
use octets::bytes::{EOT, ESCAPE, ETX, FIRST_PRINTABLE, LAST_PRINTABLE, NUL, SOH, STX};
use octets::hex::{hex_digit, is_between};

// Every byte but those "below 20H, above 7EH and 5FH" stands for itself in a printable form.
#[tactic(auto, unfolding(crate::specs::Forms::is_itself))]
pub fn is_itself(b: u8) -> bool
    ensures { result ≡ is_itself b }
{
    is_between(FIRST_PRINTABLE, LAST_PRINTABLE, b) & (b != ESCAPE)
}

// A byte as it is.
fn put_byte(out: &mut [u8], at: usize, b: u8) -> usize
    requires { at < length out.old }
    ensures { Puts out.old at (b ∷ []) out.new result }
{
    out[at] = b;
    at + 1
}

// The two digits of a byte.
fn put_two(out: &mut [u8], at: usize, b: u8) -> usize
    requires { at + 2 ≤ length out.old }
    ensures { Puts out.old at (in_hex2 b) out.new result }
{
    let next = put_byte(out, at, hex_digit(b / 16));
    put_byte(out, next, hex_digit(b % 16))
}

// An escape: "_" and two digits.
fn put_escape(out: &mut [u8], at: usize, b: u8) -> usize
    requires { at + 3 ≤ length out.old }
    ensures { Puts out.old at (escape_of b) out.new result }
{
    let next = put_byte(out, at, ESCAPE);
    put_two(out, next, b)
}

// One byte, as a form carries it.
fn put_one(out: &mut [u8], at: usize, form: Form, b: u8) -> usize
    requires { Takes out.old at (encode (form_number form) (b ∷ [])) }
    ensures { Puts out.old at (encode (form_number form) (b ∷ [])) out.new result }
{
    match form {
        Form::Printable => {
            if is_itself(b) {
                put_byte(out, at, b)
            } else {
                put_escape(out, at, b)
            }
        }
        _ => put_byte(out, at, b),
    }
}

// Every byte of a slice, one by one.
fn put_each(out: &mut [u8], at: usize, form: Form, s: &[u8]) -> usize
    requires { Takes out.old at (encode (form_number form) s.now) }
    ensures { Puts out.old at (encode (form_number form) s.now) out.new result }
{
    let mut next = at;
    for b in s {
        next = put_one(out, next, form, *b);
    }
    next
}

// A slice as it is, copied as a whole.
fn put_run(out: &mut [u8], at: usize, s: &[u8]) -> usize
    requires { Takes out.old at s.now }
    ensures { Puts out.old at s.now out.new result }
{
    copy_at(out, at, s);
    at + s.len()
}

// Every byte of a slice: forms 1 and 2 carry it as it is.
fn put_all(out: &mut [u8], at: usize, form: Form, s: &[u8]) -> usize
    requires { Takes out.old at (encode (form_number form) s.now) }
    ensures { Puts out.old at (encode (form_number form) s.now) out.new result }
{
    match form {
        Form::Printable => put_each(out, at, form, s),
        _ => put_run(out, at, s),
    }
}

// A header text, in capitals: "header addresses we write".
// Stays: the loop counts, since what is put for a byte hangs on its place; so it is no `put_each` of other bytes.
fn put_header(out: &mut [u8], at: usize, form: Form, h: &[u8]) -> usize
    requires { Takes out.old at (encode (form_number form) (header_capitals h.now)) }
    ensures { Puts out.old at (encode (form_number form) (header_capitals h.now)) out.new result }
{
    let mut next = at;
    for i in 0..h.len() {
        next = put_one(out, next, form, capital_at(h, i));
    }
    next
}

// The four digits of a sum. A digit is carried as it is in every form.
fn put_sum(out: &mut [u8], at: usize, v: u16) -> usize
    requires { at + 4 ≤ length out.old }
    ensures { Puts out.old at (in_hex4 v) out.new result }
{
    let [high, low] = v.to_be_bytes();
    let next = put_two(out, at, high);
    put_two(out, next, low)
}

// In the plain form ETX parts a block from the one before it.
fn put_parting(out: &mut [u8], at: usize, form: Form, first: bool) -> usize
    requires { Takes out.old at (encode (form_number form) (parting (form_number form) first)) }
    ensures { Puts out.old at (encode (form_number form) (parting (form_number form) first)) out.new result }
{
    match form {
        Form::Plain => {
            if first {
                at
            } else {
                put_one(out, at, form, ETX)
            }
        }
        _ => at,
    }
}

// In the others ETX and the checksum end it.
fn put_ending(out: &mut [u8], at: usize, form: Form, sum: u16) -> usize
    requires { Takes out.old at (encode (form_number form) (ending (form_number form) sum)) }
    ensures { Puts out.old at (encode (form_number form) (ending (form_number form) sum)) out.new result }
{
    match form {
        Form::Plain => at,
        _ => {
            let next = put_one(out, at, form, ETX);
            put_sum(out, next, sum)
        }
    }
}

// "STX, a command byte".
fn put_command(out: &mut [u8], at: usize, form: Form, command: u8) -> usize
    requires { Takes out.old at (encode (form_number form) (STX ∷ command ∷ [])) }
    ensures { Puts out.old at (encode (form_number form) (STX ∷ command ∷ [])) out.new result }
{
    let next = put_one(out, at, form, STX);
    put_one(out, next, form, command)
}

// "STX, a command byte, data".
fn put_opened(out: &mut [u8], at: usize, form: Form, command: u8, text: &[u8]) -> usize
    requires { Takes out.old at (encode (form_number form) (STX ∷ command ∷ text.now)) }
    ensures { Puts out.old at (encode (form_number form) (STX ∷ command ∷ text.now)) out.new result }
{
    let next = put_command(out, at, form, command);
    put_all(out, next, form, text)
}

// A block, with the sum that is known of it.
// Stays: command, data and sum are three parameters. A struct of the three with that fact in it proves, but then form 3 took 1.25 times as
// long as with them apart (re-forming 60 blocks of 120 bytes).
pub fn put_piece(
    out: &mut [u8],
    at: usize,
    form: Form,
    first: bool,
    command: u8,
    text: &[u8],
    sum: u16,
) -> usize
    requires takes { Takes out.old at (encode (form_number form) (piece (form_number form) first command text.now)) }
    requires sum_value { sum ≡ checksum command text.now }
    ensures { Puts out.old at (encode (form_number form) (piece (form_number form) first command text.now)) out.new result }
{
    let a = put_parting(out, at, form, first);
    let b = put_opened(out, a, form, command, text);
    put_ending(out, b, form, sum)
}

// "five NUL", and in form 3 "without the NULs".
fn put_nuls(out: &mut [u8], form: Form) -> usize
    requires { Takes out.old 0 (encode (form_number form) (nuls (form_number form))) }
    ensures { Puts out.old 0 (encode (form_number form) (nuls (form_number form))) out.new result }
{
    match form {
        Form::Printable => 0,
        _ => put_run(out, 0, &[NUL; 5]),
    }
}

// What stands before the blocks: "five NUL, SOH, header", this in capitals.
pub fn put_heading(out: &mut [u8], form: Form, h: &[u8]) -> usize
    requires { Takes out.old 0 (encode (form_number form) (heading (form_number form) (header_capitals h.now))) }
    ensures { Puts out.old 0 (encode (form_number form) (heading (form_number form) (header_capitals h.now))) out.new result }
{
    let a = put_nuls(out, form);
    let b = put_one(out, a, form, SOH);
    put_header(out, b, form, h)
}

// "EOT".
pub fn put_eot(out: &mut [u8], at: usize, form: Form) -> usize
    requires { Takes out.old at (encode (form_number form) (EOT ∷ [])) }
    ensures { Puts out.old at (encode (form_number form) (EOT ∷ [])) out.new result }
{
    put_one(out, at, form, EOT)
}
