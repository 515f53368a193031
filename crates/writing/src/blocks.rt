// The header and the blocks of a frame that was read, counted and put.
ghost use Rattle.std.specs.Prelude.{◌≡◌, true};
ghost use Rattle.header.specs.Capitals.{header_capitals};
ghost use Rattle.forms.specs.InnerNumbers.{form_number};
ghost use Rattle.forms.specs.InnerPieces.{Takes, Puts, encode, pieces, headed};
ghost use Rattle.writing.specs.InnerSources.{escapes_in};
ghost use Rattle.writing.specs.InnerFrames.{text_of, blocks_of};

use crate::source::Source;
use body::taking::take_at;
use forms::lengths::count_escapes;
use forms::{Form, put_heading, put_piece};

// The escapes among the blocks: form 3 alone needs their number. What else stands in a good body are control bytes, which are no data,
// and digits, which stand for themselves: so all of it is looked at in a row.
pub fn escapes_of(form: Form, source: &Source) -> usize
    ensures { result ≡ escapes_in (form_number form) (blocks_of source.now) }
{
    match form {
        Form::Printable => usize::from(count_escapes(source.blocks())),
        _ => 0,
    }
}

// Every block, in a form, each with the sum that its walk has told.
pub fn put_blocks(out: &mut [u8], place: usize, form: Form, first: bool, source: &Source) -> usize
    requires { Takes out.old place (encode (form_number form) (pieces (form_number form) first (blocks_of source.now))) }
    ensures { Puts out.old place (encode (form_number form) (pieces (form_number form) first (blocks_of source.now))) out.new result }
{
    let s = source.bytes;
    let mut at = source.parts.body;
    let mut begun = first;
    let mut next = place;
    for _ in 0..source.parts.seen.count {
        let block = take_at(s, at);
        let i = at + 2;
        let j = block.to;
        next = put_piece(out, next, form, begun, block.command, &s[i..j], block.sum);
        begun = false;
        at = block.next;
    }
    next
}

// The header before them, and every block, in a form.
pub fn put_headed(out: &mut [u8], form: Form, source: &Source) -> usize
    requires { Takes out.old 0 (encode (form_number form) (headed (form_number form) (header_capitals (text_of source.now)) (blocks_of source.now))) }
    ensures { Puts out.old 0 (encode (form_number form) (headed (form_number form) (header_capitals (text_of source.now)) (blocks_of source.now))) out.new result }
{
    let next = put_heading(out, form, source.header_text());
    put_blocks(out, next, form, true, source)
}
