// The commands A, G, B and H: of the settings they look at the index alone, and change none.
ghost use Rattle.std.specs.Prelude.{◌≡◌, ◌+◌, ◌≤◌, length};
ghost use Rattle.octets.specs.Choice.{front};
ghost use Rattle.octets.specs.Bytes.{is_plain};
ghost use Rattle.effects.specs.Reply.{reply_room};
ghost use Rattle.effects.specs.InnerLeaving.{Told};
ghost use Rattle.commands.specs.Commands.{holding};
ghost use Rattle.commands.specs.InnerDoing.{Room, OfBoard, putting, writing, getting, reading, Puts, Files};

use board::Content;
use board::index::{LABELS, look_up};
use buffers::copying::{copy_at, zero_at};
use effects::Refusal;
use effects::reply::{DATA, reply};
use octets::slices::plain_run;

// "The TEXT or STRING file then holds the message, zeros after it."
fn hold(m: &mut [u8], start: usize, size: usize, message: &[u8])
    requires { Room m.old start size message.now }
    ensures { m.new ≡ holding m.old start size message.now }
{
    let n = message.len();
    copy_at(m, start, message);
    zero_at(m, start + n, size - n);
}

// 23, the message put, or 24.
fn put_message(
    places: &[u16; LABELS],
    m: &mut [u8],
    label: u8,
    kind: u8,
    message: &[u8],
) -> Result<(), Refusal>
    requires { OfBoard places.now m.old }
    ensures { Puts places.now m.old (putting label kind message.now) result m.new }
{
    let Some(Content { start, size }) = look_up(places, m, label, kind) else {
        return Err(Refusal::NoFile);
    };
    if message.len() <= size {
        hold(m, start, size, message);
        return Ok(());
    }
    Err(Refusal::TooLong)
}

// "A, G: label and message, which may be empty."
pub fn write_file(
    places: &[u16; LABELS],
    m: &mut [u8],
    kind: u8,
    text: &[u8],
) -> Result<(), Refusal>
    requires { OfBoard places.now m.old }
    ensures { Puts places.now m.old (writing kind text.now) result m.new }
{
    match text {
        [] => Err(Refusal::Malformed),
        [label, message @ ..] => put_message(places, m, *label, kind, message),
    }
}

// A content without its zeros, put where a reply's data stand.
fn tell_content(content: &[u8], out: &mut [u8]) -> usize
    requires { length content.now + 33 ≤ length out.old }
    ensures { Told out.old (front is_plain content.now) out.new result }
{
    let n = plain_run(content, 0);
    copy_at(out, DATA, &content[..n]);
    n
}

// 23, or the reply with the content.
// Stays: index, memory and reply buffer are lent apart by the run, here, in read_file and in do_block; a struct of them would be made for
// each call and opened here, so three ask for room in the buffer and for the index of a board.
fn get_content(
    places: &[u16; LABELS],
    m: &[u8],
    label: u8,
    kind: u8,
    code: u8,
    out: &mut [u8],
) -> Result<usize, Refusal>
    requires of_board { OfBoard places.now m.now }
    requires m_in_bounds { reply_room m.now ≤ length out.old }
    ensures { Files places.now m.now out.old (getting code label kind) result m.now out.new }
{
    let Some(Content { start, size }) = look_up(places, m, label, kind) else {
        return Err(Refusal::NoFile);
    };
    let end = start + size;
    let n = tell_content(&m[start..end], out);
    let length = reply(out, code, label, n);
    Ok(length)
}

// "B, H: label alone. The reply carries the content without its zeros."
pub fn read_file(
    places: &[u16; LABELS],
    m: &[u8],
    kind: u8,
    code: u8,
    text: &[u8],
    out: &mut [u8],
) -> Result<usize, Refusal>
    requires of_board { OfBoard places.now m.now }
    requires m_in_bounds { reply_room m.now ≤ length out.old }
    ensures { Files places.now m.now out.old (reading kind code text.now) result m.now out.new }
{
    match text {
        [label] => get_content(places, m, *label, kind, code, out),
        _ => Err(Refusal::Malformed),
    }
}
