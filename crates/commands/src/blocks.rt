// One block on a sound board, by its command.
ghost use Rattle.std.specs.Prelude.{◌≡◌, ◌≤◌, length};
ghost use Rattle.body.specs.Body.{block};
ghost use Rattle.board.specs.Board.{board};
ghost use Rattle.effects.specs.Reply.{reply_room};
ghost use Rattle.effects.specs.InnerLeaving.{left_as, leaving, Ready};
ghost use Rattle.commands.specs.Blocks.{do_block};
ghost use Rattle.commands.specs.InnerDoing.{commanding, filing, OfBoard, Files};

use crate::commands::{read_file, write_file};
use board::Settings;
use board::files::{STRING, TEXT};
use board::index::LABELS;
use effects::{Done, Refusal};
use octets::bytes::{A, B, E, F, G, H};
use special::{read_special, write_special};

// A, G, B, H and no other. The reply to B is written with A, that to H with G.
fn file_command(
    places: &[u16; LABELS],
    m: &mut [u8],
    code: u8,
    text: &[u8],
    out: &mut [u8],
) -> Result<usize, Refusal>
    requires of_board { OfBoard places.now m.old }
    requires m_in_bounds { reply_room m.old ≤ length out.old }
    ensures { Files places.now m.old out.old (commanding code text.now) result m.new out.new }
{
    match code {
        A => write_file(places, m, TEXT, text).and(Ok(0)),
        G => write_file(places, m, STRING, text).and(Ok(0)),
        B => read_file(places, m, TEXT, A, text, out),
        H => read_file(places, m, STRING, G, text, out),
        _ => Err(Refusal::Unknown),
    }
}

// Any block but E and F: command byte, data, and whether its sum is right. Of the settings it looks at the index alone.
pub fn file_block(
    places: &[u16; LABELS],
    m: &mut [u8],
    code: u8,
    text: &[u8],
    right: bool,
    out: &mut [u8],
) -> Result<usize, Refusal>
    requires of_board { OfBoard places.now m.old }
    requires m_in_bounds { reply_room m.old ≤ length out.old }
    ensures { Files places.now m.old out.old (filing (block code text.now right)) result m.new out.new }
{
    if !right {
        return Err(Refusal::WrongChecksum);
    }
    file_command(places, m, code, text, out)
}

// A block: command byte, data, and whether its sum is right. E and F take the settings, every other block their index.
pub fn do_block(
    s: &mut Settings,
    m: &mut [u8],
    code: u8,
    text: &[u8],
    right: bool,
    out: &mut [u8],
) -> Done
    requires { Ready (board s.old m.old) out.old }
    ensures { left_as result s.new m.new out.new ≡ leaving out.old (do_block (board s.old m.old) (block code text.now right)) }
{
    if !right {
        return Done::from(Err(Refusal::WrongChecksum));
    }
    match code {
        // Stays: E hands its settings back, done or refused; the others answer a Result.
        E => {
            let changed = write_special(*s, m, text);
            *s = changed.settings;
            Done {
                number: changed.number,
                length: 0,
            }
        }
        F => Done::from(read_special(s, m, text, out)),
        _ => Done::from(file_block(&s.places, m, code, text, right, out)),
    }
}
