// The rows of command I: judged in one walk that writes nothing, and drawn in one walk.
ghost use Rattle.std.specs.Prelude.{◌≡◌, ◌+◌, ◌≤◌};
ghost use Rattle.pixels.specs.Pixels.{bytes_of};
ghost use Rattle.rows.specs.Rows.{without_feeds, well_formed, drawn};
ghost use Rattle.rows.specs.InnerDrawn.{Judged};

use pixels::set_pixel;

const LF: u8 = 0x0A;

// "A row's text ends at CR", and the reply to J has one "after every row".
pub const CR: u8 = 0x0D;

// Whether a text is one of so many rows: "other bytes, and any but line feeds past the last row's CR, are malformed".
#[tactic(auto, using(crate::proofs::RowsLaws::judging))]
pub fn well_formed(rows: usize, text: &[u8]) -> bool
    ensures { result ≡ well_formed rows (without_feeds text.now) }
{
    let mut left = rows;
    for b in text {
        match *b {
            LF => {}
            _ if left == 0 => return false,
            CR => left -= 1,
            b'0'..=b'8' => {}
            _ => return false,
        }
    }
    true
}

// Where the next row starts, with `room` left of this one: "rows one after another", in the middle of a byte too.
fn next_row(at: usize, room: usize) -> usize
    requires { at + room ≤ 131070 }
    ensures { result ≡ at + room }
{
    at + room
}

// A judged text drawn into a picture's bytes. They are cleared first: so "short rows filled with "0"" and "Missing rows are off" need
// no pixel put. `at` is the next pixel and `room` what is left of its row. `left`, the rows to go, is for the proof: no compiler keeps it.
#[tactic(auto, using(crate::proofs::RowsLaws::drawing))]
pub fn draw(rows: usize, columns: usize, text: &[u8], picture: &mut [u8])
    requires { Judged rows columns text.now picture.old }
    ensures { picture.new ≡ bytes_of (drawn rows columns (without_feeds text.now)) }
{
    picture.fill(0);
    let mut left = rows;
    let mut room = columns;
    let mut at = 0;
    for b in text {
        let b = *b;
        match b {
            LF => {}
            CR => {
                at = next_row(at, room);
                room = columns;
                left -= 1;
            }
            _ if room == 0 => {}
            _ => {
                set_pixel(picture, at, b - b'0');
                at += 1;
                room -= 1;
            }
        }
    }
}
