// The reply to J: "with a CR after every row".
ghost use Rattle.std.specs.Prelude.{◌≡◌, ◌+◌, ◌*◌, ◌/◌, ◌%◌, ◌^◌, ◌<◌, ◌≤◌, length, drop};
ghost use Rattle.std.proofs.lemmas.List.Edits.{sets};
ghost use Rattle.octets.specs.Buffer.{splice};
ghost use Rattle.pixels.specs.Pixels.{pixels_of};
ghost use Rattle.rows.specs.Told.{characters, told_rows, told};

use crate::rows::CR;
use buffers::hex::put_four;
use pixels::pixel_at;

// The characters of the next pixels of a picture, from pixel k on: as many as the row takes.
#[tactic(auto, using(crate::proofs::ToldLaws::tell_row))]
fn tell_row(row: &mut [u8], picture: &[u8], k: usize)
    requires { k + length row.old < 2 ^ 64 }
    ensures { row.new ≡ characters (length row.old) (drop k (pixels_of picture.now)) }
{
    for i in 0..row.len() {
        row[i] = b'0' + pixel_at(picture, k + i);
    }
}

// The rows of a picture, put from a place on.
#[tactic(auto, using(crate::proofs::ToldLaws::tell_rows))]
fn tell_rows(out: &mut [u8], at: usize, rows: usize, columns: usize, picture: &[u8])
    requires { at + rows * (columns + 1) ≤ length out.old }
    ensures { out.new ≡ sets out.old at (told_rows rows columns (pixels_of picture.now)) }
{
    let mut i = at;
    let mut k = 0;
    for _ in 0..rows {
        tell_row(&mut out[i..i + columns], picture, k);
        i += columns;
        out[i] = CR;
        i += 1;
        k += columns;
    }
}

// Height, width and rows, put from a place on: "SIZE holds rows then columns".
#[tactic(auto, using(crate::proofs::ToldLaws::tells))]
pub fn tell(out: &mut [u8], at: usize, size: u16, picture: &[u8])
    requires { at + (4 + size / 256 * (size % 256 + 1)) ≤ length out.old }
    ensures { out.new ≡ splice out.old at (told size (pixels_of picture.now)) }
{
    put_four(out, at, size);
    let [rows, columns] = size.to_be_bytes();
    tell_rows(
        out,
        at + 4,
        usize::from(rows),
        usize::from(columns),
        picture,
    );
}
