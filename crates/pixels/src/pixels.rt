// Pixels in bytes: "four bits each, most significant first".
ghost use Rattle.std.specs.Prelude.{◌≡◌, ◌<◌, length, set};
ghost use Rattle.octets.specs.Choice.{all};
ghost use Rattle.pixels.specs.Pixels.{pixels_of, bytes_for, sound_picture};
ghost use Rattle.pixels.specs.InnerHalves.{with_half, are_shades, Pixel};

use octets::slices::{byte_at, put_at};

// how many numbers a half can hold
const HALF: u8 = 16;

// the last pixel character's number
const LAST_SHADE: u8 = 8;

// How many bytes n pixels take.
pub fn bytes_for(n: usize) -> usize
    ensures { result ≡ bytes_for n }
{
    n.div_ceil(2)
}

// The pixel at a place; a pixel that is missing counts as off.
#[tactic(auto, using(crate::proofs::PixelsLaws::laws))]
pub fn pixel_at(s: &[u8], k: usize) -> u8
    ensures { Pixel s.now k result }
{
    let b = byte_at(s, k / 2);
    if k % 2 == 0 { b / HALF } else { b % HALF }
}

// A byte with another number in the half in which pixel k lies.
#[tactic(auto, unfolding(crate::specs::InnerHalves::with_half))]
fn with_half(k: usize, b: u8, v: u8) -> u8
    requires { v < 16 }
    ensures { result ≡ with_half k b v }
{
    if k % 2 == 0 {
        v * HALF + b % HALF
    } else {
        b / HALF * HALF + v
    }
}

// A pixel put at a place: no other changes. Past the end nothing is put.
#[tactic(auto, using(crate::proofs::PixelsLaws::laws))]
pub fn set_pixel(s: &mut [u8], k: usize, v: u8)
    requires { v < 16 }
    ensures { pixels_of s.new ≡ set (pixels_of s.old) k v }
{
    let b = byte_at(s, k / 2);
    put_at(s, k / 2, with_half(k, b, v));
}

// A byte's halves are 0 to 8.
#[tactic(auto, unfolding(crate::specs::InnerHalves::are_shades))]
fn are_shades(b: u8) -> bool
    ensures { result ≡ are_shades b }
{
    (b / HALF <= LAST_SHADE) & (b % HALF <= LAST_SHADE)
}

// Every byte's halves are. No byte ends this fold early, so a compiler may take many of them at once.
fn all_shades(s: &[u8]) -> bool
    ensures { result ≡ all are_shades s.now }
{
    s.iter().fold(true, |passed, b| passed & are_shades(*b))
}

// The bytes of a picture of n pixels are as described.
#[tactic(auto, using(crate::proofs::PixelsLaws::laws))]
pub fn sound_picture(n: usize, s: &[u8]) -> bool
    requires { length s.now ≡ bytes_for n }
    ensures { result ≡ sound_picture n s.now }
{
    all_shades(s) && pixel_at(s, n) == 0
}
