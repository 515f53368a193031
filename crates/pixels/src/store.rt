// A picture in the store: "each picture starting on a byte".
ghost use Rattle.std.specs.Prelude.{◌≡◌, ◌&&◌, ◌≤◌, length, take, drop};
ghost use Rattle.octets.specs.Choice.{◌≤?◌};
ghost use Rattle.pixels.specs.Pixels.{bytes_for, sound_picture};

use crate::pixels::{bytes_for, sound_picture};

// The picture of n pixels at a place lies inside the store and is as described.
pub fn sound_at(n: usize, store: &[u8], at: usize) -> bool
    requires { at ≤ length store.now }
    ensures { result ≡ (bytes_for n ≤? length (drop at store.now) && sound_picture n (take (bytes_for n) (drop at store.now))) }
{
    match store[at..].get(..bytes_for(n)) {
        Some(picture) => sound_picture(n, picture),
        None => false,
    }
}
