// Pixels in a store, two for each byte, the first in the upper half. The definitions are in specs/.
#![tactic(auto)]

mod pixels;
mod store;

pub use crate::pixels::{bytes_for, pixel_at, set_pixel};
pub use crate::store::sound_at;
