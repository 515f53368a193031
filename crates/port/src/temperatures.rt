// Readings corrected by a sign's temperature offset.
ghost use Rattle.std.specs.Prelude.{◌≡◌};
ghost use Rattle.temperature.specs.Correcting.{add_offset};

use temperature::Corrected;
use temperature::correcting::add_offset;

// The sum of offset and reading: 0, or 1 and then 33.
#[unsafe(no_mangle)]
pub extern "C" fn pagozkin_add_offset(offset: i8, reading: i16) -> Corrected
    ensures { result ≡ add_offset offset reading }
{
    add_offset(offset, reading)
}
