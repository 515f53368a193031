// "A call adds the offset to a reading from -128 to 127 and returns the exact sum."
ghost use Rattle.std.specs.Prelude.{◌≡◌};
ghost use Rattle.temperature.specs.Correcting.{is_reading, add_offset};
ghost use Rattle.temperature.specs.InnerSum.{told};

use crate::Corrected;
use crate::numbers::Refusal;
use crate::offset::is_offset;

// "a reading from -128 to 127"
const LEAST_READING: i16 = -128;

const MOST_READING: i16 = 127;

#[tactic(auto, unfolding(crate::specs::Correcting::is_reading))]
fn is_reading(reading: i16) -> bool
    ensures { result ≡ is_reading reading }
{
    (LEAST_READING..=MOST_READING).contains(&reading)
}

// The sum of offset and reading, which has room in two bytes where both are in their ranges.
#[tactic(auto, using(crate::proofs::CorrectingLaws::sizes), unfolding(crate::specs::Correcting::add_offset))]
fn sum(offset: i8, reading: i16) -> Result<i16, Refusal>
    ensures { told result ≡ add_offset offset reading }
{
    if !is_offset(offset) {
        return Err(Refusal::OffsetOutside);
    }
    if !is_reading(reading) {
        return Err(Refusal::ReadingOutside);
    }
    Ok(reading + i16::from(offset))
}

// The answer for C; "in both the call answers 0".
impl From<Result<i16, Refusal>> for Corrected {
    ghost from_gives = { λ outcome answer. answer ≡ told outcome };

    fn from(outcome: Result<i16, Refusal>) -> Corrected {
        match outcome {
            Ok(sum) => Corrected { number: 0, sum },
            Err(refusal) => Corrected {
                number: refusal as u8,
                sum: 0,
            },
        }
    }
}

// The exact sum: 0, or 1 and then 33.
pub fn add_offset(offset: i8, reading: i16) -> Corrected
    ensures { result ≡ add_offset offset reading }
{
    Corrected::from(sum(offset, reading))
}
