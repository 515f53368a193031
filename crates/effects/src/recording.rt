// What a block leaves in the serial error status register: a refused block changes nothing else.
ghost use Rattle.std.specs.Prelude.{◌≡◌};
ghost use Rattle.effects.specs.Recording.{fault_noted};

use crate::Refusal;
use register::{CHECKSUM, ILLEGAL};

const WRONG_CHECKSUM: u8 = Refusal::WrongChecksum as u8;

const UNKNOWN: u8 = Refusal::Unknown as u8;

const NO_FILE: u8 = Refusal::NoFile as u8;

// 20 "sets the checksum bit; 21 or 23 sets the illegal command or label bit", and no other number sets any: "Errors are OR'd into the
// Serial Error Status Register."
// Stays: the number of a block as it is counted for C; docs/PROMISES.md names this call's definition, which speaks of numbers.
pub fn fault_noted(register: u8, number: u8) -> u8
    ensures { result ≡ fault_noted register number }
{
    match number {
        WRONG_CHECKSUM => register | CHECKSUM,
        UNKNOWN | NO_FILE => register | ILLEGAL,
        _ => register,
    }
}
