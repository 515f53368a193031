// The port driver's call: what it saw on the line comes into the serial error status register.
ghost use Rattle.std.specs.Prelude.{◌≡◌};
ghost use Rattle.sign.specs.Errors.{port_errors};

use crate::{Driven, Refusal};
use board::Settings;
use register::{driven_by, is_register};

// Parity, framing and time-out that the byte has are set: 0, or 1 and the settings as they were. Nothing but the register is looked at.
// Stays: one answer for both cases, as C has it: with an answer for each the call took 872 bytes of stack, where the header promises 768.
pub fn port_errors(s: Settings, bits: u8) -> Driven
    ensures { result ≡ port_errors s bits }
{
    let known = is_register(s.errors);
    let number = if known { 0 } else { Refusal::NotSound as u8 };
    let errors = if known {
        driven_by(s.errors, bits)
    } else {
        s.errors
    };
    Driven {
        number,
        settings: s.with_errors(errors),
    }
}
