// Making a fresh board: "10, 11".
ghost use Rattle.std.specs.Prelude.{◌≡◌};
ghost use Rattle.sign.specs.Fresh.{making, all_zero, fresh_settings, fresh};
ghost use Rattle.sign.specs.InnerRunning.{number, made_as};

use crate::{Made, Refusal};
use board::Settings;
use board::index::NOWHERE;
use board::setting::{FORMAT_S, OFF};
use board::soundness::is_memory;
use buffers::copying::zero_at;
use frame::is_own_type;
use register::CLEARED;

// "settings from 10 or 11 all zero"
const ALL_ZERO: Settings = Settings {
    hour: 0,
    minute: 0,
    month: 0,
    day: 0,
    year: 0,
    format: 0,
    speaker: 0,
    address: 0,
    own: 0,
    files: 0,
    unused: 0,
    places: [0; 95],
    offset: 0,
    errors: 0,
};

fn unmade(refusal: Refusal) -> Made
    ensures { result ≡ made_as (number refusal) all_zero }
{
    Made {
        number: refusal.number(),
        settings: ALL_ZERO,
    }
}

// "00:00, 01 01 00, format S, speaker off, address 00, no files"; request 3: all of memory is unused; request 7: no label has a
// record; request 9: "Fresh boards hold 0."; request 10: "A fresh register is a cleared one."
fn made(own: u8, unused: u16) -> Made
    ensures { result ≡ made_as 0 (fresh_settings own unused) }
{
    Made {
        number: 0,
        settings: Settings {
            month: 1,
            day: 1,
            format: FORMAT_S,
            speaker: OFF,
            own,
            unused,
            places: [NOWHERE; 95],
            errors: CLEARED,
            ..ALL_ZERO
        },
    }
}

// A fresh board of a type, its memory all zero.
pub fn fresh(own: u8, m: &mut [u8]) -> Made
    ensures { making result m.new ≡ fresh own m.old }
{
    if !is_own_type(own) {
        return unmade(Refusal::WrongType);
    }
    let n = m.len();
    if !is_memory(n) {
        return unmade(Refusal::WrongMemory);
    }
    zero_at(m, 0, n);
    made(own, n as u16)
}
