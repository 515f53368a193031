// "Settings travel as one record, handed in and handed back": a method for each special function returns the next settings.
ghost use Rattle.std.specs.Prelude.{◌≡◌, ◌&&◌, ◌||◌};
ghost use Rattle.octets.specs.Choice.{◌is◌, ◌≤?◌};
ghost use Rattle.board.specs.Settings.{FORMAT-S, FORMAT-M, OFF, ON, in_date, in_range, with_time, with_date, with_format, with_speaker, with_address, with_offset, with_errors, cleared, with_files};

use crate::Settings;
use dates::calendar::{FIRST_YEAR, is_date};
use frame::is_own_type;
use register::{CLEARED, is_register};
use temperature::offset::is_offset;

// time formats "S" and "M"
// Stays: C's settings have these bytes, and those of the speaker.
pub const FORMAT_S: u8 = 0x53;

pub const FORMAT_M: u8 = 0x4D;

// the speaker
pub const OFF: u8 = 0;

pub const ON: u8 = 1;

// the last of each that is in range
const LAST_HOUR: u8 = 23;

const LAST_MINUTE: u8 = 59;

// Stays: a settings struct with methods that take self, one for each special function, is document 01's own form.
impl Settings {
    pub fn with_time(self, hour: u8, minute: u8) -> Settings
        ensures { result ≡ with_time self hour minute }
    {
        Settings {
            hour,
            minute,
            ..self
        }
    }

    pub fn with_date(self, month: u8, day: u8, year: u8) -> Settings
        ensures { result ≡ with_date self month day year }
    {
        Settings {
            month,
            day,
            year,
            ..self
        }
    }

    pub fn with_format(self, format: u8) -> Settings
        ensures { result ≡ with_format self format }
    {
        Settings { format, ..self }
    }

    pub fn with_speaker(self, speaker: u8) -> Settings
        ensures { result ≡ with_speaker self speaker }
    {
        Settings { speaker, ..self }
    }

    pub fn with_address(self, address: u8) -> Settings
        ensures { result ≡ with_address self address }
    {
        Settings { address, ..self }
    }

    pub fn with_offset(self, offset: i8) -> Settings
        ensures { result ≡ with_offset self offset }
    {
        Settings { offset, ..self }
    }

    pub fn with_errors(self, errors: u8) -> Settings
        ensures { result ≡ with_errors self errors }
    {
        Settings { errors, ..self }
    }

    // The serial error status register as it is on a fresh board.
    pub fn cleared(self) -> Settings
        ensures { result ≡ cleared self }
    {
        Settings {
            errors: CLEARED,
            ..self
        }
    }

    // All that "$" changes.
    pub fn with_files(self, files: u8, unused: u16, places: [u16; 95]) -> Settings
        ensures { result ≡ with_files self files unused places }
    {
        Settings {
            files,
            unused,
            places,
            ..self
        }
    }
}

// "00:00 to 23:59"
pub fn in_time(hour: u8, minute: u8) -> bool
    ensures { result ≡ (hour ≤? 23 && minute ≤? 59) }
{
    hour <= LAST_HOUR && minute <= LAST_MINUTE
}

// Request 1: "true month lengths, years being 2000 to 2099".
pub fn in_date(month: u8, day: u8, year: u8) -> bool
    ensures { result ≡ in_date month day year }
{
    is_date(FIRST_YEAR + u16::from(year), month, day)
}

// ""S" or "M""
pub fn is_format(format: u8) -> bool
    ensures { result ≡ (format is FORMAT-S || format is FORMAT-M) }
{
    format == FORMAT_S || format == FORMAT_M
}

// on or off
fn is_speaker(speaker: u8) -> bool
    ensures { result ≡ (speaker is OFF || speaker is ON) }
{
    speaker == OFF || speaker == ON
}

// "time, date, speaker, format, type are in range. Any address 00 to FF is in range."; and what requests 9 and 10 ask.
pub fn in_range(s: Settings) -> bool
    ensures { result ≡ in_range s }
{
    in_time(s.hour, s.minute)
        && in_date(s.month, s.day, s.year)
        && is_format(s.format)
        && is_speaker(s.speaker)
        && is_own_type(s.own)
        && is_register(s.errors)
        && is_offset(s.offset)
}
