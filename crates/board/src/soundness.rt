// "A board is sound when all this holds".
ghost use Rattle.std.specs.Prelude.{◌≡◌, ◌&&◌, ◌≤◌, length, drop};
ghost use Rattle.octets.specs.Choice.{◌is◌};
ghost use Rattle.board.specs.Kinds.{kind_of, is_size_of, is_start_code, is_stop_code};
ghost use Rattle.board.specs.Index.{entry};
ghost use Rattle.board.specs.Board.{board};
ghost use Rattle.board.specs.Soundness.{is_label, is_protection, is_codes, is_record, is_content, is_memory, sound};
ghost use Rattle.board.specs.InnerNoted.{size_or_none, record_or_none, length_at, entries, holds_noted, sound_noted};

use crate::Settings;
use crate::files::{CODES, FILES, RECORD, SIZE, STRING, TEXT};
use crate::index::{LABELS, entries, entry};
use crate::setting::in_range;
use octets::bytes::{ANY, FIRST_PRINTABLE, LAST_PRINTABLE, ZERO};
use octets::hex::{are_zeros, four_at, two_at};
use octets::slices::{all_nul, plain_run};

// "P: "U" or "L""
// Stays: these are bytes of memory, as they stand there.
pub const UNLOCKED: u8 = 0x55;

const LOCKED: u8 = 0x4C;

// "a STRING's is 1 to 125"
const LONGEST_STRING: u16 = 125;

// "a start code 00 to 8F, FD, FE or FF", "a stop code 00 to 8F"
const LAST_CODE: u8 = 0x8F;

const FIRST_SPECIAL_CODE: u8 = 0xFD;

// "Memory is 64 to 32,768 bytes."
const LEAST_MEMORY: usize = 64;

const MOST_MEMORY: usize = 32768;

// "F: 20H to 7EH except "0" and "?"."
pub fn is_label(f: u8) -> bool
    ensures { result ≡ is_label f }
{
    match f {
        ZERO | ANY => false,
        FIRST_PRINTABLE..=LAST_PRINTABLE => true,
        _ => false,
    }
}

// "P: "U" or "L""
fn is_protection(p: u8) -> bool
    ensures { result ≡ is_protection p }
{
    p == UNLOCKED || p == LOCKED
}

// F and P of a record; what T may be is said where SIZE and QQQQ are looked at.
fn is_named(f: u8, p: u8) -> bool
    ensures { result ≡ (is_label f && is_protection p) }
{
    is_label(f) && is_protection(p)
}

// "not 0000 in memory; a STRING's is 1 to 125": a size by the type of its file.
fn is_size_of(kind: u8, size: u16, nought: bool) -> bool
    ensures { result ≡ is_size_of (kind_of kind) nought size }
{
    match kind {
        TEXT => nought || 1 <= size,
        STRING => 1 <= size && size <= LONGEST_STRING,
        _ => false,
    }
}

// "SIZE: four upper-case hex digits"; whether a TEXT's may be 0000 is told.
fn size_or_none(head: &[u8; RECORD], nought: bool) -> Option<u16>
    ensures { result ≡ size_or_none nought head.now }
{
    let size = four_at(head, SIZE)?;
    if is_size_of(head[1], size, nought) {
        Some(size)
    } else {
        None
    }
}

// "a start code 00 to 8F, FD, FE or FF"
// Stays: this and the next are one test each; one function that takes the test would be longer.
fn is_start_code(s: &[u8], at: usize) -> bool
    requires { at ≤ length s.now }
    ensures { result ≡ is_start_code (drop at s.now) }
{
    two_at(s, at).is_some_and(|code| code <= LAST_CODE || FIRST_SPECIAL_CODE <= code)
}

// "a stop code 00 to 8F"
fn is_stop_code(s: &[u8], at: usize) -> bool
    requires { at ≤ length s.now }
    ensures { result ≡ is_stop_code (drop at s.now) }
{
    two_at(s, at).is_some_and(|code| code <= LAST_CODE)
}

// "QQQQ: for TEXT a start code .. and a stop code 00 to 8F; for STRING "0000"."
fn is_codes(head: &[u8; RECORD]) -> bool
    ensures { result ≡ is_codes head.now }
{
    match head[1] {
        TEXT => is_start_code(head, CODES) && is_stop_code(head, CODES + 2),
        STRING => are_zeros(head[CODES], head[CODES + 1])
            && are_zeros(head[CODES + 2], head[CODES + 3]),
        _ => false,
    }
}

// "A record is F T P SIZE QQQQ (Table 14).": its SIZE, or that it is none.
fn record_or_none(head: &[u8; RECORD], nought: bool) -> Option<u16>
    ensures { result ≡ record_or_none nought head.now }
{
    if is_named(head[0], head[2]) && is_codes(head) {
        size_or_none(head, nought)
    } else {
        None
    }
}

// Whether it is one.
pub fn is_record(head: &[u8; RECORD], nought: bool) -> bool
    ensures { result ≡ is_record nought head.now }
{
    record_or_none(head, nought).is_some()
}

// "Content is zero or more bytes 05H to FFH, then 00H up to SIZE."
fn is_content(c: &[u8]) -> bool
    ensures { result ≡ is_content c.now }
{
    let end = plain_run(c, 0);
    all_nul(&c[end..])
}

// The bytes that the file at the start takes, its record and its content inside memory; none where no file stands there.
fn length_at(rest: &[u8]) -> Option<usize>
    ensures { result ≡ length_at rest.now }
{
    let (head, behind) = rest.split_first_chunk::<RECORD>()?;
    let size = usize::from(record_or_none(head, false)?);
    let (content, _) = behind.split_at_checked(size)?;
    if is_content(content) {
        Some(RECORD + size)
    } else {
        None
    }
}

// Whether the entry of a label is a place.
fn is_entered(places: &[u16; LABELS], label: u8, at: usize) -> bool
    ensures { result ≡ (entry places.now label is at) }
{
    usize::from(entry(places, label)) == at
}

// n files in order without gaps, each where the index has its label; "Memory after the last file is 00H."; and so many bytes are
// behind them as are told: one walk.
fn holds_files(m: &[u8], n: u8, rest: u16, places: &[u16; LABELS]) -> bool
    ensures { result ≡ holds_noted n rest places.now m.now }
{
    let mut at: usize = 0;
    for _i in 0..n {
        let Some(long) = length_at(&m[at..]) else {
            return false;
        };
        if !is_entered(places, m[at], at) {
            return false;
        }
        at += long;
    }
    let behind = m.len() - at;
    behind == usize::from(rest) && all_nul(&m[at..])
}

// "Memory is 64 to 32,768 bytes."
pub fn is_memory(length: usize) -> bool
    ensures { result ≡ is_memory length }
{
    LEAST_MEMORY <= length && length <= MOST_MEMORY
}

// As many entries as files.
fn as_many(places: &[u16; LABELS], n: u8) -> bool
    ensures { result ≡ (entries places.now is n) }
{
    entries(places) == u16::from(n)
}

// Memory with n files, so many bytes unused, and the index: where it has every file's place, as many entries as files say that it has
// no other.
fn sound_memory(m: &[u8], n: u8, rest: u16, places: &[u16; LABELS]) -> bool
    ensures { result ≡ sound_noted n rest places.now m.now }
{
    is_memory(m.len()) && n <= FILES && holds_files(m, n, rest, places) && as_many(places, n)
}

// Soundness of a board, whatever its settings and its memory are.
pub fn sound(s: Settings, m: &[u8]) -> bool
    ensures { result ≡ sound (board s m.now) }
{
    in_range(s) && sound_memory(m, s.files, s.unused, &s.places)
}
