// Request 7: "Keep, for each label 20H to 7EH, where its record begins or that there is none, and answer from that."
ghost use Rattle.std.specs.Prelude.{◌≡◌, ◌+◌, ◌-◌, ◌≤◌, length};
ghost use Rattle.octets.specs.Choice.{◌is◌, ◌!◌};
ghost use Rattle.board.specs.Index.{entry, of_type, look_up};
ghost use Rattle.board.specs.InnerNoted.{entries, Within};

use crate::Content;
use crate::files::{RECORD, taken_at};

// "for each label 20H to 7EH"
const FIRST_LABEL: u8 = 0x20;

const LAST_LABEL: u8 = 0x7E;

pub const LABELS: usize = 95;

// "that there is none"
// Stays: C's settings have this number where a label has no place.
pub const NOWHERE: u16 = 0xFFFF;

// Where the entry of a label stands among the entries.
pub fn slot(label: u8) -> usize
    requires { 0x20 ≤ label }
    ensures { result ≡ label - 0x20 }
{
    usize::from(label - FIRST_LABEL)
}

// The entry of a label; a byte that is no label has none.
pub fn entry(places: &[u16; LABELS], label: u8) -> u16
    ensures { result ≡ entry places.now label }
{
    match label {
        FIRST_LABEL..=LAST_LABEL => places[slot(label)],
        _ => NOWHERE,
    }
}

// How many labels have an entry. The sum is as narrow as the entries, so that a compiler can add eight at a time.
pub fn entries(places: &[u16; LABELS]) -> u16
    ensures { result ≡ entries places.now }
{
    let mut sum: u16 = 0;
    for place in places {
        sum += u16::from(*place != NOWHERE);
    }
    sum
}

// Whether the file at a place is of a type.
// Stays: a place and no record, here and below: of_type answers a place behind it, and its record would be cut out of memory for one byte.
fn is_type(m: &[u8], at: usize, kind: u8) -> bool
    requires { at + 11 ≤ length m.now }
    ensures { result ≡ (m.now ! (at + 1) is kind) }
{
    m[at + 1] == kind
}

// The file at a place, where it is of a type.
fn of_type(m: &[u8], at: usize, kind: u8) -> Option<Content>
    requires { at + 11 ≤ length m.now }
    ensures { result ≡ of_type m.now at kind }
{
    if is_type(m, at, kind) {
        Some(Content {
            start: at + RECORD,
            size: taken_at(m, at),
        })
    } else {
        None
    }
}

// The file of a label and type: by the entry of the label, and then the type at that place.
pub fn look_up(places: &[u16; LABELS], m: &[u8], label: u8, kind: u8) -> Option<Content>
    requires { Within places.now m.now label }
    ensures { result ≡ look_up places.now m.now label kind }
{
    match entry(places, label) {
        NOWHERE => None,
        place => of_type(m, usize::from(place), kind),
    }
}
