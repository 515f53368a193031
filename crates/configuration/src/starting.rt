// Request 11, "First start of a new sign": the board "first gets, as by "$", files A to Z of 150 bytes each, TEXT, unlocked, always shown
// (start FF, stop 00)".
ghost use Rattle.std.specs.Prelude.{◌≡◌, true, ◌≤◌, length};
ghost use Rattle.board.specs.Board.{board};
ghost use Rattle.board.specs.Soundness.{sound};
ghost use Rattle.configuration.specs.InnerFiling.{start_heads};
ghost use Rattle.configuration.specs.Starting.{start_record, START-MEMORY, started};

use crate::records::lay;
use board::Settings;
use board::files::{RECORD, TEXT};
use board::soundness::UNLOCKED;
use octets::bytes::{F, ZERO};

// "files A to Z"
const FIRST: u8 = 0x41;

const COUNT: usize = 26;

// "memory below 4,186 bytes": the least in which they have room
pub const START_MEMORY: usize = 4186;

// SIZE 0096, 150 bytes
const NINE: u8 = 0x39;

const SIX: u8 = 0x36;

// The record of a label.
fn start_record(label: u8) -> [u8; RECORD]
    ensures { result ≡ start_record label }
{
    [
        label, TEXT, UNLOCKED, ZERO, ZERO, NINE, SIX, F, F, ZERO, ZERO,
    ]
}

// The list: a record for each label.
fn put_list(list: &mut [[u8; RECORD]; COUNT])
    ensures { list.new ≡ start_heads 26 0x41 }
{
    for i in 0..COUNT {
        list[i] = start_record(FIRST + i as u8);
    }
}

// A board with these files in place of its own: the settings after it.
pub fn start(s: Settings, m: &mut [u8]) -> Settings
    requires m_value { sound (board s m.old) ≡ true }
    requires in_bounds { START-MEMORY ≤ length m.old }
    ensures { board result m.new ≡ started (board s m.old) }
{
    let mut list = [[0; RECORD]; COUNT];
    put_list(&mut list);
    let kept = lay(m, &list);
    let places = kept.places;
    s.with_files(COUNT as u8, kept.unused, places)
}
