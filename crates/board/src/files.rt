// Memory "holds 0 to 64 files in order without gaps: an 11-byte record in ASCII, then SIZE bytes of content".
ghost use Rattle.std.specs.Prelude.{◌≡◌, ◌+◌, ◌≤◌, length, drop};
ghost use Rattle.board.specs.Files.{size_of, taken};

use octets::hex::number_at;

// "T: "A" TEXT, "B" STRING."
// Stays: these are bytes of memory, as they stand there.
pub const TEXT: u8 = 0x41;

pub const STRING: u8 = 0x42;

// "0 to 64 files"
pub const FILES: u8 = 64;

// "an 11-byte record"
pub const RECORD: usize = 11;

// where SIZE and QQQQ stand in a record
pub const SIZE: usize = 3;

pub const CODES: usize = 7;

// The SIZE of the record at a place.
// Stays: a place and no record, here and below, since the answer is promised where memory ends inside the record, too.
pub fn size_at(m: &[u8], at: usize) -> usize
    requires { at ≤ length m.now }
    ensures { result ≡ size_of (drop at m.now) }
{
    number_at(m, at + SIZE)
}

// The bytes that the file at a place takes behind its record: "then SIZE bytes of content".
pub fn taken_at(m: &[u8], at: usize) -> usize
    requires { at ≤ length m.now }
    ensures { result ≡ taken (drop at m.now) }
{
    size_at(m, at)
}

// The bytes that it takes with its record: "Sizes plus 11 for each".
pub fn file_length(m: &[u8], at: usize) -> usize
    requires { at ≤ length m.now }
    ensures { result ≡ 11 + taken (drop at m.now) }
{
    RECORD + taken_at(m, at)
}
