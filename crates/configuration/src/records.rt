// "a list of 0 to 64 records": whether it is refused, and the files that it makes. The list is in capitals.
ghost use Rattle.std.specs.Prelude.{◌≡◌, ◌/◌, ◌+◌, ◌^◌, ◌<◌, ◌≤◌, length, IfOk};
ghost use Rattle.std.specs.List.{sum_by};
ghost use Rattle.std.specs.Simd.{first_chunks};
ghost use Rattle.octets.specs.Buffer.{splice};
ghost use Rattle.configuration.specs.Records.{needed_by, refusal, size_in, with_size};
ghost use Rattle.configuration.specs.InnerFiling.{are_records, empty_file, number_told, Spot, Listed, Laid};

use crate::Kept;
use crate::labels::labels_distinct;
use crate::numbers::Refusal;
use board::files::{FILES, RECORD, SIZE, size_at};
use board::index::{LABELS, NOWHERE, slot};
use board::soundness::is_record;
use buffers::copying::{copy_at, zero_at};
use buffers::hex::put_four;

// Whether all are records; "SIZE 0000 is allowed only in a last TEXT record".
fn are_records(records: &[[u8; RECORD]]) -> bool
    ensures { result ≡ are_records records.now }
{
    for (i, head) in records.iter().enumerate() {
        if !is_record(head, i + 1 == records.len()) {
            return false;
        }
    }
    true
}

// What a record takes: "Sizes plus 11 for each"; SIZE 0000 "at least 1".
fn needed_by(head: &[u8; RECORD]) -> usize
    ensures { result ≡ needed_by head.now }
{
    let size = size_at(head, 0);
    if size == 0 { RECORD + 1 } else { RECORD + size }
}

// What records take.
fn needed(records: &[[u8; RECORD]]) -> usize
    requires { sum_by needed_by records.now < 2 ^ 64 }
    ensures { result ≡ sum_by needed_by records.now }
{
    records.iter().map(needed_by).sum()
}

// The size that a record gets: 0000 "takes what remains after its own 11 bytes".
fn size_in(room: usize, head: &[u8; RECORD]) -> usize
    requires { 11 ≤ room }
    ensures { result ≡ size_in room head.now }
{
    let size = size_at(head, 0);
    if size == 0 { room - RECORD } else { size }
}

// "the record is stored with that size".
fn store(m: &mut [u8], place: usize, size: u16, head: &[u8; RECORD])
    requires { place + 11 ≤ length m.old }
    ensures { m.new ≡ splice m.old place (with_size size head.now) }
{
    copy_at(m, place, head);
    put_four(m, place + SIZE, size);
}

// A file with its content empty.
fn lay_file(m: &mut [u8], place: usize, size: usize, head: &[u8; RECORD])
    requires { Spot m.old place size }
    ensures { m.new ≡ splice m.old place (empty_file size head.now) }
{
    store(m, place, size as u16, head);
    zero_at(m, place + RECORD, size);
}

// The room behind the last file, as the settings keep it: it is no more than memory.
fn amount(rest: usize) -> u16
    requires { rest ≤ 32768 }
    ensures { result ≡ rest }
{
    rest as u16
}

// The files of records, with empty contents; "Unused memory stays unused.", and how much it is, is answered, with the place of each file.
pub fn lay(m: &mut [u8], records: &[[u8; RECORD]]) -> Kept
    requires { Listed m.old records.now }
    ensures { Laid m.old records.now m.new result }
{
    let mut places = [NOWHERE; LABELS];
    let mut place: usize = 0;
    for head in records {
        places[slot(head[0])] = place as u16;
        let size = size_in(m.len() - place, head);
        lay_file(m, place, size, head);
        place = place + RECORD + size;
    }
    let rest = m.len() - place;
    zero_at(m, place, rest);
    Kept {
        unused: amount(rest),
        places,
    }
}

// The records of a list that is not refused in so much room.
pub fn accept(d: &[u8], room: usize) -> Result<&[[u8; RECORD]], Refusal>
    ensures number { number_told result ≡ refusal d.now room }
    ensures records { IfOk result (λ r. r.now ≡ first_chunks 11 (length d.now / 11) d.now) }
{
    let (records, rest) = d.as_chunks::<RECORD>();
    if !rest.is_empty() || usize::from(FILES) < records.len() || !are_records(records) {
        return Err(Refusal::BadRecord);
    }
    if !labels_distinct(records) {
        return Err(Refusal::LabelTwice);
    }
    if room < needed(records) {
        return Err(Refusal::NoRoom);
    }
    Ok(records)
}
