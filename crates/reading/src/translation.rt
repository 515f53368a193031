// "5FH: printable, where "_" and two upper-case hex digits stand for that byte and 20H to 7EH otherwise stand for themselves".
// Small letters are taken too.
ghost use Rattle.std.specs.Prelude.{◌≡◌, true, ◌&&◌, ◌||◌, ◌+◌, ◌<◌, ◌≤◌, length, drop, count_by};
ghost use Rattle.std.proofs.lemmas.List.Edits.{sets};
ghost use Rattle.octets.specs.Choice.{◌isn't◌, ◌!◌, between};
ghost use Rattle.octets.specs.Carried.{is_carried};
ghost use Rattle.octets.specs.Bytes.{ESCAPE, PRINTABLE};
ghost use Rattle.reading.specs.Translation.{translate};
ghost use Rattle.reading.specs.Places.{bytes_of};
ghost use Rattle.reading.specs.InnerParts.{all_stand, is_mark, unmarked, counted, is_whole};

use buffers::copying::copy_at;
use octets::bytes::{ESCAPE, FIRST_PRINTABLE, LAST_PRINTABLE};
use octets::hex::{carried_two_at, is_between, is_carried};
use octets::slices::{byte_at, other_run, put_at};

// Whether a byte may stand before two others: "20H to 7EH", and before two digits where it is "_". All tests are made, so that a compiler
// can make them of many places at once.
fn may_stand(x: u8, y: u8, z: u8) -> bool
    ensures { result ≡ (between 0x20 0x7E x && (x isn't ESCAPE || (is_carried y && is_carried z))) }
{
    is_between(FIRST_PRINTABLE, LAST_PRINTABLE, x)
        & ((x != ESCAPE) | (is_carried(y) & is_carried(z)))
}

// The same of the byte at a place that has two behind it.
// Stays: with windows(3), or with these three looks in the loop, the compiler tests up to fifteen places one by one, and the smallest
// printable frame takes a fifth longer to read.
fn stands_before(s: &[u8], i: usize) -> bool
    requires { i + 2 < length s.now }
    ensures { result ≡ (between 0x20 0x7E (s.now ! i) && (s.now ! i isn't ESCAPE || (is_carried (s.now ! (i + 1)) && is_carried (s.now ! (i + 2))))) }
{
    may_stand(s[i], s[i + 1], s[i + 2])
}

// Whether every byte may stand where it does. The last two places stand by themselves: no other byte asks for one that is missing, and
// bytes that are missing are no digits.
#[tactic(auto, using(crate::proofs::Marks::standing))]
fn all_stand(s: &[u8]) -> bool
    ensures { result ≡ all_stand s.now }
{
    let last = s.len().saturating_sub(2);
    let mut passed = true;
    for i in 0..last {
        passed &= stands_before(s, i);
    }
    for i in last..s.len() {
        passed &= may_stand(s[i], byte_at(s, i + 1), byte_at(s, i + 2));
    }
    passed
}

// How many "_" there are. The sum is narrow, so that a compiler can add many at a time.
fn count_marks(s: &[u8]) -> u16
    requires { length s.now ≤ PRINTABLE }
    ensures { result ≡ count_by is_mark s.now }
{
    s.iter().map(|x| u16::from(*x == ESCAPE)).sum()
}

// How many bytes the whole of it stands for: each "_" and two digits for one; none where it has a fault. No digit is a "_", so that nothing
// has to be passed over to find a fault.
#[tactic(auto, using(crate::proofs::Marks::counts))]
pub fn count_translated(s: &[u8]) -> Option<usize>
    requires { length s.now ≤ PRINTABLE }
    ensures { result ≡ counted (translate s.now) }
{
    if !all_stand(s) {
        return None;
    }
    Some(s.len() - 2 * usize::from(count_marks(s)))
}

// The bytes from a place on up to the next "_", which stand for themselves, copied as a whole to a place of a room. Answers where they end.
fn put_unmarked(s: &[u8], i: usize, room: &mut [u8], n: usize) -> usize
    requires s_in_bounds { n + length (unmarked (drop i s.now)) ≤ length room.old }
    requires i_in_bounds { i ≤ length s.now }
    ensures value { result ≡ i + length (unmarked (drop i s.now)) }
    ensures room_after { room.new ≡ sets room.old n (unmarked (drop i s.now)) }
{
    let end = other_run(s, i, ESCAPE);
    copy_at(room, n, &s[i..end]);
    end
}

// The bytes that it stands for, put at the start of a room.
pub fn translate_into(s: &[u8], room: &mut [u8])
    requires s_value { is_whole (translate s.now) ≡ true }
    requires s_in_bounds { length (bytes_of (translate s.now)) ≤ length room.old }
    ensures { room.new ≡ sets room.old 0 (bytes_of (translate s.now)) }
{
    let mut i = 0;
    let mut n: usize = 0;
    // Stays: a place steps by what stands at it, which no range does.
    while i < s.len() {
        let mark = put_unmarked(s, i, room, n);
        n += mark - i;
        if s.len() <= mark {
            return;
        }
        let Some(byte) = carried_two_at(s, mark + 1) else {
            return;
        };
        put_at(room, n, byte);
        n += 1;
        i = mark + 3;
    }
}
