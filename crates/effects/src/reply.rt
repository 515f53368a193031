// The reply to a read.
ghost use Rattle.std.specs.Prelude.{◌≡◌, ◌+◌, ◌≤◌, length, take, drop};
ghost use Rattle.octets.specs.Buffer.{splice, overlay};
ghost use Rattle.effects.specs.Reply.{reply_room};
ghost use Rattle.effects.specs.InnerLeaving.{reply_lead, reply_tail, Replied};

use buffers::copying::{copy_at, zero_at};
use buffers::hex::put_four;
use frame::checksum;
use octets::bytes::{EOT, ETX, SOH, STX, ZERO};
use octets::slices::put_at;

// "reply buffer shorter than memory plus 64"
const REPLY_ROOM: usize = 64;

// "20 NUL"
const NULS: usize = 20;

// where the label and the data stand in a reply
const LABEL: usize = 26;

pub const DATA: usize = 27;

// the bytes behind the data
const TAIL: usize = 6;

// What a run asks of its reply buffer.
pub fn reply_room(m: &[u8]) -> usize
    requires { length m.now ≤ 32768 }
    ensures { result ≡ reply_room m.now }
{
    m.len() + REPLY_ROOM
}

// What stands before the data: "20 NUL, SOH, "000", STX, the write code (A, G or E), label".
fn put_lead(out: &mut [u8], code: u8, label: u8)
    requires { 27 ≤ length out.old }
    ensures { out.new ≡ overlay out.old (reply_lead code label) }
{
    zero_at(out, 0, NULS);
    let head = [SOH, ZERO, ZERO, ZERO, STX, code, label];
    copy_at(out, NULS, &head);
}

// What stands behind them, from a place on: "ETX, checksum, EOT".
fn put_tail(out: &mut [u8], at: usize, sum: u16)
    requires { at + 6 ≤ length out.old }
    ensures { out.new ≡ splice out.old at (reply_tail sum) }
{
    put_at(out, at, ETX);
    put_four(out, at + 1, sum);
    put_at(out, at + 5, EOT);
}

// The data, n bytes, stand in the buffer already; the rest of the reply is put around them.
pub fn reply(out: &mut [u8], code: u8, label: u8, n: usize) -> usize
    requires { n + 33 ≤ length out.old }
    ensures { Replied out.old code label (take n (drop 27 out.old)) out.new result }
{
    put_lead(out, code, label);
    let end = DATA + n;
    let sum = checksum(code, &out[LABEL..end]);
    put_tail(out, end, sum);
    end + TAIL
}
