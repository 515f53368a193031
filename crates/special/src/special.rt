// The special functions: E sets, F tells.
ghost use Rattle.std.specs.Prelude.{◌≡◌, true, ◌+◌, ◌≤◌, length, [], ◌∷◌, ◌++◌, if◌then◌else◌};
ghost use Rattle.octets.specs.Choice.{◌is◌};
ghost use Rattle.octets.specs.Hex.{in_hex4};
ghost use Rattle.octets.specs.Bytes.{COMMA, ZERO, F};
ghost use Rattle.board.specs.Settings.{ON, in_range};
ghost use Rattle.board.specs.Files.{files_of, heads};
ghost use Rattle.board.specs.Soundness.{holds_files, sound};
ghost use Rattle.board.specs.Board.{board};
ghost use Rattle.board.specs.declared.Settings.{Settings};
ghost use Rattle.effects.specs.Reply.{reply_room};
ghost use Rattle.effects.specs.Effects.{change};
ghost use Rattle.special.specs.Special.{set_time, set_speaker, set_format, set_date, set_address, set_offset, clear_errors, set_by, write_special, tell_time, tell_date, tell_speaker, is_told, tell, after_told, read_special};
ghost use Rattle.special.specs.InnerSetting.{put, put_read};
ghost use Rattle.effects.specs.InnerLeaving.{done_by, Told, left_as, leaving, Ready};

use board::Settings;
use board::files::{RECORD, file_length};
use board::setting::{OFF, ON, in_date, in_time, is_format};
use buffers::copying::copy_at;
use buffers::decimal::{all_decimal, decimal_at, put_decimal};
use buffers::hex::put_four;
use configuration::configure;
use effects::reply::{DATA, reply};
use effects::{Changed, Refusal};
use octets::bytes::{COMMA, E, F, ZERO};
use octets::hex::carried_two_at;
use octets::slices::{put_at, same};
use temperature::offset::{is_signed_digit, signed_digit};

// the function labels
// Stays: bytes of the wire, matched where they are read; an enum of them would need this list, and a conversion besides.
const TIME: u8 = 0x20;

const SPEAKER: u8 = 0x21;

const POOL: u8 = 0x23;

const CONFIGURATION: u8 = 0x24;

const FORMAT: u8 = 0x27;

const ERRORS: u8 = 0x2A;

const CLEAR: u8 = 0x34;

const ADDRESS: u8 = 0x37;

const DATE: u8 = 0x3B;

const OFFSET: u8 = 0x54;

// What E sets, with its value.
#[derive(Clone, Copy)]
enum Setting {
    Time { hour: u8, minute: u8 },
    Date { month: u8, day: u8, year: u8 },
    Speaker(u8),
    Format(u8),
    Address(u8),
    Offset(i8),
    NoErrors,
}

// "four digits HhMm, 00:00 to 23:59"
fn time_in(d: &[u8]) -> Result<Setting, Refusal>
    ensures { (s : Settings) → put_read s result ≡ set_time s d.now }
{
    if d.len() != 4 || !all_decimal(d) {
        return Err(Refusal::Malformed);
    }
    let hour = decimal_at(d, 0);
    let minute = decimal_at(d, 2);
    if !in_time(hour, minute) {
        return Err(Refusal::Malformed);
    }
    Ok(Setting::Time { hour, minute })
}

// "six digits MmDdYy"; request 1, of a date that does not exist: "A date that breaks this is malformed."
fn date_in(d: &[u8]) -> Result<Setting, Refusal>
    ensures { (s : Settings) → put_read s result ≡ set_date s d.now }
{
    if d.len() != 6 || !all_decimal(d) {
        return Err(Refusal::Malformed);
    }
    let month = decimal_at(d, 0);
    let day = decimal_at(d, 2);
    let year = decimal_at(d, 4);
    if !in_date(month, day, year) {
        return Err(Refusal::Malformed);
    }
    Ok(Setting::Date { month, day, year })
}

// ""00" speaker on, "FF" off"
fn speaker_in(d: &[u8]) -> Result<Setting, Refusal>
    ensures { (s : Settings) → put_read s result ≡ set_speaker s d.now }
{
    if same(d, &[ZERO, ZERO]) {
        return Ok(Setting::Speaker(ON));
    }
    if same(d, &[F, F]) {
        return Ok(Setting::Speaker(OFF));
    }
    Err(Refusal::Malformed)
}

// ""S" or "M""
fn format_in(d: &[u8]) -> Result<Setting, Refusal>
    ensures { (s : Settings) → put_read s result ≡ set_format s d.now }
{
    match d {
        [format] if is_format(*format) => Ok(Setting::Format(*format)),
        _ => Err(Refusal::Malformed),
    }
}

// "two hex digits, the serial address from the next frame on"
fn address_in(d: &[u8]) -> Result<Setting, Refusal>
    ensures { (s : Settings) → put_read s result ≡ set_address s d.now }
{
    if d.len() != 2 {
        return Err(Refusal::Malformed);
    }
    match carried_two_at(d, 0) {
        Some(address) => Ok(Setting::Address(address)),
        None => Err(Refusal::Malformed),
    }
}

// Set Temperature Offset: "a sign and one digit 0 to 9".
fn offset_in(d: &[u8]) -> Result<Setting, Refusal>
    ensures { (s : Settings) → put_read s result ≡ set_offset s d.now }
{
    if !is_signed_digit(d) {
        return Err(Refusal::Malformed);
    }
    Ok(Setting::Offset(signed_digit(d[0], d[1])))
}

// Clear Serial Error Status Register: without data.
fn clearing_in(d: &[u8]) -> Result<Setting, Refusal>
    ensures { (s : Settings) → put_read s result ≡ clear_errors s d.now }
{
    match d {
        [] => Ok(Setting::NoErrors),
        _ => Err(Refusal::Malformed),
    }
}

// What E sets under a label, but for "$".
fn setting_in(label: u8, d: &[u8]) -> Result<Setting, Refusal>
    ensures { (s : Settings) → put_read s result ≡ set_by s label d.now }
{
    match label {
        TIME => time_in(d),
        SPEAKER => speaker_in(d),
        FORMAT => format_in(d),
        DATE => date_in(d),
        ADDRESS => address_in(d),
        OFFSET => offset_in(d),
        CLEAR => clearing_in(d),
        _ => Err(Refusal::Unknown),
    }
}

// The settings with it.
fn put(s: Settings, setting: Setting) -> Settings
    ensures { result ≡ put s setting }
{
    match setting {
        Setting::Time { hour, minute } => s.with_time(hour, minute),
        Setting::Date { month, day, year } => s.with_date(month, day, year),
        Setting::Speaker(speaker) => s.with_speaker(speaker),
        Setting::Format(format) => s.with_format(format),
        Setting::Address(address) => s.with_address(address),
        Setting::Offset(offset) => s.with_offset(offset),
        Setting::NoErrors => s.cleared(),
    }
}

// E, but for "$": the settings alone change.
fn set_by(s: Settings, label: u8, d: &[u8]) -> Changed
    ensures { result ≡ set_by s label d.now }
{
    match setting_in(label, d) {
        Ok(setting) => Changed {
            number: 0,
            settings: put(s, setting),
        },
        Err(refusal) => Changed {
            number: refusal.number(),
            settings: s,
        },
    }
}

// E: "a known command without its label is 22".
pub fn write_special(s: Settings, m: &mut [u8], text: &[u8]) -> Changed
    requires { sound (board s m.old) ≡ true }
    ensures { change (board s m.new) result ≡ write_special (board s m.old) text.now }
{
    if text.len() == 0 {
        return Changed {
            number: Refusal::Malformed as u8,
            settings: s,
        };
    }
    let label = text[0];
    if label == CONFIGURATION {
        return configure(s, m, &text[1..]);
    }
    set_by(s, label, &text[1..])
}

// The time, as it is set.
// Stays: this and the date are two and three lines; one function over a slice of numbers would be a loop, and no shorter. So three ask
// for room in the buffer: as an array it would first have to be cut out of C's slice.
fn tell_time(s: &Settings, out: &mut [u8]) -> usize
    requires { (in_range s.now ≡ true) × (128 ≤ length out.old) }
    ensures { Told out.old (tell_time s.now) out.new result }
{
    put_decimal(out, DATA, s.hour);
    put_decimal(out, DATA + 2, s.minute);
    4
}

// The date, as it is set.
fn tell_date(s: &Settings, out: &mut [u8]) -> usize
    requires { (in_range s.now ≡ true) × (128 ≤ length out.old) }
    ensures { Told out.old (tell_date s.now) out.new result }
{
    put_decimal(out, DATA, s.month);
    put_decimal(out, DATA + 2, s.day);
    put_decimal(out, DATA + 4, s.year);
    6
}

// ""00" speaker on, "FF" off"
fn speaker_text(speaker: u8) -> [u8; 2]
    ensures { result ≡ (if speaker is ON then ZERO ∷ ZERO ∷ [] else F ∷ F ∷ []) }
{
    if speaker == ON { [ZERO, ZERO] } else { [F, F] }
}

// Bytes as they are.
fn tell_bytes(bytes: &[u8], out: &mut [u8]) -> usize
    requires { 27 + length bytes.now ≤ length out.old }
    ensures { Told out.old bytes.now out.new result }
{
    copy_at(out, DATA, bytes);
    bytes.len()
}

// The records of n files, one after another.
fn tell_records(m: &[u8], n: usize, out: &mut [u8]) -> usize
    requires { (holds_files n m.now ≡ true) × (reply_room m.now ≤ length out.old) }
    ensures { Told out.old (heads (files_of n m.now)) out.new result }
{
    let mut at: usize = 0;
    let mut place = DATA;
    for _ in 0..n {
        let end = at + RECORD;
        copy_at(out, place, &m[at..end]);
        at += file_length(m, at);
        place += RECORD;
    }
    place - DATA
}

// ""#" gives POOL,pool, total and unused, four hex digits each"; no record is looked at.
fn tell_pool(total: u16, unused: u16, out: &mut [u8]) -> usize
    requires { 128 ≤ length out.old }
    ensures { Told out.old (in_hex4 total ++ (COMMA ∷ in_hex4 unused)) out.new result }
{
    put_four(out, DATA, total);
    put_at(out, DATA + 4, COMMA);
    put_four(out, DATA + 5, unused);
    9
}

// "F: labels 20H, "!", "'", ";", "$" and "#""; request 10: and "*".
// Stays: 21 comes before 22, so the label is judged before the data behind it, and told after them.
fn is_told(label: u8) -> bool
    ensures { result ≡ is_told label }
{
    match label {
        TIME | SPEAKER | POOL | CONFIGURATION | FORMAT | ERRORS | DATE => true,
        _ => false,
    }
}

// "Replies use the layouts above".
fn tell(s: &Settings, m: &[u8], label: u8, out: &mut [u8]) -> usize
    requires { Ready (board s.now m.now) out.old }
    ensures { Told out.old (tell (board s.now m.now) label) out.new result }
{
    match label {
        TIME => tell_time(s, out),
        SPEAKER => tell_bytes(&speaker_text(s.speaker), out),
        FORMAT => tell_bytes(&[s.format], out),
        DATE => tell_date(s, out),
        CONFIGURATION => tell_records(m, s.files as usize, out),
        ERRORS => tell_bytes(&[s.errors], out),
        _ => tell_pool(m.len() as u16, s.unused, out),
    }
}

// "*" clears the register once it is told; every other label leaves the settings.
fn after_told(s: &mut Settings, label: u8)
    ensures { s.new ≡ after_told s.old label }
{
    if label == ERRORS {
        *s = s.cleared();
    }
}

// F: "without data".
#[tactic(auto, using(crate::proofs::Telling::reading))]
pub fn read_special(
    s: &mut Settings,
    m: &[u8],
    text: &[u8],
    out: &mut [u8],
) -> Result<usize, Refusal>
    requires { Ready (board s.old m.now) out.old }
    ensures { left_as (done_by result) s.new m.now out.new ≡ leaving out.old (read_special (board s.old m.now) text.now) }
{
    if text.len() == 0 {
        return Err(Refusal::Malformed);
    }
    let label = text[0];
    if !is_told(label) {
        return Err(Refusal::Unknown);
    }
    if text.len() != 1 {
        return Err(Refusal::Malformed);
    }
    let n = tell(s, m, label, out);
    let length = reply(out, E, label, n);
    after_told(s, label);
    Ok(length)
}
