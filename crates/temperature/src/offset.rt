// Set Temperature Offset: "a sign and one digit 0 to 9, so -9 to 9".
ghost use Rattle.std.specs.Prelude.{◌≡◌, true, ◌||◌};
ghost use Rattle.octets.specs.Choice.{◌is◌};
ghost use Rattle.octets.specs.Decimal.{is_decimal};
ghost use Rattle.temperature.specs.Offset.{PLUS, MINUS, is_signed_digit, signed_digit, is_offset};

use octets::bytes::ZERO;

// "+" and "-"
const PLUS: u8 = 0x2B;

const MINUS: u8 = 0x2D;

// "-9 to 9"
const MOST_OFFSET: i8 = 9;

// "a sign"
fn is_sign(sign: u8) -> bool
    ensures { result ≡ (sign is PLUS || sign is MINUS) }
{
    matches!(sign, PLUS | MINUS)
}

// "one digit 0 to 9"
#[tactic(auto, unfolding(octets::specs::Decimal::is_decimal))]
fn is_digit(digit: u8) -> bool
    ensures { result ≡ is_decimal digit }
{
    digit.is_ascii_digit()
}

// "a sign and one digit 0 to 9", and nothing else
// Stays: `offset_in` of `special` alone asks for test and number; an Option made here would be turned into its Result there, no shorter.
#[tactic(auto, unfolding(crate::specs::Offset::is_signed_digit))]
pub fn is_signed_digit(d: &[u8]) -> bool
    ensures { result ≡ is_signed_digit d.now }
{
    match d {
        [sign, digit] => is_sign(*sign) && is_digit(*digit),
        _ => false,
    }
}

// The number of a sign and a digit: "-0" and "+0" are the same.
#[tactic(auto, unfolding(crate::specs::Offset::signed_digit, octets::specs::Decimal::is_decimal))]
pub fn signed_digit(sign: u8, digit: u8) -> i8
    requires { is_decimal digit ≡ true }
    ensures { result ≡ signed_digit sign digit }
{
    let n = (digit - ZERO) as i8;
    if sign == MINUS { -n } else { n }
}

// "so -9 to 9"
#[tactic(auto, unfolding(crate::specs::Offset::is_offset))]
pub fn is_offset(offset: i8) -> bool
    ensures { result ≡ is_offset offset }
{
    (-MOST_OFFSET..=MOST_OFFSET).contains(&offset)
}
