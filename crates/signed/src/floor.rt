// "signed month counts, floor division and remainder by 12 with negative counts". For a divisor above 0 the library's Euclidean division
// is just that: it rounds down, and leaves no negative rest.
ghost use Rattle.std.specs.Prelude.{◌≡◌};
ghost use Rattle.signed.specs.Floor.{floor_div, floor_mod};

// twelve months to a year
pub const MONTHS: i16 = 12;

// The quotient by twelve, rounded down.
#[tactic(auto, unfolding(crate::specs::Floor::floor_div))]
pub fn floor_div(m: i16) -> i16
    ensures { result ≡ floor_div m }
{
    m.div_euclid(MONTHS)
}

// What that leaves, 0 to 11.
#[tactic(auto, unfolding(crate::specs::Floor::floor_mod))]
pub fn floor_mod(m: i16) -> u8
    ensures { result ≡ floor_mod m }
{
    m.rem_euclid(MONTHS) as u8
}
