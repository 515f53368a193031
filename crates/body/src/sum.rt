// "The checksum adds every byte from STX to ETX, both counted, and drops every carry out of 16 bits."
ghost use Rattle.std.specs.Prelude.{◌≡◌, ◌+◌, ◌%◌};
ghost use Rattle.body.specs.Sum.{checksum};
ghost use Rattle.body.specs.InnerWalking.{opening, added_up};

use octets::bytes::{ETX, PLAIN, STX};

// A sum, with one byte more.
pub fn added(sum: u16, x: u8) -> u16
    ensures { result ≡ (sum + x) % 65536 }
{
    sum.wrapping_add(u16::from(x))
}

// What a block's sum is before its data: STX and the command byte.
#[tactic(auto, unfolding(crate::specs::InnerWalking::opening, crate::specs::Sum::sum_from))]
pub fn opening(command: u8) -> u16
    ensures { result ≡ opening command }
{
    added(added(0, STX), command)
}

// A sum with each byte of a row added to it: Ok where each one is 05H to FFH, and else Err, with the sum all the same. No byte ends this loop
// early, so a compiler may take many of them at once.
#[tactic(auto, using(crate::proofs::SumLaws::summing))]
pub fn add_up(s: &[u8], start: u16) -> Result<u16, u16>
    ensures { result ≡ added_up start s.now }
{
    let mut plain = true;
    let mut sum = start;
    for b in s {
        let x = *b;
        plain = plain & (PLAIN <= x);
        sum = added(sum, x);
    }
    if plain { Ok(sum) } else { Err(sum) }
}

// The checksum of a command byte and data.
#[tactic(auto, using(crate::proofs::SumLaws::summing))]
pub fn checksum(command: u8, text: &[u8]) -> u16
    ensures { result ≡ checksum command text.now }
{
    let body = text.iter().fold(opening(command), |sum, x| added(sum, *x));
    added(body, ETX)
}
