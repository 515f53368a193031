// What a command leaves.
ghost use Rattle.std.specs.Prelude.{◌≡◌};
ghost use Rattle.effects.specs.InnerLeaving.{number, done_by};

use crate::{Done, Refusal};

impl Refusal {
    // The document's number.
    pub fn number(self) -> u8
        ensures { result ≡ number self }
    {
        self as u8
    }
}

// A reply of that length, 0 where there is none, or a refusal.
impl From<Result<usize, Refusal>> for Done {
    ghost from_gives = { λ answered done. done ≡ done_by answered };

    fn from(answered: Result<usize, Refusal>) -> Done {
        match answered {
            Ok(length) => Done { number: 0, length },
            Err(refusal) => Done {
                number: refusal.number(),
                length: 0,
            },
        }
    }
}
