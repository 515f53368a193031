// Why nothing is written. What C is told of it is the document's number.
ghost use Rattle.std.specs.Prelude.{◌≡◌};
ghost use Rattle.writing.specs.InnerRefusals.{number_of, told};
ghost use Rattle.writing.specs.declared.refusal.Refusal.TheVariants.{Unread, WrongForm};

use crate::Written;
use forms::NoForm;
use reading::Refusal as Fault;

#[derive(Clone, Copy)]
pub enum Refusal {
    // a frame that does not read, or a header text that is none: 3 to 8
    Unread(Fault),
    // "join: header texts differ"
    HeadersDiffer,
    // "first frame has a read"
    FirstHasRead,
    // "output buffer too short"
    NoRoom,
    // "form not 1, 2 or 3"
    WrongForm,
    // "command or data byte below 05H"
    ByteTooLow,
    // "input has a wrong checksum"
    WrongSum,
    // "result over 8,192 translated bytes or 64 blocks"
    TooLong,
    // request 11: "joining a "z" header"
    StartJoined,
}

impl Refusal {
    // The document's number.
    pub fn number(self) -> u8
        ensures { result ≡ number_of self }
    {
        match self {
            Refusal::Unread(fault) => fault.number(),
            Refusal::HeadersDiffer => 12,
            Refusal::FirstHasRead => 13,
            Refusal::NoRoom => 14,
            Refusal::WrongForm => 15,
            Refusal::ByteTooLow => 16,
            Refusal::WrongSum => 17,
            Refusal::TooLong => 18,
            Refusal::StartJoined => 19,
        }
    }
}

impl From<Fault> for Refusal {
    ghost from_gives = { λ fault refusal. refusal ≡ Unread fault };

    fn from(fault: Fault) -> Refusal {
        Refusal::Unread(fault)
    }
}

impl From<NoForm> for Refusal {
    ghost from_gives = { λ _ refusal. refusal ≡ WrongForm };

    fn from(_none: NoForm) -> Refusal {
        Refusal::WrongForm
    }
}

// The length of what was written; or the number, and "length 0".
impl From<Result<usize, Refusal>> for Written {
    ghost from_gives = { λ outcome answer. answer ≡ told outcome };

    fn from(outcome: Result<usize, Refusal>) -> Written {
        match outcome {
            Ok(length) => Written { number: 0, length },
            Err(refusal) => Written {
                number: refusal.number(),
                length: 0,
            },
        }
    }
}
