// How a frame reads. The definitions are in specs/.
#![tactic(auto)]

ghost use Rattle.std.specs.Prelude.{◌≡◌};
ghost use Rattle.body.specs.InnerSurveying.{number_of as body_number};
ghost use Rattle.reading.specs.Places.{number_of};

mod lead;
pub mod reading;
mod translation;

use body::surveying::Refusal as BodyRefusal;

// Why a frame does not read.
#[derive(Clone, Copy, PartialEq, Eq)]
pub enum Refusal {
    // "input empty, over 8,192 bytes standard or 24,576 printable, or over 8,192 translated"
    WrongLength = 3,
    // "wrong first byte or lead"
    WrongLead = 4,
    // "printable: bad escape or byte outside 20H to 7EH"
    BadPrintable = 5,
    // "bad header"; request 11: "6 stays for "z" beside other pairs"
    BadHeader = 6,
    // "bad body"
    BadBody = 7,
    // "a read that is not last"
    ReadNotLast = 8,
}

impl Refusal {
    // The documents' number.
    pub fn number(self) -> u8
        ensures { result ≡ number_of self }
    {
        self as u8
    }
}

impl From<BodyRefusal> for Refusal {
    ghost from_gives = { λ e r. number_of r ≡ body_number e };

    fn from(e: BodyRefusal) -> Refusal {
        match e {
            BodyRefusal::BadBody => Refusal::BadBody,
            BodyRefusal::ReadNotLast(_) => Refusal::ReadNotLast,
        }
    }
}

// Where header and body of a standard frame start;
// or how many bytes of the room a printable frame stands for, and where header and body start among them.
#[derive(Clone, Copy)]
pub enum Read {
    Standard {
        header: usize,
        body: usize,
    },
    Printable {
        length: usize,
        header: usize,
        body: usize,
    },
}
