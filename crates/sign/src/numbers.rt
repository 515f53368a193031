// The document's number of a refusal.
ghost use Rattle.std.specs.Prelude.{◌≡◌};
ghost use Rattle.sign.specs.InnerRunning.{number};

use crate::Refusal;

impl Refusal {
    pub fn number(self) -> u8
        ensures { result ≡ number self }
    {
        self as u8
    }
}
