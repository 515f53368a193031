// A frame of one command, as it is to be written.
ghost use Rattle.std.specs.Prelude.{◌≡◌};
ghost use Rattle.body.specs.Sum.{checksum};
ghost use Rattle.writing.specs.InnerSources.{Writable};

// A good header text, a command byte and data that are plain bytes, and their sum.
#[derive(Clone, Copy)]
pub struct Single<'a> {
    pub header: &'a [u8],
    pub command: u8,
    pub text: &'a [u8],
    pub sum: u16,
    ghost writable: { Writable header.now command text.now },
    ghost summed: { sum ≡ checksum command text.now },
}
