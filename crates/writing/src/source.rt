// A frame that was read, as the calls that write take it.
ghost use Rattle.std.specs.Prelude.{◌≡◌, drop};
ghost use Rattle.writing.specs.InnerSources.{Parted};

use reading::reading::Parts;

// The bytes that it stands for, where header and body start in them, and what the reading's one walk over its blocks has told.
#[derive(Clone, Copy)]
pub struct Source<'a> {
    pub bytes: &'a [u8],
    pub parts: Parts,
    ghost parted: { Parted bytes.now parts },
}

impl<'a> Source<'a> {
    ghost use Rattle.writing.specs.InnerFrames.{text_of};

    // Its header text, as it was received.
    pub fn header_text(&self) -> &'a [u8]
        ensures { result.now ≡ text_of self.now }
    {
        &self.bytes[self.parts.header..self.parts.body]
    }

    // Its bytes from the first block on.
    pub fn blocks(&self) -> &'a [u8]
        ensures { result.now ≡ drop self.now.parts.body self.now.bytes.now }
    {
        &self.bytes[self.parts.body..]
    }
}
