// "Three forms we write", by their numbers.
ghost use Rattle.std.specs.Prelude.{◌≡◌};
ghost use Rattle.forms.specs.InnerNumbers.{form_numbered};

#[derive(Clone, Copy, PartialEq, Eq)]
pub enum Form {
    // ETX only between blocks
    Plain = 1,
    // ETX and a checksum on each block
    Summed = 2,
    // the same in printable characters
    Printable = 3,
}

// A number that no form has.
#[derive(Clone, Copy, PartialEq, Eq)]
pub struct NoForm;

impl TryFrom<u8> for Form {
    type Error = NoForm;

    ghost try_from_gives = { λ number form. form ≡ form_numbered number };

    fn try_from(number: u8) -> Result<Form, NoForm> {
        match number {
            1 => Ok(Form::Plain),
            2 => Ok(Form::Summed),
            3 => Ok(Form::Printable),
            _ => Err(NoForm),
        }
    }
}
