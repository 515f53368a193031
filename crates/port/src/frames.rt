// Frames that we write, re-form or join, in one of "Three forms".
ghost use Rattle.std.specs.Prelude.{◌≡◌};
ghost use Rattle.writing.specs.Output.{output};
ghost use Rattle.writing.specs.Writing.{write};
ghost use Rattle.writing.specs.Reforming.{reform};
ghost use Rattle.writing.specs.Joining.{join};

use frame::{Written, join, reform, write};

// Writes a one-command frame: 0, 15, 6, 16, 18 or 14.
#[unsafe(no_mangle)]
pub extern "C" fn pagozkin_write(
    form: u8,
    header: &[u8],
    command: u8,
    text: &[u8],
    out: &mut [u8],
) -> Written
    ensures { output result out.new ≡ write form header.now command text.now out.old }
{
    write(form, header, command, text, out)
}

// Puts a frame into another form: 0, 15, 3 to 8, 17, 18 or 14.
#[unsafe(no_mangle)]
pub extern "C" fn pagozkin_reform(form: u8, frame: &[u8], out: &mut [u8]) -> Written
    ensures { output result out.new ≡ reform form frame.now out.old }
{
    reform(form, frame, out)
}

// Joins two frames: 0, 15, 3 to 8 and 17 of either, 12, 19, 13, 18 or 14.
#[unsafe(no_mangle)]
pub extern "C" fn pagozkin_join(form: u8, first: &[u8], second: &[u8], out: &mut [u8]) -> Written
    ensures { output result out.new ≡ join form first.now second.now out.old }
{
    join(form, first, second, out)
}
