// Boards: "Settings travel as one record, handed in and handed back".
ghost use Rattle.std.specs.Prelude.{◌≡◌};
ghost use Rattle.board.specs.Board.{board};
ghost use Rattle.board.specs.Soundness.{sound};
ghost use Rattle.sign.specs.Errors.{port_errors};
ghost use Rattle.sign.specs.Fresh.{making, fresh};
ghost use Rattle.sign.specs.Run.{outcome, run};
ghost use Rattle.port.specs.Truth.{truth};

use board::Settings;
use board::soundness::sound;
use sign::errors::port_errors;
use sign::fresh::fresh;
use sign::run::run;
use sign::{Answer, Driven, Made};

// A fresh board of a type, its memory all zero: 0, 10 or 11.
#[unsafe(no_mangle)]
pub extern "C" fn pagozkin_fresh(own: u8, memory: &mut [u8]) -> Made
    ensures { making result memory.new ≡ fresh own memory.old }
{
    fresh(own, memory)
}

// "A board is sound when all this holds": 1, else 0.
#[unsafe(no_mangle)]
pub extern "C" fn pagozkin_is_sound(settings: Settings, memory: &[u8]) -> u8
    ensures { result ≡ truth (sound (board settings memory.now)) }
{
    u8::from(sound(settings, memory))
}

// Runs a frame on a board: 0, 1 to 9 or 28.
#[unsafe(no_mangle)]
pub extern "C" fn pagozkin_run(
    settings: Settings,
    memory: &mut [u8],
    reply: &mut [u8],
    frame: &[u8],
) -> Answer
    ensures { outcome result memory.new reply.new ≡ run (board settings memory.old) reply.old frame.now }
{
    run(settings, memory, reply, frame)
}

// What the port driver saw comes into the serial error status register: 0, or 1.
#[unsafe(no_mangle)]
pub extern "C" fn pagozkin_port_errors(settings: Settings, bits: u8) -> Driven
    ensures { result ≡ port_errors settings bits }
{
    port_errors(settings, bits)
}
