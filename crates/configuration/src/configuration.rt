// "a list of 0 to 64 records replaces all files, contents empty.": by E "$", and for whoever else configures a board.
ghost use Rattle.std.specs.Prelude.{◌≡◌, true};
ghost use Rattle.board.specs.Board.{board};
ghost use Rattle.board.specs.Soundness.{sound};
ghost use Rattle.effects.specs.Effects.{change};
ghost use Rattle.configuration.specs.Configuration.{replace, configure};
ghost use Rattle.configuration.specs.InnerFiling.{refused};

use crate::LIST;
use crate::capitals::put_capitals;
use crate::numbers::Refusal;
use crate::records::{accept, lay};
use board::Settings;
use effects::Changed;

// A list that is refused changes no settings.
fn refused(s: Settings, refusal: Refusal) -> Changed
    ensures { result ≡ refused s refusal }
{
    Changed {
        number: refusal.number(),
        settings: s,
    }
}

// A list in capitals is refused, or all files are replaced.
// Stays: settings and memory are two parameters, since "Settings travel as one record, handed in and handed back", and memory is C's; so five ask that
// both are a sound board.
fn replace(s: Settings, m: &mut [u8], list: &[u8]) -> Changed
    requires { sound (board s m.old) ≡ true }
    ensures { change (board s m.new) result ≡ replace (board s m.old) list.now }
{
    // A refusal leaves here: at the end of one match with both cases the settings would be copied once more (`tests/c/copies.c`, "$").
    let records = match accept(list, m.len()) {
        Ok(records) => records,
        Err(refusal) => return refused(s, refusal),
    };
    let kept = lay(m, records);
    let places = kept.places;
    Changed {
        number: 0,
        settings: s.with_files(records.len() as u8, kept.unused, places),
    }
}

// The list as sent is put in capitals, once. One of more than 64 records has no room there: "bad record, count or length".
pub fn configure(s: Settings, m: &mut [u8], d: &[u8]) -> Changed
    requires { sound (board s m.old) ≡ true }
    ensures { change (board s m.new) result ≡ configure (board s m.old) d.now }
{
    let n = d.len();
    if LIST < n {
        return refused(s, Refusal::BadRecord);
    }
    let mut list = [0u8; LIST];
    put_capitals(d, &mut list);
    replace(s, m, &list[..n])
}
