// The screen: what it does with each thing that is passed along.
ghost use Rattle.std.specs.Prelude.{◌≡◌, set};
ghost use Rattle.character.specs.Tick.{seats};
ghost use Rattle.send_rule.specs.Send.{with_copies, receive, fresh_screen};

use crate::copies::{copy_of, no_copies, no_copy, step_copies, with_copy};
use game_tuning::{TUNINGS, fresh_tunings};
use map_tiles::Sides;
use send_rule::{Copy, Passed, Screen};

pub fn fresh_screen() -> Screen
    ensures { result ≡ fresh_screen seats }
{
    let copies = no_copies();
    let tunings = fresh_tunings();
    Screen { copies, tunings }
}

pub fn receive(screen: Screen, sides: Sides, tiles: &[u8], passed: Passed) -> Screen
    ensures { result ≡ receive seats sides tiles.now screen passed }
{
    match passed {
        Passed::Mark => {
            let tunings = screen.tunings;
            let before = screen.copies;
            let copies = step_copies(before, sides, tiles, tunings);
            Screen { copies, tunings }
        }
        Passed::Message { id, core, input } => show(screen, id, copy_of(core, input)),
        Passed::Removal { id } => show(screen, id, no_copy()),
        Passed::Leave { id } => show(screen, id, no_copy()),
        Passed::Tune { index, value } => {
            let copies = screen.copies;
            let before = screen.tunings;
            let tunings = with_tuning(before, index as usize, value);
            Screen { copies, tunings }
        }
    }
}

fn show(screen: Screen, id: u32, copy: Copy) -> Screen
    ensures { result ≡ with_copies screen (set screen.copies id copy) }
{
    let tunings = screen.tunings;
    let before = screen.copies;
    let copies = with_copy(before, id as usize, copy);
    Screen { copies, tunings }
}

// An index that no tuning has is nothing's.
fn with_tuning(mut tunings: [i32; TUNINGS], at: usize, value: i32) -> [i32; TUNINGS]
    ensures { result ≡ set tunings at value }
{
    if at < TUNINGS {
        tunings[at] = value;
    }
    tunings
}
