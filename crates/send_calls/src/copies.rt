// Copies: none, one made from a record and an input, one set, and all stepped.
ghost use Rattle.std.specs.Prelude.{◌≡◌, set};
ghost use Rattle.character.specs.Tick.{seats};
ghost use Rattle.send_rule.specs.Send.{no_copy, no_copies, copy_of, counted, with_step, step_copies};
ghost use Rattle.send_alone.specs.Alone.{copy_alone};

use character::{Character, SEATS};
use game_records::{CharacterCore, PlayerInput};
use game_refusals::Refusal;
use game_tuning::{TUNINGS, Tuning, tuning_of};
use map_tiles::{Sides, on_deadly};
use send_alone::step_alone;
use send_rule::Copy;
use world_step::unpublished;

// The accepted step after a seat's last message that has a message whatever happens.
pub const MOST_STEPS: u32 = 150;

pub fn no_copy() -> Copy
    ensures { result ≡ no_copy }
{
    let none = unpublished();
    let core = none.core;
    Copy {
        kept: false,
        core,
        input: PlayerInput {
            direction: 0,
            target_x: 0,
            target_y: 0,
            jump: 0,
            hook: 0,
        },
        removed: false,
        refused: false,
        steps: 0,
    }
}

pub fn no_copies() -> [Copy; SEATS]
    ensures { result ≡ no_copies seats }
{
    [no_copy(); SEATS]
}

pub fn copy_of(core: CharacterCore, input: PlayerInput) -> Copy
    ensures { result ≡ copy_of core input }
{
    Copy {
        kept: true,
        core,
        input,
        removed: false,
        refused: false,
        steps: 0,
    }
}

// A place that no seat has is nobody's.
pub fn with_copy(mut copies: [Copy; SEATS], at: usize, copy: Copy) -> [Copy; SEATS]
    ensures { result ≡ set copies at copy }
{
    if at < SEATS {
        copies[at] = copy;
    }
    copies
}

fn counted(steps: u32) -> u32
    ensures { result ≡ counted steps }
{
    if steps < MOST_STEPS {
        return steps + 1;
    }
    steps
}

// What a step leaves of a copy.
fn with_step(copy: Copy, core: CharacterCore, removed: bool, refused: bool) -> Copy
    ensures { result ≡ with_step copy core removed refused }
{
    let input = copy.input;
    Copy {
        kept: true,
        core,
        input,
        removed,
        refused,
        steps: counted(copy.steps),
    }
}

fn step_copy(copy: Copy, sides: Sides, tiles: &[u8], tuning: Tuning) -> Copy
    ensures { result ≡ copy_alone sides tiles.now tuning copy }
{
    if copy.kept {
        let last = copy.core;
        if copy.removed {
            return with_step(copy, last, true, false);
        }
        return match step_alone(last, copy.input, sides, tiles, tuning) {
            Err(refusal) => with_step(copy, last, false, refusal == Refusal::TooFar),
            Ok(core) => {
                let me = Character::from_net(core);
                with_step(copy, core, on_deadly(sides, tiles, me.pos), false)
            }
        };
    }
    copy
}

// Each in a world that holds its seat alone.
pub fn step_copies(
    copies: [Copy; SEATS],
    sides: Sides,
    tiles: &[u8],
    tunings: [i32; TUNINGS],
) -> [Copy; SEATS]
    ensures { result ≡ step_copies seats sides tiles.now tunings copies }
{
    let tuning = tuning_of(tunings);
    let mut all = copies;
    for k in 0..SEATS {
        let copy = all[k];
        if copy.kept {
            all[k] = step_copy(copy, sides, tiles, tuning);
        }
    }
    all
}
