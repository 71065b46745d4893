// Whom a hook pulls, once its character has ticked.
ghost use Rattle.std.specs.Prelude.{◌≡◌, ◌<◌};
ghost use Rattle.character.specs.Tick.{seats};
ghost use Rattle.character.specs.Among.{held_seat, pull_at};

use crate::SEATS;
use character_hook::{CharacterId, Hook};
use character_meeting::{HookPull, pull_on};
use game_tuning::Tuning;
use num_vec2::vec2;

// The seat of whom a hook holds; the own one where it holds nobody who has a seat.
pub fn held_seat(hook: Hook, own: usize) -> usize
    ensures { result ≡ held_seat seats hook own }
{
    let Hook::Grabbed(cid, _) = hook else {
        return own;
    };
    let held = cid.0 as usize;
    if held < SEATS {
        return held;
    }
    own
}

// What the hook does to whoever is at the held seat.
pub fn pull_at(
    pos: vec2,
    own: usize,
    held: usize,
    present: bool,
    other_pos: vec2,
    other_vel: vec2,
    tuning: Tuning,
) -> Option<HookPull>
    requires { held < seats }
    ensures { result ≡ pull_at pos own held present other_pos other_vel tuning }
{
    if held == own {
        return None;
    }
    if present {
        let cid = held as u32;
        return pull_on(pos, CharacterId(cid), other_pos, other_vel, tuning);
    }
    None
}
