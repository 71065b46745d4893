// What a tick asks of the others, who are lent as places: whom its hook meets on its way, and what is left of the own velocity.
ghost use Rattle.std.specs.Prelude.{◌≡◌, Ok};
ghost use Rattle.character.specs.Tick.{seats, nearest, caught, meet_all};
ghost use Rattle.character.specs.Places.{Among};
ghost use Rattle.character.specs.Among.{may_meet};

use crate::SEATS;
use crate::pulls::held_seat;
use crate::rows::{ROW, none_met};
use character_aside::aside::may_touch;
use character_hook::{CharacterId, Hook, Nearest, Way, nearer};
use character_meeting::{is_beyond, meet};
use game_tuning::Tuning;
use num_vec2::vec2;

// Where players can be hooked, a hook that flew may grab somebody beside its way.
pub fn caught(
    way: Way,
    id: usize,
    present: &[bool; SEATS],
    xs: &[f32; SEATS],
    ys: &[f32; SEATS],
    player_hooking: f32,
) -> Hook
    ensures { Among seats present.now xs.now ys.now (λ ss. Ok result ≡ caught seats (Ok way) id ss player_hooking) }
{
    match way {
        Way::Still(hook) => hook,
        Way::Along(from, to, hook) => {
            if player_hooking != 0.0 {
                return hook.grab(nearest(present, xs, ys, id, from, to));
            }
            hook
        },
    }
}

// Whom a hook meets first on its way. Each costs roots; most are aside of the way, which comparisons tell.
fn nearest(
    present: &[bool; SEATS],
    xs: &[f32; SEATS],
    ys: &[f32; SEATS],
    id: usize,
    from: vec2,
    to: vec2,
) -> Option<Nearest>
    ensures { Among seats present.now xs.now ys.now (λ ss. result ≡ nearest seats ss id from to) }
{
    let end = from + (to - from);
    let mut best = None;
    for j in 0..SEATS {
        if present[j] {
            let place = vec2::new(xs[j], ys[j]);
            if may_touch(from, end, place) {
                if j != id {
                    let cid = j as u32;
                    best = nearer(best, CharacterId(cid), place, from, to);
                }
            }
        }
    }
    best
}

// The own velocity after the others, by rising id. Most are far, which a comparison tells before anything else is asked.
pub fn meet_all(
    present: &[bool; SEATS],
    xs: &[f32; SEATS],
    ys: &[f32; SEATS],
    id: usize,
    pos: vec2,
    mut vel: vec2,
    hook: Hook,
    tuning: Tuning,
) -> vec2
    ensures { Among seats present.now xs.now ys.now (λ ss. result ≡ meet_all seats ss id pos vel hook tuning) }
{
    let held = held_seat(hook, id);
    let mut j: usize = 0;
    // A `while`: a row of seats without a meeting is passed at once.
    while j < SEATS {
        if none_met(xs, ys, j, pos, held) {
            j += ROW;
        } else {
            let place = vec2::new(xs[j], ys[j]);
            if may_meet(pos, place, j, held) {
                if present[j] {
                    if j != id {
                        let cid = j as u32;
                        vel = meet(pos, vel, hook, place, CharacterId(cid), tuning);
                    }
                }
            }
            j += 1;
        }
    }
    vel
}

// Whether a meeting with whoever is at the place of j may change a velocity.
fn may_meet(pos: vec2, place: vec2, j: usize, held: usize) -> bool
    ensures { result ≡ may_meet pos place j held }
{
    if is_beyond(pos, place) {
        return j == held;
    }
    true
}
