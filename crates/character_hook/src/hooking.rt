// What becomes of a hook in a tick, and whom it meets on its way.
ghost use Rattle.std.specs.Prelude.{◌≡◌};
ghost use Rattle.character_hook.specs.Hooking.{fired, fire, fly, strike, closer, nearer, grab, retract, hold};

use crate::hook::{CharacterId, Hook};
use game_constants::CHARACTER_SIZE;
use game_tuning::{Tuning, hold_of};
use map_tiles::Tile;
use num_vec2::vec2;

// Where a hook flies to, and what it is there.
#[derive(Clone, Copy)]
pub struct Flight {
    pub to: vec2,
    pub hook: Hook,
}

impl Hook {
    // A pressed button fires an idle hook, a released one takes any hook back.
    pub fn fire(self, pressed: bool, pos: vec2, target_dir: vec2) -> Hook
        ensures { result ≡ fire self pressed pos target_dir }
    {
        if pressed {
            return fired(self, pos, target_dir);
        }
        Hook::Idle
    }

    // What the tiles on the way make of it, also where it has reached its length.
    pub fn strike(self, hit: Option<(vec2, Tile)>) -> Hook
        ensures { result ≡ strike self hit }
    {
        let Some((p, tile)) = hit else {
            return self;
        };
        match tile {
            Tile::Open => self,
            Tile::Normal => Hook::Attached(p),
            Tile::Deadly => self,
            Tile::Unhookable => Hook::Retracting0(p),
        }
    }

    // Whoever is met is grabbed.
    pub fn grab(self, nearest: Option<Nearest>) -> Hook
        ensures { result ≡ grab self nearest }
    {
        let Some(met) = nearest else {
            return self;
        };
        Hook::Grabbed(met.cid, 0)
    }

    // A hook that comes back does so in three ticks.
    pub fn retract(self) -> Hook
        ensures { result ≡ retract self }
    {
        match self {
            Hook::Retracting0(pos) => Hook::Retracting1(pos),
            Hook::Retracting1(pos) => Hook::Retracting2(pos),
            Hook::Retracting2(_) => Hook::Retracted,
            _ => self,
        }
    }

    // One more tick of holding somebody, the one in which it began included. The largest tick can't be counted up: it is beyond the time.
    pub fn hold(self, steps: i32) -> Hook
        ensures { result ≡ hold self steps }
    {
        let Hook::Grabbed(hooked, tick) = self else {
            return self;
        };
        if tick >= hold_of(steps) {
            return Hook::Retracted;
        }
        Hook::Grabbed(hooked, tick + 1)
    }
}

fn fired(hook: Hook, pos: vec2, target_dir: vec2) -> Hook
    ensures { result ≡ fired hook pos target_dir }
{
    let Hook::Idle = hook else {
        return hook;
    };
    Hook::Flying(pos + target_dir * CHARACTER_SIZE * 1.5, target_dir)
}

// The flight of a tick, which ends at the hook's length from the character.
pub fn fly(pos: vec2, dir: vec2, character: vec2, tuning: Tuning) -> Flight
    ensures { result ≡ fly pos dir character tuning }
{
    let new_pos = pos + dir * tuning.hook_fire_speed;
    if vec2::distance(new_pos, character) > tuning.hook_length {
        let end = character + (new_pos - character).normalize() * tuning.hook_length;
        return Flight {
            to: end,
            hook: Hook::Retracting0(end),
        };
    }
    Flight {
        to: new_pos,
        hook: Hook::Flying(new_pos, dir),
    }
}

// Who is met first on the flight so far, and at which distance.
#[derive(Clone, Copy)]
pub struct Nearest {
    pub distance: f32,
    pub cid: CharacterId,
}

// The nearest after the character cid at `other` is looked at: of those beside the way, the first of the least distance.
pub fn nearer(
    best: Option<Nearest>,
    cid: CharacterId,
    other: vec2,
    from: vec2,
    to: vec2,
) -> Option<Nearest>
    ensures { result ≡ nearer best cid other from to }
{
    let closest = other.closest_point_on_line(from, to);
    if vec2::distance(other, closest) < CHARACTER_SIZE {
        return closer(best, cid, vec2::distance(from, other));
    }
    best
}

fn closer(best: Option<Nearest>, cid: CharacterId, distance: f32) -> Option<Nearest>
    ensures { result ≡ closer best cid distance }
{
    if let Some(nearest) = best {
        if !(distance < nearest.distance) {
            return best;
        }
    }
    Some(Nearest { distance, cid })
}
