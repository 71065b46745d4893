// The player walk, up to the first turn that touches a place.
ghost use Rattle.std.specs.Prelude.{◌≡◌, ◌≤◌, length};
ghost use Rattle.num_vec2.specs.Vec2.{vdistance};
ghost use Rattle.character_walk.specs.Walking.{player_turns};
ghost use Rattle.character_near.specs.Near.{walk_near, point_before};

use crate::soonest::soonest_touch;
use character_walk::{rest_at, touches};
use map_lines::point_at;
use num_vec2::vec2;

// Walks of at most so many turns go turn by turn: the walks of a game, in which a search for each place costs more.
const FEW: u32 = 64;

// The end of a walk among the first count places.
pub fn walk_near(
    xs: &[f32],
    ys: &[f32],
    count: usize,
    from: vec2,
    to: vec2,
    distance: f32,
    turns: u32,
) -> vec2
    requires { (distance ≡ vdistance from to) × (turns ≡ player_turns distance) × (turns ≤ 65536) × (count ≤ length xs.now) × (count ≤ length ys.now) }
    ensures { result ≡ walk_near count xs.now ys.now from to distance turns }
{
    if turns <= FEW {
        return walk_by_turn(xs, ys, count, from, to, distance, turns);
    }
    walk_by_place(xs, ys, count, from, to, distance, turns)
}

// Turn by turn, against each place.
fn walk_by_turn(
    xs: &[f32],
    ys: &[f32],
    count: usize,
    from: vec2,
    to: vec2,
    distance: f32,
    turns: u32,
) -> vec2
    requires { (turns ≤ 65536) × (count ≤ length xs.now) × (count ≤ length ys.now) }
    ensures { result ≡ walk_near count xs.now ys.now from to distance turns }
{
    let mut last = from;
    let mut rest = to;
    'walk: for i in 0..turns {
        let fraction = i as f32 / distance;
        let p = vec2::mix(from, to, fraction);
        for k in 0..count {
            let q = vec2::new(xs[k], ys[k]);
            if touches(p, q) {
                rest = rest_at(fraction, last, from, to, p, q);
                break 'walk;
            }
        }
        last = p;
    }
    rest
}

// Place by place, each with the first turn that touches it.
fn walk_by_place(
    xs: &[f32],
    ys: &[f32],
    count: usize,
    from: vec2,
    to: vec2,
    distance: f32,
    turns: u32,
) -> vec2
    requires { (distance ≡ vdistance from to) × (turns ≡ player_turns distance) × (turns ≤ 65536) × (count ≤ length xs.now) × (count ≤ length ys.now) }
    ensures { result ≡ walk_near count xs.now ys.now from to distance turns }
{
    let touch = soonest_touch(xs, ys, count, from, to, distance, turns);
    let turn = touch.turn;
    let place = touch.place;
    if turn < turns {
        let q = vec2::new(xs[place], ys[place]);
        let last = point_before(from, to, distance, turn);
        let fraction = turn as f32 / distance;
        let p = vec2::mix(from, to, fraction);
        return rest_at(fraction, last, from, to, p, q);
    }
    to
}

// The point of the turn before i; the start before the first.
fn point_before(from: vec2, to: vec2, distance: f32, i: u32) -> vec2
    requires { i ≤ 65536 }
    ensures { result ≡ point_before from to distance i }
{
    if i == 0 {
        return from;
    }
    point_at(from, to, distance, i - 1)
}
