// The first turn of a player walk that touches a player.
ghost use Rattle.std.specs.Prelude.{◌≡◌, ◌+◌, ◌≤◌, ◌<◌};
ghost use Rattle.num_vec2.specs.Vec2.{vdistance};
ghost use Rattle.character_walk.specs.Walking.{player_turns};
ghost use Rattle.character_aside.specs.First.{is_aside_interval, FirstTouch};

use crate::aside::may_touch;
use character_walk::touches;
use map_lines::{min, point_at};
use num_vec2::vec2;

// Turns that are tried one by one: an interval of so few is not worth two points and a test.
const FEW: u32 = 8;

// The first turn before end that touches a player at q; end if none does. An interval of turns is passed at once if q is to one side of it, and halved if not.
pub fn first_touch(from: vec2, to: vec2, distance: f32, q: vec2, end: u32) -> u32
    requires { (distance ≡ vdistance from to) × (end ≤ player_turns distance) × (end ≤ 65536) }
    ensures { FirstTouch from to distance q 0 end result }
{
    let mut i = 0u32;
    // The size of an interval changes, so a `while` and not a range.
    let mut n = 65536u32;
    while i < end {
        let size = min(n, end - i);
        let next = i + size;
        if size <= FEW {
            let r = touch_by_turn(from, to, distance, q, i, next);
            if r < next {
                return r;
            }
            i = next;
            n = FEW * 2;
        } else {
            if is_aside_interval(from, to, distance, q, i, next) {
                i = next;
                n = size * 2;
            } else {
                n = size / 2;
            }
        }
    }
    end
}

// Whether q is to one side of all points of the turns from i up to next.
fn is_aside_interval(from: vec2, to: vec2, distance: f32, q: vec2, i: u32, next: u32) -> bool
    requires { (i + 8 < next) × (next ≤ 65536) }
    ensures { result ≡ is_aside_interval from to distance q i next }
{
    let first = point_at(from, to, distance, i);
    let last = point_at(from, to, distance, next - 1);
    !may_touch(first, last, q)
}

fn touch_by_turn(from: vec2, to: vec2, distance: f32, q: vec2, first: u32, end: u32) -> u32
    requires { (first ≤ end) × (end ≤ 65536) }
    ensures { FirstTouch from to distance q first end result }
{
    for i in first..end {
        if touches(point_at(from, to, distance, i), q) {
            return i;
        }
    }
    end
}
