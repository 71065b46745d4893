// The first turn of a player walk that touches a place, and the place.
ghost use Rattle.std.specs.Prelude.{◌≡◌, ◌≤◌, length};
ghost use Rattle.num_vec2.specs.Vec2.{vdistance};
ghost use Rattle.character_walk.specs.Walking.{player_turns};
ghost use Rattle.character_near.specs.Soonest.{Soonest};

use character_aside::first::first_touch;
use num_vec2::vec2;

// A turn, and the place that it touches.
#[derive(Clone, Copy)]
pub struct Touch {
    pub turn: u32,
    pub place: usize,
}

// The soonest touch of the first count places, the lowest place first; the turn is `turns` if no turn touches one. Each place is searched only up to the
// soonest touch so far.
pub fn soonest_touch(
    xs: &[f32],
    ys: &[f32],
    count: usize,
    from: vec2,
    to: vec2,
    distance: f32,
    turns: u32,
) -> Touch
    requires { (distance ≡ vdistance from to) × (turns ≡ player_turns distance) × (turns ≤ 65536) × (count ≤ length xs.now) × (count ≤ length ys.now) }
    ensures { Soonest xs.now ys.now from to distance turns count result.turn result.place }
{
    let mut turn = turns;
    let mut place: usize = 0;
    for k in 0..count {
        let q = vec2::new(xs[k], ys[k]);
        let r = first_touch(from, to, distance, q, turn);
        if r < turn {
            turn = r;
            place = k;
        }
    }
    Touch {
        turn: turn,
        place: place,
    }
}
