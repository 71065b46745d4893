// Rows of eight seats, where a row is passed over at once if none of it has to be asked: most have none, and the compiler makes a few wide comparisons of a
// loop that has no branch. Either test says no where no row begins.
ghost use Rattle.std.specs.Prelude.{◌<◌, true, ◌≡◌};
ghost use Rattle.character_aside.specs.Aside.{may_touch};
ghost use Rattle.character.specs.Among.{may_meet};
ghost use Rattle.character.specs.Places.{place_at};
ghost use Rattle.character.specs.Rows.{NoneOfRow};
ghost use Rattle.character.specs.Tick.{seats};

use crate::SEATS;
use character_aside::aside::may_touch;
use character_meeting::is_beyond;
use num_vec2::vec2;

pub const ROW: usize = 8;

// Whether j begins a row in which nobody may be touched on a way.
pub fn none_touched(xs: &[f32; SEATS], ys: &[f32; SEATS], j: usize, from: vec2, end: vec2) -> bool
    requires { j < seats }
    ensures { result ≡ true → NoneOfRow (λ k. may_touch from end (place_at xs.now ys.now k)) j }
{
    if j % ROW != 0 {
        return false;
    }
    let mut any = false;
    for k in j..j + ROW {
        let place = vec2::new(xs[k], ys[k]);
        any = any | may_touch(from, end, place);
    }
    !any
}

// Whether j begins a row in which nobody may change a velocity: all are far, and the held one is elsewhere.
pub fn none_met(xs: &[f32; SEATS], ys: &[f32; SEATS], j: usize, pos: vec2, held: usize) -> bool
    requires { j < seats }
    ensures { result ≡ true → NoneOfRow (λ k. may_meet pos (place_at xs.now ys.now k) k held) j }
{
    if j % ROW != 0 {
        return false;
    }
    if j / ROW == held / ROW {
        return false;
    }
    let mut any = false;
    for k in j..j + ROW {
        let place = vec2::new(xs[k], ys[k]);
        any = any | !is_beyond(pos, place);
    }
    !any
}
