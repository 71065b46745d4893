// Whom a player walk may touch: the others but those who are a character's size or more to one side of the whole way.
ghost use Rattle.std.specs.Prelude.{◌≤◌, ◌≡◌, length};
ghost use Rattle.character.specs.Tick.{seats};
ghost use Rattle.character.specs.Places.{Among};
ghost use Rattle.character.specs.Near.{Asked};

use crate::SEATS;
use crate::rows::{ROW, none_touched};
use character_aside::aside::may_touch;
use num_vec2::vec2;

// Where they are, by rising id, into the lent coordinates; answers how many they are. Most are on one side, which comparisons tell before anything else is
// asked.
pub fn gather(
    present: &[bool; SEATS],
    xs: &[f32; SEATS],
    ys: &[f32; SEATS],
    id: usize,
    from: vec2,
    end: vec2,
    near_xs: &mut [f32; SEATS],
    near_ys: &mut [f32; SEATS],
) -> usize
    requires { (length near_xs.old ≡ seats) × (length near_ys.old ≡ seats) }
    ensures { (result ≤ seats) × (length near_xs.new ≡ seats) × (length near_ys.new ≡ seats) × Among seats present.now xs.now ys.now (λ ss. Asked ss id from end seats result near_xs.new near_ys.new) }
{
    let mut count: usize = 0;
    let mut j: usize = 0;
    // A `while`: a row of seats without a touch is passed at once.
    while j < SEATS {
        if none_touched(xs, ys, j, from, end) {
            j += ROW;
        } else {
            let place = vec2::new(xs[j], ys[j]);
            if may_touch(from, end, place) {
                if present[j] {
                    if j != id {
                        near_xs[count] = place.x;
                        near_ys[count] = place.y;
                        count += 1;
                    }
                }
            }
            j += 1;
        }
    }
    count
}
