// Who is aside of a way: a character's size or more to one side of all of it, so that nothing that goes it comes near.
ghost use Rattle.std.specs.Prelude.{◌≡◌};
ghost use Rattle.character_aside.specs.Aside.{is_aside, may_touch};

use game_constants::CHARACTER_SIZE;
use num_vec2::vec2;

// Whether q is on one side of the way in neither coordinate.
pub fn may_touch(from: vec2, end: vec2, q: vec2) -> bool
    ensures { result ≡ may_touch from end q }
{
    let beside = is_aside(from.x, end.x, q.x);
    let above = is_aside(from.y, end.y, q.y);
    !(beside | above)
}

// Whether a and b are both a character's size or more to the same side of q. Every comparison is made: the others are on any side, which no processor guesses well.
fn is_aside(a: f32, b: f32, q: f32) -> bool
    ensures { result ≡ is_aside a b q }
{
    let first = q - a;
    let last = q - b;
    let after = (CHARACTER_SIZE <= first) & (CHARACTER_SIZE <= last);
    let before = (first <= -CHARACTER_SIZE) & (last <= -CHARACTER_SIZE);
    after | before
}
