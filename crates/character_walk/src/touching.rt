// When two characters touch.
ghost use Rattle.std.specs.Prelude.{◌≡◌};
ghost use Rattle.character_walk.specs.Touching.{touches};

use game_constants::CHARACTER_SIZE;
use num_vec2::vec2;

// Whether a character at p meets one at q: near, but not in the same place.
pub fn touches(p: vec2, q: vec2) -> bool
    ensures { result ≡ touches p q }
{
    let way = q - p;
    let square = vec2::dot(way, way);
    // Most are far: a comparison spares the root.
    if 784.0 <= square {
        return false;
    }
    let d = num_root::root(square);
    0.0 < d && d < CHARACTER_SIZE
}
