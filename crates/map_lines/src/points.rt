// The points of a way, turn by turn.
ghost use Rattle.std.specs.Prelude.{◌≡◌, ◌≤◌, min};
ghost use Rattle.map_lines.specs.Points.{point_at};

use num_vec2::vec2;

// The point of turn i on a way of length dist.
pub fn point_at(from: vec2, to: vec2, dist: f32, i: u32) -> vec2
    requires { i ≤ 65536 }
    ensures { result ≡ point_at from to dist i }
{
    vec2::mix(from, to, i as f32 / dist)
}

pub fn min(a: u32, b: u32) -> u32
    ensures { result ≡ min a b }
{
    if a < b {
        return a;
    }
    b
}
