// C[n] and S[n] up to 2, from few numbers: n is 32 a + b, and the angles of 32 a and of b are added. So a guess at an angle is
// mostly seen to be right without the whole tables.
ghost use Rattle.std.specs.Prelude.{◌≡◌, ◌^◌, ◌<◌, ◌≤◌, unsigned_abs};
ghost use Rattle.aim_tables.specs.Rules.{cos_at, sin_at, apart};
ghost use Rattle.aim_angle.specs.Near.{turned};

use crate::few::{coarse, fine};
use aim_tables::cross;

#[derive(Clone, Copy)]
pub struct Point {
    pub c: i64,
    pub s: i64,
}

pub fn near(n: usize) -> Point
    requires { n < 805 }
    ensures { (apart result.c (cos_at n) ≤ 2) × (apart result.s (sin_at n) ≤ 2) }
{
    let (c, s) = coarse(n / 32);
    let (d, t) = fine(n % 32);
    turned(c, s, d, t)
}

// The sum of two angles, each by 2^30 times its cosine and its sine.
fn turned(c: i64, s: i64, d: i64, t: i64) -> Point
    requires { (unsigned_abs c ≤ 2 ^ 30) × (unsigned_abs s ≤ 2 ^ 30) × (unsigned_abs d ≤ 2 ^ 30) × (unsigned_abs t ≤ 2 ^ 30) }
    ensures { result ≡ turned c s d t }
{
    let cosine = cross(c, d, s, t);
    let sine = cross(s, d, 0 - c, t);
    Point {
        c: cosine / 1073741824,
        s: sine / 1073741824,
    }
}
