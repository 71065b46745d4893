// A guess at the angle of a target with y >= 0, of which nothing is said, and a test by which most guesses are seen to be right.
ghost use Rattle.std.specs.Prelude.{◌≡◌, ◌^◌, ◌≤◌, true, pos, unsigned_abs};
ghost use Rattle.aim_tables.specs.Rules.{apart};
ghost use Rattle.aim_rule.specs.Angle.{side, upper_angle};
ghost use Rattle.aim_rule.specs.Search.{Target, doubt};

use crate::near::near;
use aim_tables::cross;

// A guess, of which nothing is said but that the tables reach it.
pub fn guess(x: f64, y: f64) -> usize
    ensures { result ≤ 804 }
{
    std::num::saturating_f64_to_u64(angle_of(x, y)).min(804) as usize
}

// About 256 times the angle: that of the diagonal, and the arc tangent of what is left, by a polynomial that is off by less than 0.003.
fn angle_of(x: f64, y: f64) -> f64 {
    let right = x.abs();
    let t = (y - right) / (y + right);
    let s = t * t;
    let arc = t * (255.9657 - s * (84.55667 - s * (46.1161 - s * (21.79405 - s * 5.333786))));
    let angle = 201.0619298 + arc;
    if x < 0.0 { 804.2477193 - angle } else { angle }
}

// Whether n is seen to be the angle, from numbers near the tables' entries.
pub fn is_sure(x: i64, y: i64, n: usize) -> bool
    requires { Target x y × (n ≤ 804) }
    ensures { result ≡ true → n ≡ upper_angle x y }
{
    let doubt = doubt(x, y);
    if near_side(x, y, n) < doubt {
        return false;
    }
    n == 804 || near_side(x, y, n + 1) < -doubt
}

// y * C[n] - x * S[n], up to the doubt: each entry is known up to 2.
fn near_side(x: i64, y: i64, n: usize) -> i64
    requires { Target x y × (n ≤ 804) }
    ensures { apart result (side x y n) ≤ doubt x y }
{
    let p = near(n);
    cross(y, p.c, x, p.s)
}

fn doubt(x: i64, y: i64) -> i64
    requires { Target x y }
    ensures { result ≡ pos (doubt x y) }
{
    (y.unsigned_abs() * 2 + x.unsigned_abs() * 2) as i64
}
