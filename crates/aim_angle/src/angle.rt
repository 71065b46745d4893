// The net angle of a target: the largest n with y * C[n] - x * S[n] >= 0.
ghost use Rattle.std.specs.Prelude.{◌≡◌, ◌≤◌, unsigned_abs};
ghost use Rattle.aim_rule.specs.Angle.{net_angle};
ghost use Rattle.aim_rule.specs.Scan.{upright_angle};
ghost use Rattle.aim_rule.specs.Search.{Target};

use crate::guess::{guess, is_sure};
use aim_scan::scan::settled;
use aim_scan::signs::{height, signed};

// Both ways are the same but for what the compiler knows of them: a processor foretells the branch, and does not wait for the height.
pub fn net_angle(x: i32, y: i32) -> i32
    ensures { result ≡ net_angle x y }
{
    if y < 0 {
        return signed(y, upright_angle(x as i64, height(y)));
    }
    signed(y, upright_angle(x as i64, height(y)))
}

// The angle of a target with y >= 0. A guess straight along an axis is never sure, and would cost a scan.
fn upright_angle(x: i64, y: i64) -> usize
    requires { Target x y }
    ensures { (result ≡ upright_angle x (unsigned_abs y)) × (result ≤ 804) }
{
    if y == 0 {
        return along_x(x);
    }
    let n = guess(x as f64, y as f64);
    if is_sure(x, y, n) {
        return n;
    }
    if x == 0 {
        return 402;
    }
    let found = settled(x, y, n);
    found.n
}

// The angle of a target at no height.
fn along_x(x: i64) -> usize
    ensures { (result ≡ upright_angle x 0) × (result ≤ 804) }
{
    if x < 0 { 804 } else { 0 }
}
