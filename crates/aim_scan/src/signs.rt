// The sign of a target's y, taken off and put back.
ghost use Rattle.std.specs.Prelude.{◌≡◌, ◌≤◌, pos, nat_abs};
ghost use Rattle.aim_rule.specs.Scan.{with_sign_of};

// How far a target is above or below.
pub fn height(y: i32) -> i64
    ensures { result ≡ pos (nat_abs y) }
{
    y.unsigned_abs() as i64
}

pub fn signed(y: i32, n: usize) -> i32
    requires { n ≤ 804 }
    ensures { result ≡ with_sign_of y n }
{
    if y < 0 { -(n as i32) } else { n as i32 }
}
