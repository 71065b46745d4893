// A difference of two products, for numbers so small that it fits.
ghost use Rattle.std.specs.Prelude.{◌≡◌, ◌≤◌, ◌<◌, ◌^◌, nat_abs, ◌-ℤ◌, ◌*ℤ◌};

pub fn cross(a: i64, b: i64, c: i64, d: i64) -> i64
    requires { (nat_abs a ≤ 2 ^ 31) × (nat_abs b < 2 ^ 31) × (nat_abs c ≤ 2 ^ 31) × (nat_abs d < 2 ^ 31) }
    ensures { result ≡ a *ℤ b -ℤ c *ℤ d }
{
    a * b - c * d
}
