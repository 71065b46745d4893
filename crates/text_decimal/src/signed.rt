// Values: whole numbers of 32 bits, with a sign.
ghost use Rattle.std.specs.Prelude.{◌≡◌, ◌-◌, ◌<◌, ◌≤◌, negsuc};
ghost use Rattle.text_decimal.specs.Reading.{ValueAt};

use crate::unsigned::read_number;

// Reads a value, with the place past the byte that ends it.
pub fn read_value(text: &[u8], at: usize, stop: u8) -> Option<(i32, usize)>
    requires { stop < 48 }
    ensures { ValueAt stop text.now at result }
{
    if *text.get(at)? == b'-' {
        let (n, next) = read_number(text, at + 1, stop)?;
        if n == 0 {
            return None;
        }
        return Some((minus(n), next));
    }
    let (n, next) = read_number(text, at, stop)?;
    if 2147483648 <= n {
        return None;
    }
    Some((n as i32, next))
}

// Minus n, for n from 1 to 2^31.
fn minus(n: u64) -> i32
    requires { (0 < n) × (n ≤ 2147483648) }
    ensures { result ≡ negsuc (n - 1) }
{
    let m = (n - 1) as i32;
    -m - 1
}
