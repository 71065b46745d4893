// Numbers without a sign.
ghost use Rattle.std.specs.Prelude.{◌<◌};
ghost use Rattle.text_decimal.specs.Reading.{NumberAt};

// Reads a number, with the place past the byte that ends it.
pub fn read_number(text: &[u8], at: usize, stop: u8) -> Option<(u64, usize)>
    requires { stop < 48 }
    ensures { NumberAt stop text.now at result }
{
    let first = *text.get(at)?;
    if !first.is_ascii_digit() {
        return None;
    }
    let mut n = (first - b'0') as u64;
    // By index: the place past the number is answered.
    for i in at + 1..text.len() {
        let b = text[i];
        if b == stop {
            return Some((n, i + 1));
        }
        if n == 0 {
            return None;
        }
        if !b.is_ascii_digit() {
            return None;
        }
        let m = n * 10 + (b - b'0') as u64;
        if 2147483648 < m {
            return None;
        }
        n = m;
    }
    None
}
