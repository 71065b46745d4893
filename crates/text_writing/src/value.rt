// A value's bytes.
ghost use Rattle.std.specs.Prelude.{◌≡◌, ◌+◌, ◌≤◌, length};
ghost use Rattle.text_decimal.specs.Decimal.{digits, written};
ghost use Rattle.text_writing.specs.Put.{Put};

// Puts z's bytes into buf from `at` on, and answers the place past them. No value has more than 11.
pub fn put_value(buf: &mut [u8], at: usize, z: i32) -> usize
    requires { at + 11 ≤ length buf.old }
    ensures { Put buf.old at (written z) buf.new result }
{
    let n = z.unsigned_abs();
    if z < 0 {
        buf[at] = b'-';
        put_number(buf, at + 1, n)
    } else {
        put_number(buf, at, n)
    }
}

// Puts n's digits.
// It calls itself, as the first digit is known last.
fn put_number(buf: &mut [u8], at: usize, n: u32) -> usize
    requires { at + length (digits 10 n) ≤ length buf.old }
    ensures { Put buf.old at (digits 10 n) buf.new result }
{
    if n < 10 {
        buf[at] = b'0' + n as u8;
        at + 1
    } else {
        let last = put_number(buf, at, n / 10);
        buf[last] = b'0' + (n % 10) as u8;
        last + 1
    }
}
