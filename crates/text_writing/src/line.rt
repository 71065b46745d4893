// Lines of values, and bytes as they are.
ghost use Rattle.std.specs.Prelude.{◌+◌, ◌*◌, ◌≤◌, length};
ghost use Rattle.text_decimal.specs.Lines.{line};
ghost use Rattle.text_writing.specs.Put.{Put};

use crate::value::put_value;
use text_decimal::end_byte;

pub fn put_line(buf: &mut [u8], at: usize, values: &[i32]) -> usize
    requires { at + 12 * length values.now ≤ length buf.old }
    ensures { Put buf.old at (line values.now) buf.new result }
{
    let mut next = at;
    for (i, &z) in values.iter().enumerate() {
        let end = put_value(buf, next, z);
        buf[end] = end_byte(values.len() - 1 - i);
        next = end + 1;
    }
    next
}

pub fn put_bytes(buf: &mut [u8], at: usize, bytes: &[u8]) -> usize
    requires { at + length bytes.now ≤ length buf.old }
    ensures { Put buf.old at bytes.now buf.new result }
{
    let next = at + bytes.len();
    buf[at..next].copy_from_slice(bytes);
    next
}
