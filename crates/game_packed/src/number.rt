// One packed whole number: six bits and the sign in its first byte, seven in each later one, and in each whether more follows.
ghost use Rattle.std.specs.Prelude.{◌≡◌, ◌+◌, ◌-◌, ◌^◌, ◌≤◌, ◌<◌, length, drop};
ghost use Rattle.base_rows.specs.Put.{put};
ghost use Rattle.game_packed.specs.Packed.{kept, sign_bit, more_bit, most_later, int_bytes};
ghost use Rattle.game_packed.specs.Unpacked.{signed, is_wrong, later_read, int_read};

use game_refusals::Refusal;

// The most bytes of a number after its first one.
const MOST_LATER: usize = 4;

// The most bytes of a number.
pub const MOST_INT: usize = 1 + MOST_LATER;

// A negative n is kept as -1 - n.
fn kept(z: i32) -> u32
    ensures { result ≡ kept z }
{
    if z < 0 { (-1 - z) as u32 } else { z as u32 }
}

fn sign_bit(z: i32) -> u32
    ensures { result ≡ sign_bit z }
{
    if z < 0 { 64 } else { 0 }
}

// More follows where anything is left.
fn more_bit(left: u32) -> u32
    ensures { result ≡ more_bit left }
{
    if left == 0 { 0 } else { 128 }
}

// Puts a number's bytes into buf from `at` on, and answers the place past them.
// A `while`: how many bytes there are is known when nothing of the number is left.
pub fn put_int(buf: &mut [u8], at: usize, z: i32) -> usize
    requires { at + (1 + most_later) ≤ length buf.old }
    ensures { (buf.new ≡ put buf.old at (int_bytes z)) × (result ≡ at + length (int_bytes z)) }
{
    let m = kept(z);
    let mut left = m / 64;
    buf[at] = (m % 64 + sign_bit(z) + more_bit(left)) as u8;
    let mut next = at + 1;
    while left != 0 {
        let rest = left / 128;
        buf[next] = (left % 128 + more_bit(rest)) as u8;
        left = rest;
        next += 1;
    }
    next
}

// The number whose value m is kept.
fn signed(negative: bool, m: u32) -> i32
    requires { m < 2 ^ 31 }
    ensures { result ≡ signed negative m }
{
    if negative { -1 - m as i32 } else { m as i32 }
}

// Reads the number that starts at `at`, and answers it with the place past it.
pub fn read_int(bytes: &[u8], at: usize) -> Result<(i32, usize), Refusal>
    ensures { result ≡ int_read (drop at bytes.now) at }
{
    let first = u32::from(*bytes.get(at).ok_or(Refusal::BytesEnd)?);
    let negative = first / 64 % 2 == 1;
    let value = first % 64;
    if first < 128 {
        Ok((signed(negative, value), at + 1))
    } else {
        read_later(&bytes[at + 1..], at + 1, negative, value)
    }
}

// A last byte with nothing in it, or a fifth one with a bit above the lowest four.
fn is_wrong(left: usize, b: u32) -> bool
    ensures { result ≡ is_wrong left b }
{
    b == 0 || (left == 0 && 16 <= b)
}

// Reads a number's later bytes, which stand from `at` on, and answers the number with the place past it.
fn read_later(later: &[u8], at: usize, negative: bool, first: u32) -> Result<(i32, usize), Refusal>
    requires small { first < 64 }
    requires room { at + length later.now < 2 ^ 64 }
    ensures { result ≡ later_read negative (most_later - 1) later.now at first 64 }
{
    let mut value = first;
    let mut scale = 64;
    for (i, byte) in later.iter().enumerate() {
        let b = u32::from(*byte);
        let left = MOST_LATER - 1 - i;
        if is_wrong(left, b) {
            return Err(Refusal::BadBytes);
        }
        if b < 128 {
            return Ok((signed(negative, value + b * scale), at + i + 1));
        }
        value += b % 128 * scale;
        scale *= 128;
    }
    Err(Refusal::BytesEnd)
}
