// Numbers as one word.
ghost use Rattle.std.specs.Prelude.{◌≡◌};
ghost use Rattle.test_common.specs.Digest.{mixed, mixed_first, digest_of};

use crate::lines::first;
use num_convert::cast_unsigned;

const FACTOR: u64 = 16777619;

// The largest prime below 2^32.
const MODULUS: u64 = 4294967291;

// With one number more.
pub fn mix(digest: u32, number: i32) -> u32
    ensures { result ≡ mixed digest number }
{
    let word = cast_unsigned(number);
    ((digest as u64 * FACTOR + word as u64) % MODULUS) as u32
}

pub fn digest(numbers: &[i32]) -> u32
    ensures { result ≡ digest_of numbers.now }
{
    let mut sum = 0;
    for &number in numbers {
        sum = mix(sum, number);
    }
    sum
}

// With the first `count` of some numbers more.
pub fn mix_first(digest: u32, numbers: &[i32], count: usize) -> u32
    ensures { result ≡ mixed_first count numbers.now digest }
{
    let mut sum = digest;
    for &number in first(numbers, count) {
        sum = mix(sum, number);
    }
    sum
}
