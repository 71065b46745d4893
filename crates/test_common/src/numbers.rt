// Rows of numbers as words.
ghost use Rattle.std.specs.Prelude.{◌≡◌, true};
ghost use Rattle.test_common.specs.Words.{numbers_in, AreNumbers};

use crate::vectors::{is_int, nth};
use num_convert::cast_signed;

// Reads the word with the number i to the place i.
pub fn read_numbers(words: &[u8], numbers: &mut [i32])
    ensures { numbers.new ≡ numbers_in words.now numbers.old }
{
    for (i, number) in numbers.iter_mut().enumerate() {
        *number = cast_signed(nth(words, i));
    }
}

pub fn are_numbers(numbers: &[i32], words: &[u8]) -> bool
    ensures { result ≡ true → AreNumbers words.now numbers.now }
{
    for (i, &number) in numbers.iter().enumerate() {
        if !is_int(number, nth(words, i)) {
            return false;
        }
    }
    true
}
