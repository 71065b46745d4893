// Decimal numbers in a text, each ended by a given byte.
#![tactic(auto)]

mod signed;
mod unsigned;

ghost use Rattle.std.specs.Prelude.{◌≡◌};
ghost use Rattle.text_decimal.specs.Lines.{end_byte};

pub use signed::read_value;
pub use unsigned::read_number;

// The byte that ends a value with `left` values of its line still to come.
pub fn end_byte(left: usize) -> u8
    ensures { result ≡ end_byte left }
{
    if left == 0 { b'\n' } else { b' ' }
}
