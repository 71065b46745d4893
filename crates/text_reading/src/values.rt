// The seven values of a line.
ghost use Rattle.text_reading.specs.Parts.{ValuesAt};

use text_decimal::{end_byte, read_value};

// Reads a line of seven values, with the place past it.
pub fn read_values(text: &[u8], at: usize) -> Option<([i32; 7], usize)>
    ensures { ValuesAt text.now at result }
{
    let mut values = [0i32; 7];
    let mut place = at;
    for (i, value) in values.iter_mut().enumerate() {
        let (z, next) = read_value(text, place, end_byte(6 - i))?;
        *value = z;
        place = next;
    }
    Some((values, place))
}
