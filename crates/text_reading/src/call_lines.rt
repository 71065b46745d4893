// Call lines of a session's text: seven values that stand for one of the five calls.
ghost use Rattle.text_reading.specs.Calls.{CallAt};

use crate::code::decode;
use crate::values::read_values;
use world::Call;

// Reads the call line that starts at `at`, with the place past it.
pub fn next_call(text: &[u8], at: usize) -> Option<(Call, usize)>
    ensures { CallAt text.now at result }
{
    let (values, next) = read_values(text, at)?;
    let call = decode(values)?;
    Some((call, next))
}
