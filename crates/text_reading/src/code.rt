// Which call seven values stand for.
ghost use Rattle.text_reading.specs.Parts.{DecodedAs};

use world::Call;

// The call that has these values: its code, its arguments in their order, and 0 for each spare one.
#[tactic(auto, using(crate::proofs::Codes::shape), unfolding(crate::specs::Parts::DecodedAs))]
pub fn decode(values: [i32; 7]) -> Option<Call>
    ensures { DecodedAs values result }
{
    match values {
        [1, id, x, y, 0, 0, 0] => Some(Call::Join { id, x, y }),
        [2, id, 0, 0, 0, 0, 0] => Some(Call::Leave { id }),
        [3, id, direction, target_x, target_y, jump, hook] => Some(Call::Input {
            id,
            direction,
            target_x,
            target_y,
            jump,
            hook,
        }),
        [4, 0, 0, 0, 0, 0, 0] => Some(Call::Step),
        [5, index, value, 0, 0, 0, 0] => Some(Call::Tune { index, value }),
        _ => None,
    }
}
