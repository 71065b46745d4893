// How C programs are answered by a call that has a value besides its number.
ghost use Rattle.std.specs.Prelude.{◌≡◌};
ghost use Rattle.std.specs.Result.{result_unwrap_or};
ghost use Rattle.game_refusals.specs.Refusals.{number_of_answer};

use game_refusals::Refusal;

// The value goes to its place where the call was accepted; a refused one leaves what is there.
pub fn answer_with<T: Copy>(answer: Result<T, Refusal>, place: &mut T) -> u32
    ensures { (result ≡ number_of_answer answer) × (place.new ≡ result_unwrap_or answer place.old) }
{
    match answer {
        Ok(value) => {
            *place = value;
            0
        }
        Err(refusal) => refusal.into(),
    }
}
