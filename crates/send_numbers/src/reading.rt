// The first thing passed along out of numbers that begin with it, and how many numbers it has. What stands behind it is not looked at.
ghost use Rattle.std.specs.Prelude.{◌≡◌, ◌^◌, ◌≤◌};
ghost use Rattle.character.specs.Tick.{seats};
ghost use Rattle.send_numbers.specs.Reading.{named, read_message, read_removal, read_leave, read_tune, read_passed};

use crate::passing::{KIND_LEAVE, KIND_MARK, KIND_MESSAGE, KIND_REMOVAL, KIND_TUNE, MESSAGE};
use character::SEATS;
use game_records::{CORE, core_of, input_of};
use game_refusals::Refusal;
use game_tuning::TUNINGS;
use send_rule::Passed;
use world_joins::place_of;

// The place out of `places` that a thing of `count` numbers names.
fn named(numbers: &[i32], count: usize, places: usize, none: Refusal) -> Result<u32, Refusal>
    requires { (2 ≤ count) × (places ≤ 2 ^ 32) }
    ensures { result ≡ named count places none numbers.now }
{
    if numbers.len() < count {
        return Err(Refusal::BadLength);
    }
    let at = place_of(places, numbers[1]);
    if at >= places {
        return Err(none);
    }
    Ok(at as u32)
}

fn read_message(numbers: &[i32]) -> Result<(Passed, usize), Refusal>
    ensures { result ≡ read_message seats numbers.now }
{
    let id = named(numbers, MESSAGE, SEATS, Refusal::BadId)?;
    let core = core_of(&numbers[2..]);
    let input = input_of(&numbers[2 + CORE..]);
    Ok((Passed::Message { id, core, input }, MESSAGE))
}

fn read_removal(numbers: &[i32]) -> Result<(Passed, usize), Refusal>
    ensures { result ≡ read_removal seats numbers.now }
{
    let id = named(numbers, 2, SEATS, Refusal::BadId)?;
    Ok((Passed::Removal { id }, 2))
}

fn read_leave(numbers: &[i32]) -> Result<(Passed, usize), Refusal>
    ensures { result ≡ read_leave seats numbers.now }
{
    let id = named(numbers, 2, SEATS, Refusal::BadId)?;
    Ok((Passed::Leave { id }, 2))
}

fn read_tune(numbers: &[i32]) -> Result<(Passed, usize), Refusal>
    ensures { result ≡ read_tune numbers.now }
{
    let index = named(numbers, 3, TUNINGS, Refusal::BadTuning)?;
    let value = numbers[2];
    Ok((Passed::Tune { index, value }, 3))
}

pub fn read_passed(numbers: &[i32]) -> Result<(Passed, usize), Refusal>
    ensures { result ≡ read_passed seats numbers.now }
{
    if numbers.is_empty() {
        return Err(Refusal::BadLength);
    }
    let kind = numbers[0];
    match kind {
        KIND_MARK => Ok((Passed::Mark, 1)),
        KIND_MESSAGE => read_message(numbers),
        KIND_REMOVAL => read_removal(numbers),
        KIND_LEAVE => read_leave(numbers),
        KIND_TUNE => read_tune(numbers),
        _ => Err(Refusal::BadLength),
    }
}
