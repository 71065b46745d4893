// What is read of a world that is kept as the numbers of a lent buffer. A refused call leaves every number of the reader's buffer as it was.
ghost use Rattle.std.specs.Prelude.{[], ◌∷◌, ◌≡◌, ℤ, length};
ghost use Rattle.std.specs.Result.{result_unwrap_or};
ghost use Rattle.game_refusals.specs.Refusals.{number_of_answer};
ghost use Rattle.character.specs.Tick.{seats};
ghost use Rattle.world.specs.Readers.{seated};
ghost use Rattle.world.specs.declared.reading.Query.TheVariants as query;
ghost use Rattle.world_numbers.specs.Encoding.{world_count};
ghost use Rattle.world_numbers.specs.Decoding.{decoding};
ghost use Rattle.world_buffers.specs.Readers.{read_in};

use base_rows::copy;
use character::{SEATS, Slot};
use game_records::{CORE, INPUT, core_numbers, input_numbers};
use game_refusals::Refusal;
use game_tuning::{TUNINGS, told_tuning};
use world_joins::place_of;
use world_numbers::{WORLD, flag, seat_at};

pub fn record_in(world: &[i32], id: i32, record: &mut [i32]) -> Result<(), Refusal>
    ensures { read_in (query.Record id) world.now «record».old ≡ record { number = number_of_answer result; numbers = «record».new } }
{
    if world.len() != WORLD || record.len() != CORE {
        return Err(Refusal::BadLength);
    }
    let core = seated_in(world, id)?.character.to_net()?;
    let row = core_numbers(core);
    copy(record, 0, &row);
    Ok(())
}

pub fn player_input_in(world: &[i32], id: i32, input: &mut [i32]) -> Result<(), Refusal>
    ensures { read_in (query.PlayerInput id) world.now input.old ≡ record { number = number_of_answer result; numbers = input.new } }
{
    if world.len() != WORLD || input.len() != INPUT {
        return Err(Refusal::BadLength);
    }
    let slot = seated_in(world, id)?;
    let row = input_numbers(slot.input);
    copy(input, 0, &row);
    Ok(())
}

pub fn floor_mark_in(world: &[i32], id: i32) -> Result<i32, Refusal>
    ensures { (z : ℤ) → read_in (query.FloorMark id) world.now (z ∷ []) ≡ record { number = number_of_answer result; numbers = result_unwrap_or result z ∷ [] } }
{
    if world.len() != WORLD {
        return Err(Refusal::BadLength);
    }
    let slot = seated_in(world, id)?;
    Ok(flag(slot.grounded))
}

pub fn tuning_in(world: &[i32], index: i32) -> Result<i32, Refusal>
    ensures { (z : ℤ) → read_in (query.Tuning index) world.now (z ∷ []) ≡ record { number = number_of_answer result; numbers = result_unwrap_or result z ∷ [] } }
{
    if world.len() != WORLD {
        return Err(Refusal::BadLength);
    }
    let at = place_of(TUNINGS, index);
    if at >= TUNINGS {
        return Err(Refusal::BadTuning);
    }
    Ok(told_tuning(at, world[at]))
}

// Who is at an id of the world that the numbers stand for.
pub fn seated_in(world: &[i32], id: i32) -> Result<Slot, Refusal>
    requires { length world.now ≡ world_count }
    ensures { result ≡ seated seats (decoding seats world.now) id }
{
    let at = place_of(SEATS, id);
    if at >= SEATS {
        return Err(Refusal::BadId);
    }
    let slot = seat_at(world, at);
    if !slot.present {
        return Err(Refusal::Absent);
    }
    Ok(slot)
}
