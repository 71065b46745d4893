// What is read of a world.
ghost use Rattle.std.specs.Prelude.{◌≡◌};
ghost use Rattle.character.specs.Tick.{seats};
ghost use Rattle.world.specs.ReadAnswer.{read_answer};
ghost use Rattle.world.specs.Readers.{seated, tuning_now, read_of};

use character::{SEATS, Slot};
use game_refusals::Refusal;
use game_tuning::{TUNINGS, told_tuning};
use world::{Query, Reading, World};
use world_joins::place_of;

pub fn read(world: World, query: Query) -> Result<Reading, Refusal>
    ensures { read_answer result ≡ read_of seats world query }
{
    match query {
        Query::Record(id) => {
            let core = seated(world, id)?.character.to_net()?;
            Ok(Reading::Record(core))
        }
        Query::FloorMark(id) => Ok(Reading::FloorMark(seated(world, id)?.grounded)),
        Query::PlayerInput(id) => Ok(Reading::PlayerInput(seated(world, id)?.input)),
        Query::Tuning(index) => tuning_now(world, index),
    }
}

fn seated(world: World, id: i32) -> Result<Slot, Refusal>
    ensures { result ≡ seated seats world id }
{
    let at = place_of(SEATS, id);
    if at < SEATS {
        let slot = world.slots[at];
        if slot.present {
            return Ok(slot);
        }
        return Err(Refusal::Absent);
    }
    Err(Refusal::BadId)
}

fn tuning_now(world: World, index: i32) -> Result<Reading, Refusal>
    ensures { read_answer result ≡ tuning_now world index }
{
    let at = place_of(TUNINGS, index);
    if at < TUNINGS {
        return Ok(Reading::Tuning(told_tuning(at, world.tunings[at])));
    }
    Err(Refusal::BadTuning)
}
