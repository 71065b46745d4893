// The calls of a world that need no map: leave, input and tune.
ghost use Rattle.std.specs.Prelude.{◌≡◌, ◌<◌};
ghost use Rattle.character.specs.Tick.{seats};
ghost use Rattle.game_tuning.specs.Tuning.{tuning_count};
ghost use Rattle.world.specs.World.{with_tuning};
ghost use Rattle.world.specs.Answered.{answered};
ghost use Rattle.world.specs.Calls.{leave, input, tune};

use crate::leaving::vacate;
use character::SEATS;
use game_records::PlayerInput;
use game_refusals::Refusal;
use game_tuning::{TUNINGS, may_tune};
use world::World;
use world_joins::{place_of, with_slot};

pub fn leave(world: &mut World, id: i32) -> Result<(), Refusal>
    ensures { answered world.new result ≡ leave seats world.old id }
{
    let at = place_of(SEATS, id);
    if at < SEATS {
        let slot = world.slots[at];
        if slot.present {
            vacate(world, at);
            return Ok(());
        }
        return Err(Refusal::Absent);
    }
    Err(Refusal::BadId)
}

pub fn input(world: &mut World, id: i32, values: PlayerInput) -> Result<(), Refusal>
    ensures { answered world.new result ≡ input seats world.old id values }
{
    let at = place_of(SEATS, id);
    if at < SEATS {
        let mut slot = world.slots[at];
        if slot.present {
            slot = slot.with_input(values);
            with_slot(world, at, slot);
            return Ok(());
        }
        return Err(Refusal::Absent);
    }
    Err(Refusal::BadId)
}

pub fn tune(world: &mut World, index: i32, value: i32) -> Result<(), Refusal>
    ensures { answered world.new result ≡ tune world.old index value }
{
    let at = place_of(TUNINGS, index);
    if at < TUNINGS {
        if may_tune(at, value) {
            with_tuning(world, at, value);
            return Ok(());
        }
        return Err(Refusal::BadHold);
    }
    Err(Refusal::BadTuning)
}

fn with_tuning(world: &mut World, at: usize, value: i32)
    requires { at < tuning_count }
    ensures { world.new ≡ with_tuning world.old at value }
{
    world.tunings[at] = value;
}
