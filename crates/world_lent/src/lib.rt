// The slots of a world, lent as one slice and stepped there.
#![tactic(auto)]

ghost use Rattle.std.specs.Prelude.{◌≡◌, length};
ghost use Rattle.character.specs.Tick.{seats};
ghost use Rattle.world_lent.specs.Lent.{world_of, lent_step, told, told_of, slots_left};

use character::{SEATS, Slot};
use game_refusals::Refusal;
use game_tuning::TUNINGS;
use map_tiles::Sides;
pub use world::Records;
use world::World;
use world_step::step;

fn load(slots: &[Slot], tunings: [i32; TUNINGS]) -> World
    requires { length slots.now ≡ seats }
    ensures { result ≡ world_of slots.now tunings }
{
    let mut all = [Slot::empty(); SEATS];
    all.copy_from_slice(slots);
    World {
        slots: all,
        tunings,
    }
}

fn store(slots: &mut [Slot], world: World)
    requires { length slots.old ≡ seats }
    ensures { slots.new ≡ world.slots }
{
    slots.copy_from_slice(&world.slots);
}

// The step of a world, on lent slots. A refusal leaves them as they were.
pub fn step_lent(
    slots: &mut [Slot],
    tunings: [i32; TUNINGS],
    sides: Sides,
    tiles: &[u8],
) -> Result<Records, Refusal>
    requires { length slots.old ≡ seats }
    ensures told { told result ≡ told_of (lent_step slots.old tunings sides tiles.now) }
    ensures left { slots.new ≡ slots_left slots.old tunings sides tiles.now }
{
    let world = load(slots, tunings);
    let after = step(world, sides, tiles)?;
    let next = after.world;
    let records = after.records;
    let removed = after.removed;
    store(slots, next);
    Ok(Records { records, removed })
}
