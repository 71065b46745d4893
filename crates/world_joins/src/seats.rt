// A world's seats: which one a number names, one read and set; and a fresh world.
ghost use Rattle.std.specs.Prelude.{◌≡◌, ◌<◌};
ghost use Rattle.character.specs.Tick.{seats, slot_at};
ghost use Rattle.world.specs.World.{fresh, with_slot};
ghost use Rattle.world.specs.Calls.{place_of};

use character::{SEATS, Slot};
use game_tuning::fresh_tunings;
use world::World;

pub fn fresh() -> World
    ensures { result ≡ fresh seats }
{
    World {
        slots: [Slot::empty(); SEATS],
        tunings: fresh_tunings(),
    }
}

// Which of `count` places z names; `count` where it names none.
pub fn place_of(count: usize, z: i32) -> usize
    ensures { result ≡ place_of count z }
{
    if z < 0 {
        return count;
    }
    let k = z as usize;
    if k < count { k } else { count }
}

pub fn slot_at(world: World, id: usize) -> Slot
    requires { id < seats }
    ensures { result ≡ slot_at world.slots id }
{
    let slots = world.slots;
    slots[id]
}

pub fn with_slot(world: &mut World, at: usize, slot: Slot)
    requires { at < seats }
    ensures { world.new ≡ with_slot world.old at slot }
{
    world.slots[at] = slot;
}
