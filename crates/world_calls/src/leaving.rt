// Somebody goes: every hook that holds the seat is released, and the slot is as every fresh one.
ghost use Rattle.std.specs.Prelude.{◌≡◌, ◌<◌};
ghost use Rattle.character.specs.Tick.{seats};
ghost use Rattle.world.specs.Calls.{released_slot, release, vacate};

use character::{SEATS, Slot};
use character_hook::Hook;
use world::World;
use world_joins::with_slot;

pub fn vacate(world: &mut World, at: usize)
    requires { at < seats }
    ensures { world.new ≡ vacate world.old at }
{
    *world = release(*world, at);
    with_slot(world, at, Slot::empty());
}

fn release(mut world: World, at: usize) -> World
    ensures { result ≡ release world at }
{
    for j in 0..SEATS {
        let slot = world.slots[j];
        world.slots[j] = released(slot, at);
    }
    world
}

// A slot whose hook holds the seat, with the hook Retracted; any other stays.
fn released(slot: Slot, at: usize) -> Slot
    ensures { result ≡ released_slot slot at }
{
    let character = slot.character;
    let hook = character.hook;
    let Hook::Grabbed(cid, _) = hook else {
        return slot;
    };
    if cid.0 as usize != at {
        return slot;
    }
    slot.with_character(character.with_hook(Hook::Retracted))
}
