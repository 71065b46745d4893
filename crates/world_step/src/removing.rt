// The end of a step: the records are taken, and whoever has a corner on a deadly tile is removed as by a leave.
ghost use Rattle.std.specs.Prelude.{[], ◌≡◌, T};
ghost use Rattle.map_tiles.specs.Map.{is_map};
ghost use Rattle.character.specs.Tick.{seats};
ghost use Rattle.world.specs.Removal.{dying, remove_all, listed};

use character::SEATS;
use map_tiles::{Sides, on_deadly};
use world::{Removed, World};
use world_calls::vacate;

pub fn nobody() -> Removed
    ensures { result ≡ listed seats [] }
{
    Removed {
        count: 0,
        ids: [0; SEATS],
    }
}

// The world is left without those who are removed. Where somebody stands is not changed by who was removed before.
pub fn remove_dying(world: &mut World, sides: Sides, tiles: &[u8]) -> Removed
    requires { T (is_map sides tiles.now) }
    ensures { (world.new ≡ remove_all world.old (dying seats sides tiles.now world.old.slots)) × (result ≡ listed seats (dying seats sides tiles.now world.old.slots)) }
{
    let slots = world.slots;
    let mut ids = [0i32; SEATS];
    let mut count = 0usize;
    for j in 0..SEATS {
        let slot = slots[j];
        if slot.present {
            let me = slot.character;
            if on_deadly(sides, tiles, me.pos) {
                vacate(world, j);
                ids[count] = j as i32;
                count += 1;
            }
        }
    }
    Removed { count, ids }
}
