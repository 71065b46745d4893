// Somebody goes from a world that is kept as numbers: every hook that holds the seat is released, and the seat has zeros.
ghost use Rattle.std.specs.Prelude.{◌≡◌, ◌<◌, length};
ghost use Rattle.character.specs.Tick.{seats};
ghost use Rattle.world.specs.Removal.{ids_in};
ghost use Rattle.world_numbers.specs.Encoding.{world_count};
ghost use Rattle.world_buffers.specs.Leaving.{is_attached, holds_in, release_in, vacate_in, ListsSeats, remove_in};

use base_rows::copy;
use character::SEATS;
use character_hook::{HOOK_ATTACHED_GRABBED, HOOK_RETRACTED};
use num_convert::cast_unsigned;
use world::Removed;
use world_joins::place_of;
use world_numbers::{HOOK, SEAT, STATE, is_set, seat_place};

fn is_attached(state: i32) -> bool
    ensures { result ≡ is_attached state }
{
    state == HOOK_ATTACHED_GRABBED
}

// Whether somebody is at a seat whose hook holds `id`.
fn holds_in(world: &[i32], seat: usize, id: usize) -> bool
    requires { (length world.now ≡ world_count) × (seat < seats) }
    ensures { result ≡ holds_in world.now seat id }
{
    let at = seat_place(seat);
    if is_set(world[at]) {
        if is_attached(world[at + STATE]) {
            return cast_unsigned(world[at + HOOK]) as usize == id;
        }
    }
    false
}

fn release_in(world: &mut [i32], id: usize)
    requires { length world.old ≡ world_count }
    ensures { world.new ≡ release_in world.old id }
{
    // Nobody is held, the state, and zeros.
    let retracted = [-1, HOOK_RETRACTED, 0, 0, 0, 0, 0];
    for j in 0..SEATS {
        if holds_in(world, j, id) {
            copy(world, seat_place(j) + HOOK, &retracted);
        }
    }
}

pub fn vacate_in(world: &mut [i32], id: usize)
    requires { (length world.old ≡ world_count) × (id < seats) }
    ensures { world.new ≡ vacate_in world.old id }
{
    release_in(world, id);
    let zeros = [0i32; SEAT];
    copy(world, seat_place(id), &zeros);
}

// Those who are listed go, one after another.
pub fn remove_in(world: &mut [i32], gone: Removed)
    requires { (length world.old ≡ world_count) × ListsSeats gone }
    ensures { world.new ≡ remove_in world.old (ids_in gone) }
{
    let count = gone.count;
    let ids = gone.ids;
    for i in 0..count {
        vacate_in(world, place_of(SEATS, ids[i]));
    }
}
