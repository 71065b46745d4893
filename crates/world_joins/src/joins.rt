// Join: somebody takes a seat.
ghost use Rattle.std.specs.Prelude.{◌≡◌, T, ◌<◌};
ghost use Rattle.map_tiles.specs.Map.{is_map};
ghost use Rattle.character.specs.Tick.{seats};
ghost use Rattle.world.specs.Answered.{answered};
ghost use Rattle.world.specs.Calls.{is_in_reach, point_of, join_at, join};

use crate::seats::{place_of, with_slot};
use character::{SEATS, Slot};
use game_constants::CHARACTER_SIZE;
use game_refusals::Refusal;
use map_tiles::{Sides, check_box, is_map};
use num_convert::i32_to_f32;
use num_vec2::vec2;
use world::World;

pub fn in_reach(z: i32) -> bool
    ensures { result ≡ is_in_reach z }
{
    -100000 <= z && z <= 100000
}

// Whole coordinates as a pair of floats.
pub fn point_of(x: i32, y: i32) -> vec2
    ensures { result ≡ point_of x y }
{
    vec2::new(i32_to_f32(x), i32_to_f32(y))
}

pub fn join(
    world: &mut World,
    sides: Sides,
    tiles: &[u8],
    id: i32,
    x: i32,
    y: i32,
) -> Result<(), Refusal>
    ensures { answered world.new result ≡ join seats world.old sides tiles.now id x y }
{
    if is_map(sides, tiles) {
        let at = place_of(SEATS, id);
        if at < SEATS {
            if in_reach(x) && in_reach(y) {
                return join_at(world, sides, tiles, at, point_of(x, y));
            }
            return Err(Refusal::OutOfReach);
        }
        return Err(Refusal::BadId);
    }
    Err(Refusal::BadMap)
}

fn join_at(
    world: &mut World,
    sides: Sides,
    tiles: &[u8],
    at: usize,
    pos: vec2,
) -> Result<(), Refusal>
    requires { T (is_map sides tiles.now) × (at < seats) }
    ensures { answered world.new result ≡ join_at world.old sides tiles.now at pos }
{
    let box_ = vec2::new(CHARACTER_SIZE, CHARACTER_SIZE);
    if check_box(sides, tiles, pos, box_) {
        return Err(Refusal::NotClear);
    }
    let slot = world.slots[at];
    if slot.present {
        return Err(Refusal::Present);
    }
    with_slot(world, at, Slot::joined(pos));
    Ok(())
}
