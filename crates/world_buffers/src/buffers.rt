// The calls but step on a world that is kept as the numbers of a lent buffer: each writes what it changes and nothing else. A refused call leaves every
// number as it was.
ghost use Rattle.std.specs.Prelude.{◌≡◌, ◌<◌, T, length};
ghost use Rattle.game_refusals.specs.Refusals.{number_of_answer};
ghost use Rattle.map_tiles.specs.Map.{is_map};
ghost use Rattle.character.specs.Tick.{seats};
ghost use Rattle.world_numbers.specs.Encoding.{world_count};
ghost use Rattle.world_buffers.specs.Buffers.{present_in, fresh_in, tune_in, input_in, leave_in, join_at_in, join_in};

use crate::leaving::vacate_in;
use base_rows::copy;
use character::{SEATS, Slot};
use game_constants::CHARACTER_SIZE;
use game_records::{PlayerInput, input_numbers};
use game_refusals::Refusal;
use game_tuning::{TUNINGS, may_tune};
use map_tiles::{Sides, check_box, is_map};
use num_vec2::vec2;
use world_joins::{fresh, in_reach, place_of, point_of};
use world_numbers::{RECORD, WORLD, encode, is_set, present_numbers, seat_place};

pub fn fresh_in(world: &mut [i32]) -> Result<(), Refusal>
    ensures { fresh_in world.old ≡ record { number = number_of_answer result; world = world.new } }
{
    if world.len() != WORLD {
        return Err(Refusal::BadLength);
    }
    encode(fresh(), world);
    Ok(())
}

pub fn tune_in(world: &mut [i32], index: i32, value: i32) -> Result<(), Refusal>
    ensures { tune_in world.old index value ≡ record { number = number_of_answer result; world = world.new } }
{
    if world.len() != WORLD {
        return Err(Refusal::BadLength);
    }
    let at = place_of(TUNINGS, index);
    if at >= TUNINGS {
        return Err(Refusal::BadTuning);
    }
    if !may_tune(at, value) {
        return Err(Refusal::BadHold);
    }
    world[at] = value;
    Ok(())
}

// The seat of somebody who is there.
fn present_in(world: &[i32], id: i32) -> Result<usize, Refusal>
    ensures { result ≡ present_in world.now id }
{
    if world.len() != WORLD {
        return Err(Refusal::BadLength);
    }
    let at = place_of(SEATS, id);
    if at >= SEATS {
        return Err(Refusal::BadId);
    }
    if !is_set(world[seat_place(at)]) {
        return Err(Refusal::Absent);
    }
    Ok(at)
}

pub fn input_in(world: &mut [i32], id: i32, values: PlayerInput) -> Result<(), Refusal>
    ensures { input_in world.old id values ≡ record { number = number_of_answer result; world = world.new } }
{
    let at = present_in(world, id)?;
    let row = input_numbers(values);
    copy(world, seat_place(at) + RECORD, &row);
    Ok(())
}

pub fn leave_in(world: &mut [i32], id: i32) -> Result<(), Refusal>
    ensures { leave_in world.old id ≡ record { number = number_of_answer result; world = world.new } }
{
    let at = present_in(world, id)?;
    vacate_in(world, at);
    Ok(())
}

pub fn join_in(
    world: &mut [i32],
    sides: Sides,
    tiles: &[u8],
    id: i32,
    x: i32,
    y: i32,
) -> Result<(), Refusal>
    ensures { join_in sides tiles.now world.old id x y ≡ record { number = number_of_answer result; world = world.new } }
{
    if world.len() != WORLD {
        return Err(Refusal::BadLength);
    }
    if !is_map(sides, tiles) {
        return Err(Refusal::BadMap);
    }
    let at = place_of(SEATS, id);
    if at >= SEATS {
        return Err(Refusal::BadId);
    }
    if !in_reach(x) || !in_reach(y) {
        return Err(Refusal::OutOfReach);
    }
    join_at_in(world, sides, tiles, at, point_of(x, y))
}

fn join_at_in(
    world: &mut [i32],
    sides: Sides,
    tiles: &[u8],
    at: usize,
    pos: vec2,
) -> Result<(), Refusal>
    requires { (length world.old ≡ world_count) × T (is_map sides tiles.now) × (at < seats) }
    ensures { join_at_in sides tiles.now world.old at pos ≡ record { number = number_of_answer result; world = world.new } }
{
    let box_ = vec2::new(CHARACTER_SIZE, CHARACTER_SIZE);
    if check_box(sides, tiles, pos, box_) {
        return Err(Refusal::NotClear);
    }
    let place = seat_place(at);
    if is_set(world[place]) {
        return Err(Refusal::Present);
    }
    let row = present_numbers(Slot::joined(pos));
    copy(world, place, &row);
    Ok(())
}
