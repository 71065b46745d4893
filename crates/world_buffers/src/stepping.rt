// Step on a world that is kept as the numbers of a lent buffer, over plain arrays: no slot is made but for the tick of whoever is there. A refused one leaves
// every number of every buffer as it was.
ghost use Rattle.std.specs.Prelude.{◌≡◌, ℕ, T, length};
ghost use Rattle.std.specs.Result.{result_unwrap_or};
ghost use Rattle.game_refusals.specs.Refusals.{number_of_answer};
ghost use Rattle.map_tiles.specs.Map.{is_map};
ghost use Rattle.character.specs.Places.{Among};
ghost use Rattle.character.specs.Tick.{seats};
ghost use Rattle.world.specs.Step.{step_on};
ghost use Rattle.world_numbers.specs.Encoding.{world_count, records_count};
ghost use Rattle.world_numbers.specs.Decoding.{decoding};
ghost use Rattle.world_buffers.specs.Stepping.{DyingOf, left_by_step, step_in};

use crate::telling::tell_step;
use character::SEATS;
use game_refusals::Refusal;
use map_tiles::{Sides, is_map, on_deadly};
use num_vec2::vec2;
use world::Removed;
use world_inplace::advance;
use world_numbers::{RECORDS, WORLD};

// Who has a corner on a deadly tile, by rising id; they lose their floor marks.
fn list_dying(
    present: &[bool; SEATS],
    xs: &[f32; SEATS],
    ys: &[f32; SEATS],
    marks: &mut [bool; SEATS],
    sides: Sides,
    tiles: &[u8],
) -> Removed
    requires { T (is_map sides tiles.now) × (length marks.old ≡ seats) }
    ensures { Among seats present.now xs.now ys.now (λ ss. DyingOf sides tiles.now ss marks.old result marks.new) }
{
    let mut ids = [0i32; SEATS];
    let mut count = 0usize;
    for j in 0..SEATS {
        if present[j] {
            let place = vec2::new(xs[j], ys[j]);
            if on_deadly(sides, tiles, place) {
                ids[count] = j as i32;
                count += 1;
                marks[j] = false;
            }
        }
    }
    Removed { count, ids }
}

// On a map that is one.
fn step_on_in(
    world: &mut [i32],
    sides: Sides,
    tiles: &[u8],
    records: &mut [i32],
    removed: &mut [i32],
) -> Result<usize, Refusal>
    requires { T (is_map sides tiles.now) × (length world.old ≡ world_count) × (length records.old ≡ records_count) × (length removed.old ≡ seats) }
    ensures { (n : ℕ) → left_by_step world.old (record { records = records.entry.now; removed = removed.old; count = n }) (step_on seats (decoding seats world.old) sides tiles.now) ≡ record { number = number_of_answer result; world = world.new; told = record { records = records.exit.now; removed = removed.new; count = result_unwrap_or result n } } }
{
    let mut present = [false; SEATS];
    let mut xs = [0.0f32; SEATS];
    let mut ys = [0.0f32; SEATS];
    let mut rows = [0i32; RECORDS];
    let mut marks = [false; SEATS];
    advance(
        world,
        sides,
        tiles,
        &mut present,
        &mut xs,
        &mut ys,
        &mut rows,
        &mut marks,
    )?;
    let gone = list_dying(&present, &xs, &ys, &mut marks, sides, tiles);
    tell_step(&rows, &marks, gone, world, records, removed);
    Ok(gone.count)
}

pub fn step_in(
    world: &mut [i32],
    sides: Sides,
    tiles: &[u8],
    records: &mut [i32],
    removed: &mut [i32],
) -> Result<usize, Refusal>
    ensures { (n : ℕ) → step_in sides tiles.now world.old (record { records = records.entry.now; removed = removed.old; count = n }) ≡ record { number = number_of_answer result; world = world.new; told = record { records = records.exit.now; removed = removed.new; count = result_unwrap_or result n } } }
{
    if world.len() != WORLD || records.len() != RECORDS || removed.len() != SEATS {
        return Err(Refusal::BadLength);
    }
    if !is_map(sides, tiles) {
        return Err(Refusal::BadMap);
    }
    step_on_in(world, sides, tiles, records, removed)
}
