// The ticks and moves of a step, out of a world's numbers.
ghost use Rattle.std.specs.Prelude.{◌≡◌, T, length};
ghost use Rattle.map_tiles.specs.Map.{is_map};
ghost use Rattle.character.specs.Tick.{seats};
ghost use Rattle.world_numbers.specs.Encoding.{world_count};
ghost use Rattle.world_numbers.specs.Decoding.{decoding};
ghost use Rattle.world_inplace.specs.Bodies.{Blank};
ghost use Rattle.world_inplace.specs.Advance.{Room, advanced, AdvanceDone};

use crate::moving::move_seats;
use crate::reading::read_bodies;
use crate::ticking::tick_seats;
use character::SEATS;
use game_refusals::Refusal;
use game_tuning::tuning_of;
use map_tiles::Sides;
use world_numbers::tunings_of;

// All tick, then all move: who is then where, the records' rows and the floor marks. Refused where one is too far.
pub fn advance(
    numbers: &[i32],
    sides: Sides,
    tiles: &[u8],
    present: &mut [bool; SEATS],
    xs: &mut [f32; SEATS],
    ys: &mut [f32; SEATS],
    rows: &mut [i32],
    marks: &mut [bool; SEATS],
) -> Result<(), Refusal>
    requires { T (is_map sides tiles.now) × (length numbers.now ≡ world_count) × Blank rows.old marks.old × Room present.old xs.old ys.old }
    ensures { AdvanceDone result (advanced (decoding seats numbers.now) sides tiles.now) present.new xs.new ys.new rows.new marks.new }
{
    let mut vxs = [0.0f32; SEATS];
    let mut vys = [0.0f32; SEATS];
    read_bodies(numbers, present, xs, ys, &mut vxs, &mut vys);
    let tuning = tuning_of(tunings_of(numbers));
    tick_seats(
        numbers, present, xs, ys, &mut vxs, &mut vys, rows, marks, sides, tiles, tuning,
    )?;
    move_seats(present, xs, ys, &vxs, &vys, rows, sides, tiles, tuning)
}
