// Running totals of the solid tiles over rows and columns, in one pass.
ghost use Rattle.std.specs.Prelude.{◌≡◌, suc, ◌*◌, ◌<◌, T, length, take};
ghost use Rattle.game_refusals.specs.Refusals.{number_of_answer};
ghost use Rattle.map_tiles.specs.Map.{is_map};
ghost use Rattle.map_totals.specs.Area.{solid_at, totals_of};
ghost use Rattle.map_totals.specs.Calls.{build_in};

use crate::counting::entry_at;
use game_refusals::Refusal;
use map_tiles::{Sides, is_map, is_solid_at};

// Builds the totals of a map in a lent buffer, which has one entry for each tile.
pub fn build(sides: Sides, tiles: &[u8], totals: &mut [u32]) -> Result<(), Refusal>
    ensures { build_in sides tiles.now totals.old ≡ record { number = number_of_answer result; totals = totals.new } }
{
    if !is_map(sides, tiles) {
        return Err(Refusal::BadMap);
    }
    if totals.len() != tiles.len() {
        return Err(Refusal::BadArea);
    }
    total_rows(sides, tiles, totals);
    Ok(())
}

fn total_rows(sides: Sides, tiles: &[u8], totals: &mut [u32])
    requires { T (is_map sides tiles.now) × (length totals.old ≡ sides.width * sides.height) }
    ensures { totals.new ≡ totals_of sides tiles.now }
{
    for row in 0..sides.height {
        total_row(sides, tiles, totals, row);
    }
}

// The totals of one row, where those of the rows above it are there: the row's running sum and the entry above.
fn total_row(sides: Sides, tiles: &[u8], totals: &mut [u32], row: u32)
    requires { T (is_map sides tiles.now) × (row < sides.height) × (length totals.old ≡ sides.width * sides.height) × (take (row * sides.width) totals.old ≡ take (row * sides.width) (totals_of sides tiles.now)) }
    ensures { take (suc row * sides.width) totals.new ≡ take (suc row * sides.width) (totals_of sides tiles.now) }
{
    let width = sides.width;
    let start = (row * width) as usize;
    let mut run: u32 = 0;
    for column in 0..width {
        let at = start + column as usize;
        run += solid_at(sides, tiles, column, row);
        totals[at] = run + entry_at(sides, totals, column as usize + 1, row as usize);
    }
}

// A solid tile counts 1, any other 0.
pub fn solid_at(sides: Sides, tiles: &[u8], column: u32, row: u32) -> u32
    requires { T (is_map sides tiles.now) × (column < sides.width) × (row < sides.height) }
    ensures { result ≡ solid_at sides tiles.now column row }
{
    is_solid_at(sides, tiles, column, row) as u32
}
