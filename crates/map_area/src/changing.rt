// A tile's byte is changed, and the totals with it.
ghost use Rattle.std.specs.Prelude.{◌≡◌, ◌*◌, ◌<◌, T, map, length};
ghost use Rattle.game_refusals.specs.Refusals.{number_of_answer};
ghost use Rattle.map_tiles.specs.Map.{is_map};
ghost use Rattle.map_totals.specs.Area.{added, changed_totals};
ghost use Rattle.map_totals.specs.Calls.{changed, change_in};

use crate::building::solid_at;
use crate::counting::is_area;
use game_refusals::Refusal;
use map_tiles::{Sides, count, is_map};
use std::num::{wrapping_add_u32, wrapping_sub_u32};

// Writes a tile's byte, and adds the change in its count to the totals that it is part of.
pub fn change(
    sides: Sides,
    tiles: &mut [u8],
    totals: &mut [u32],
    column: i32,
    row: i32,
    byte: u8,
) -> Result<(), Refusal>
    ensures { change_in sides tiles.old totals.old column row byte ≡ record { number = number_of_answer result; tiles = tiles.new; totals = totals.new } }
{
    if !is_map(sides, tiles) {
        return Err(Refusal::BadMap);
    }
    if totals.len() != tiles.len() || !is_area(sides, column, row, 1, 1) {
        return Err(Refusal::BadArea);
    }
    change_at(
        sides,
        tiles,
        totals,
        count(column) as u32,
        count(row) as u32,
        byte,
    );
    Ok(())
}

fn change_at(sides: Sides, tiles: &mut [u8], totals: &mut [u32], column: u32, row: u32, byte: u8)
    requires { T (is_map sides tiles.old) × (column < sides.width) × (row < sides.height) × (length totals.old ≡ sides.width * sides.height) }
    ensures { changed sides tiles.old totals.old column row byte ≡ record { number = 0; tiles = tiles.new; totals = totals.new } }
{
    let before = solid_at(sides, tiles, column, row);
    let at = (row * sides.width + column) as usize;
    tiles[at] = byte;
    let after = solid_at(sides, tiles, column, row);
    add_from(sides, totals, column, row, wrapping_sub_u32(after, before));
}

// Adds n to each entry whose column and row are both the tile's or greater.
fn add_from(sides: Sides, totals: &mut [u32], column: u32, row: u32, n: u32)
    requires { (column < sides.width) × (row < sides.height) × (length totals.old ≡ sides.width * sides.height) }
    ensures { totals.new ≡ changed_totals sides totals.old column row n }
{
    let width = sides.width as usize;
    let height = sides.height as usize;
    for r in row as usize..height {
        let start = r * width + column as usize;
        let end = r * width + width;
        add_all(&mut totals[start..end], n);
    }
}

fn add_all(entries: &mut [u32], n: u32)
    ensures { entries.new ≡ map (added n) entries.old }
{
    for entry in entries {
        *entry = wrapping_add_u32(*entry, n);
    }
}
