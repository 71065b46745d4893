// The count of a rectangle from four entries of the totals.
ghost use Rattle.std.specs.Prelude.{◌≡◌, ℕ, ◌+◌, ◌*◌, ◌≤◌, length};
ghost use Rattle.std.specs.Result.{result_unwrap_or};
ghost use Rattle.game_refusals.specs.Refusals.{number_of_answer};
ghost use Rattle.map_totals.specs.Area.{entry_at, count_in};
ghost use Rattle.map_totals.specs.Calls.{is_span, is_area, area_in};

use game_refusals::Refusal;
use map_tiles::{Sides, count as whole, is_map};
use std::num::{wrapping_add_u32, wrapping_sub_u32};

// Counts the solid tiles of a rectangle.
pub fn area(
    sides: Sides,
    tiles: &[u8],
    totals: &[u32],
    left: i32,
    top: i32,
    columns: i32,
    rows: i32,
) -> Result<u32, Refusal>
    ensures { (k : ℕ) → area_in sides tiles.now totals.now left top columns rows k ≡ record { number = number_of_answer result; count = result_unwrap_or result k } }
{
    if !is_map(sides, tiles) {
        return Err(Refusal::BadMap);
    }
    if totals.len() != tiles.len() || !is_area(sides, left, top, columns, rows) {
        return Err(Refusal::BadArea);
    }
    Ok(count_in(
        sides,
        totals,
        whole(left) as usize,
        whole(top) as usize,
        whole(columns) as usize,
        whole(rows) as usize,
    ))
}

// Whether a rectangle has tiles, and none outside the map.
pub fn is_area(sides: Sides, left: i32, top: i32, columns: i32, rows: i32) -> bool
    ensures { result ≡ is_area sides left top columns rows }
{
    is_span(left, columns, sides.width) && is_span(top, rows, sides.height)
}

// The end is computed in 64 bits, where it does not wrap.
fn is_span(from: i32, n: i32, side: u32) -> bool
    ensures { result ≡ is_span from n side }
{
    from >= 0 && n >= 1 && whole(from) + whole(n) <= side as u64
}

// The sum and difference of four entries: where the rectangle ends, beside it, above it, and both.
fn count_in(
    sides: Sides,
    totals: &[u32],
    left: usize,
    top: usize,
    columns: usize,
    rows: usize,
) -> u32
    requires { (left + columns ≤ sides.width) × (top + rows ≤ sides.height) × (length totals.now ≡ sides.width * sides.height) }
    ensures { result ≡ count_in sides totals.now left top columns rows }
{
    let right = left + columns;
    let bottom = top + rows;
    let all = entry_at(sides, totals, right, bottom);
    let beside = entry_at(sides, totals, left, bottom);
    let above = entry_at(sides, totals, right, top);
    let both = entry_at(sides, totals, left, top);
    wrapping_add_u32(wrapping_sub_u32(wrapping_sub_u32(all, beside), above), both)
}

// The entry where so many columns and rows end; 0 where there are none.
pub fn entry_at(sides: Sides, totals: &[u32], columns: usize, rows: usize) -> u32
    requires { (columns ≤ sides.width) × (rows ≤ sides.height) × (length totals.now ≡ sides.width * sides.height) }
    ensures { result ≡ entry_at sides totals.now columns rows }
{
    if columns == 0 || rows == 0 {
        return 0;
    }
    totals[(rows - 1) * sides.width as usize + (columns - 1)]
}
