// The solid tiles of a map's rectangles. No world is lent, so no role is named.
ghost use Rattle.std.specs.Prelude.{◌≡◌};
ghost use Rattle.map_tiles.specs.Map.{sides_of};
ghost use Rattle.map_totals.specs.Calls.{build_in, area_in, change_in};

use crate::answers::answer_with;
use game_refusals::number_of_answer;
use map_tiles::Sides;

pub fn ponguriena_area_build(width: u32, height: u32, tiles: &[u8], totals: &mut [u32]) -> u32
    ensures { build_in (sides_of width height) tiles.now totals.old ≡ record { number = result; totals = totals.new } }
{
    number_of_answer(map_area::build(Sides { width, height }, tiles, totals))
}

pub fn ponguriena_area_count(
    width: u32,
    height: u32,
    tiles: &[u8],
    totals: &[u32],
    left: i32,
    top: i32,
    columns: i32,
    rows: i32,
    count: &mut u32,
) -> u32
    ensures { area_in (sides_of width height) tiles.now totals.now left top columns rows count.old ≡ record { number = result; count = count.new } }
{
    answer_with(
        map_area::area(
            Sides { width, height },
            tiles,
            totals,
            left,
            top,
            columns,
            rows,
        ),
        count,
    )
}

pub fn ponguriena_area_change(
    width: u32,
    height: u32,
    tiles: &mut [u8],
    totals: &mut [u32],
    column: i32,
    row: i32,
    byte: u8,
) -> u32
    ensures { change_in (sides_of width height) tiles.old totals.old column row byte ≡ record { number = result; tiles = tiles.new; totals = totals.new } }
{
    number_of_answer(map_area::change(Sides { width, height }, tiles, totals, column, row, byte))
}
