// A box on the map.
ghost use Rattle.std.specs.Prelude.{◌≡◌, T, ◌<◌};
ghost use Rattle.map_tiles.specs.Map.{is_map, tile_in, solid, deadly};
ghost use Rattle.map_tiles.specs.Box.{check_box, on_deadly, corner_tiles};

use crate::point::{tile_at, tile_in};
use crate::tiles::Sides;
use num_vec2::vec2;

// Whether a corner is on a solid tile. The four corners have two columns and two rows between them.
pub fn check_box(sides: Sides, tiles: &[u8], pos: vec2, box_: vec2) -> bool
    requires { T (is_map sides tiles.now) }
    ensures { result ≡ check_box sides tiles.now pos box_ }
{
    let half = box_ * 0.5;
    let right = tile_at(pos.x + half.x, sides.width);
    let left = tile_at(pos.x - half.x, sides.width);
    let bottom = tile_at(pos.y + half.y, sides.height);
    let top = tile_at(pos.y - half.y, sides.height);
    solid_corners(sides, tiles, left, right, top, bottom)
}

// The same by the columns and rows of the corners.
fn solid_corners(sides: Sides, tiles: &[u8], left: u32, right: u32, top: u32, bottom: u32) -> bool
    requires { T (is_map sides tiles.now) × (left < sides.width) × (right < sides.width) × (top < sides.height) × (bottom < sides.height) }
    ensures { result ≡ corner_tiles solid sides tiles.now left right top bottom }
{
    if is_solid_at(sides, tiles, right, bottom) {
        return true;
    }
    if is_solid_at(sides, tiles, left, top) {
        return true;
    }
    if is_solid_at(sides, tiles, right, top) {
        return true;
    }
    is_solid_at(sides, tiles, left, bottom)
}

pub fn is_solid_at(sides: Sides, tiles: &[u8], column: u32, row: u32) -> bool
    requires { T (is_map sides tiles.now) × (column < sides.width) × (row < sides.height) }
    ensures { result ≡ solid (tile_in sides tiles.now column row) }
{
    tile_in(sides, tiles, column, row).is_solid()
}

// Whether a corner of a character's box is on a deadly tile.
pub fn on_deadly(sides: Sides, tiles: &[u8], pos: vec2) -> bool
    requires { T (is_map sides tiles.now) }
    ensures { result ≡ on_deadly sides tiles.now pos }
{
    let right = tile_at(pos.x + 14.0, sides.width);
    let left = tile_at(pos.x - 14.0, sides.width);
    let bottom = tile_at(pos.y + 14.0, sides.height);
    let top = tile_at(pos.y - 14.0, sides.height);
    if is_deadly_at(sides, tiles, right, bottom) {
        return true;
    }
    if is_deadly_at(sides, tiles, left, top) {
        return true;
    }
    if is_deadly_at(sides, tiles, right, top) {
        return true;
    }
    is_deadly_at(sides, tiles, left, bottom)
}

fn is_deadly_at(sides: Sides, tiles: &[u8], column: u32, row: u32) -> bool
    requires { T (is_map sides tiles.now) × (column < sides.width) × (row < sides.height) }
    ensures { result ≡ deadly (tile_in sides tiles.now column row) }
{
    tile_in(sides, tiles, column, row).is_deadly()
}
