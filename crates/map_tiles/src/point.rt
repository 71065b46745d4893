// Which tile a point is on.
ghost use Rattle.std.specs.Prelude.{◌≡◌, ◌<◌, T};
ghost use Rattle.map_corners.specs.Tile.{tile_at};
ghost use Rattle.map_tiles.specs.Map.{is_map, tile_in, check_point, solid, deadly};

use crate::tiles::{Sides, count};
use num_vec2::vec2;

#[derive(Clone, Copy)]
pub enum Tile {
    Open,
    Normal,
    Deadly,
    Unhookable,
}

impl Tile {
    pub fn is_solid(self) -> bool
        ensures { result ≡ solid self }
    {
        match self {
            Tile::Open => false,
            Tile::Normal => true,
            Tile::Deadly => false,
            Tile::Unhookable => true,
        }
    }

    pub fn is_deadly(self) -> bool
        ensures { result ≡ deadly self }
    {
        match self {
            Tile::Open => false,
            Tile::Normal => false,
            Tile::Deadly => true,
            Tile::Unhookable => false,
        }
    }
}

pub fn check_point(sides: Sides, tiles: &[u8], pos: vec2) -> Tile
    requires { T (is_map sides tiles.now) }
    ensures { result ≡ check_point sides tiles.now pos }
{
    let width = sides.width;
    let height = sides.height;
    tile_in(sides, tiles, tile_at(pos.x, width), tile_at(pos.y, height))
}

// The tile in a column and a row.
pub fn tile_in(sides: Sides, tiles: &[u8], column: u32, row: u32) -> Tile
    requires { T (is_map sides tiles.now) × (column < sides.width) × (row < sides.height) }
    ensures { result ≡ tile_in sides tiles.now column row }
{
    let at = (row * sides.width + column) as usize;
    let byte = tiles[at];
    match byte {
        1 => Tile::Normal,
        2 => Tile::Deadly,
        3 => Tile::Unhookable,
        _ => Tile::Open,
    }
}

// The tile of a coordinate, along a side.
pub fn tile_at(x: f32, side: u32) -> u32
    requires { 0 < side }
    ensures { (result ≡ tile_at side x) × (result < side) }
{
    let t = count(num_convert::round_to_i32(x)) / 32;
    if t < side as u64 {
        return t as u32;
    }
    side - 1
}
