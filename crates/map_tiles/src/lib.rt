// The tile map: the tile of a point, and a box on the map.
#![tactic(auto)]

mod boxes;
mod point;
mod tiles;

pub use boxes::{check_box, is_solid_at, on_deadly};
pub use point::{Tile, check_point, tile_at};
pub use tiles::{Sides, count, is_map};
