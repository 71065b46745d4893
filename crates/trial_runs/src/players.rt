// What is kept of a trial player: its target, its smallest distance, and whether its last step left its x as it was.
ghost use Rattle.std.specs.Prelude.{◌≡◌, ◌-◌, ◌<◌, T, ℤ};
ghost use Rattle.map_corners.specs.Tile.{clamp_to};
ghost use Rattle.map_tiles.specs.Map.{is_side};
ghost use Rattle.world.specs.Calls.{point_of};
ghost use Rattle.trial_rule.specs.Trial.{tiles_between, distance_to, entered, noted};

use map_tiles::{Sides, count, tile_at};
use trial_rule::Player;
use world_joins::point_of;

// The column or row that a number names, clamped to a side.
fn clamped(z: i32, side: u32) -> u16
    requires { T (is_side side) }
    ensures { (result ≡ clamp_to (side - 1) z) × (result < side) }
{
    let tile = count(z);
    if tile < side as u64 {
        return tile as u16;
    }
    (side - 1) as u16
}

fn tiles_between(a: u32, b: u32) -> u32
    ensures { result ≡ tiles_between a b }
{
    if a < b {
        return b - a;
    }
    a - b
}

// In whole tiles, columns plus rows.
fn distance_to(sides: Sides, column: u16, row: u16, x: i32, y: i32) -> u32
    requires { T (is_side sides.width) × T (is_side sides.height) }
    ensures { (result ≡ distance_to sides column row (point_of x y)) × (column < sides.width → row < sides.height → result < 2048) }
{
    let place = point_of(x, y);
    let across = tiles_between(tile_at(place.x, sides.width), column as u32);
    let down = tiles_between(tile_at(place.y, sides.height), row as u32);
    across + down
}

// Whoever joined at x and y and makes for a tile.
pub fn entered(sides: Sides, x: i32, y: i32, column: i32, row: i32) -> Player
    requires { T (is_side sides.width) × T (is_side sides.height) }
    ensures { (id : ℤ) → result ≡ entered sides (record { id = id; x = x; y = y; column = column; row = row }) }
{
    let target_column = clamped(column, sides.width);
    let target_row = clamped(row, sides.height);
    let start = distance_to(sides, target_column, target_row, x, y);
    Player {
        joined: true,
        column: target_column,
        row: target_row,
        x,
        stayed: false,
        distance: start as u16,
        step: 0,
    }
}

// After a step whose record is at x and y.
pub fn noted(player: Player, sides: Sides, step: u16, x: i32, y: i32) -> Player
    requires { T (is_side sides.width) × T (is_side sides.height) }
    ensures { result ≡ noted sides step x y player }
{
    let stayed = player.x == x;
    let away = distance_to(sides, player.column, player.row, x, y);
    if away < player.distance as u32 {
        return Player {
            joined: player.joined,
            column: player.column,
            row: player.row,
            x,
            stayed,
            distance: away as u16,
            step,
        };
    }
    Player {
        joined: player.joined,
        column: player.column,
        row: player.row,
        x,
        stayed,
        distance: player.distance,
        step: player.step,
    }
}
