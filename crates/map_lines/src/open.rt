// The turns of a line before the first that meets a solid tile.
ghost use Rattle.std.specs.Prelude.{◌≡◌, T, ◌≤◌, ◌<◌};
ghost use Rattle.num_vec2.specs.Vec2.{vdistance};
ghost use Rattle.num_convert.specs.Whole.{trunc_to_i32};
ghost use Rattle.map_tiles.specs.Map.{is_map, count};
ghost use Rattle.map_lines.specs.OpenTurns.{is_bounded, is_bounded_line, same_tile, OpenTurns};

use crate::MOST_TURNS;
use crate::points::{min, point_at};
use map_tiles::{Sides, check_point, count, tile_at};
use num_vec2::vec2;

// A number of open turns, from the first on: all up to the first solid one, or up to trunc(dist). 0 for a line that is not bounded.
pub fn open_turns(sides: Sides, tiles: &[u8], from: vec2, to: vec2, dist: f32, turns: u32) -> u32
    requires { T (is_map sides tiles.now) × (turns ≤ 65536) × (dist ≡ vdistance from to) }
    ensures { OpenTurns sides tiles.now from to dist turns result }
{
    if is_bounded_line(from, to, dist) {
        let end = min(turns, truncated(dist));
        return open_before(sides, tiles, from, to, dist, end);
    }
    0
}

// Interval by interval: the points of an interval of turns are all on one tile if its first and its last are. An interval is doubled after one that was passed,
// and halved after one that was not.
fn open_before(sides: Sides, tiles: &[u8], from: vec2, to: vec2, dist: f32, end: u32) -> u32
    requires { T (is_map sides tiles.now) × (end ≤ 65536) × (dist ≡ vdistance from to) × T (is_bounded_line from to dist) × (end ≤ count (trunc_to_i32 dist)) }
    ensures { OpenTurns sides tiles.now from to dist end result }
{
    let mut i = 0u32;
    // The size of an interval changes, so a `while` and not a range.
    let mut n = 64u32;
    while i < end {
        let a = point_at(from, to, dist, i);
        if check_point(sides, tiles, a).is_solid() {
            return i;
        }
        let size = min(n, end - i);
        let next = i + size;
        if same_tile(sides, a, point_at(from, to, dist, next - 1)) {
            i = next;
            n = size * 2;
        } else {
            i += 1;
            n = size / 2 + 1;
        }
    }
    i
}

// trunc(dist), or 65,536 if that is less.
fn truncated(dist: f32) -> u32
    ensures { result ≤ count (trunc_to_i32 dist) }
{
    let n = count(num_convert::trunc_to_i32(dist));
    if n > MOST_TURNS {
        return 65536;
    }
    n as u32
}

fn same_tile(sides: Sides, a: vec2, b: vec2) -> bool
    requires { (0 < sides.width) × (0 < sides.height) }
    ensures { result ≡ same_tile sides a b }
{
    let width = sides.width;
    let height = sides.height;
    if tile_at(a.x, width) == tile_at(b.x, width) {
        return tile_at(a.y, height) == tile_at(b.y, height);
    }
    false
}

fn is_bounded_line(from: vec2, to: vec2, dist: f32) -> bool
    ensures { result ≡ is_bounded_line from to dist }
{
    let way = to - from;
    let start = is_bounded(from.x) & is_bounded(from.y);
    let bounded_way = is_bounded(way.x) & is_bounded(way.y);
    let length = (1.0 <= dist) & (dist <= 131072.0);
    start & bounded_way & length
}

fn is_bounded(x: f32) -> bool
    ensures { result ≡ is_bounded x }
{
    (-2147483648.0 <= x) & (x <= 2147483648.0)
}
