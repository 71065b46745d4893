// The line walk: the first solid tile from one point to another.
ghost use Rattle.std.specs.Prelude.{◌≡◌, T, ◌≤◌};
ghost use Rattle.num_vec2.specs.Vec2.{vdistance};
ghost use Rattle.map_tiles.specs.Map.{is_map};
ghost use Rattle.map_lines.specs.Line.{line_turns, line_hit, walk_line, check_line};

use crate::MOST_TURNS;
use crate::open::open_turns;
use game_refusals::Refusal;
use map_tiles::{Sides, Tile, check_point, count, is_map};
use num_vec2::vec2;

// The first solid tile of the way, with where it is met; none where nothing is. Refused on a map that is none.
pub fn check_line(
    sides: Sides,
    tiles: &[u8],
    from: vec2,
    to: vec2,
) -> Result<Option<(vec2, Tile)>, Refusal>
    ensures { result ≡ check_line sides tiles.now from to }
{
    if is_map(sides, tiles) {
        return walk_line(sides, tiles, from, to);
    }
    Err(Refusal::BadMap)
}

// The same on a map that is known to be one.
pub fn walk_line(
    sides: Sides,
    tiles: &[u8],
    from: vec2,
    to: vec2,
) -> Result<Option<(vec2, Tile)>, Refusal>
    requires { T (is_map sides tiles.now) }
    ensures { result ≡ walk_line sides tiles.now from to }
{
    let dist = vec2::distance(from, to);
    let turns = line_turns(dist);
    if turns > MOST_TURNS {
        return Err(Refusal::TooFar);
    }
    Ok(line_hit(sides, tiles, from, to, dist, turns as u32))
}

// How many points of a line of length dist are tested.
fn line_turns(dist: f32) -> u64
    ensures { result ≡ line_turns dist }
{
    count(num_convert::trunc_to_i32(dist + 1.0))
}

// The first solid tile of the line. The turns before it are passed in intervals, the rest one by one.
fn line_hit(
    sides: Sides,
    tiles: &[u8],
    from: vec2,
    to: vec2,
    dist: f32,
    turns: u32,
) -> Option<(vec2, Tile)>
    requires { T (is_map sides tiles.now) × (turns ≤ 65536) × (dist ≡ vdistance from to) }
    ensures { result ≡ line_hit sides tiles.now from to dist turns }
{
    // The hit is yielded by `break`: the form that the customer asked for here.
    'line: {
        for i in open_turns(sides, tiles, from, to, dist, turns)..turns {
            let point = vec2::mix(from, to, i as f32 / dist);
            let tile = check_point(sides, tiles, point);
            if tile.is_solid() {
                break 'line Some((point, tile));
            }
        }
        None
    }
}
