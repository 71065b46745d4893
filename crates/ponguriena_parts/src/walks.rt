// The walks of a line and of a box, and the tile of a point. Their answers are a refusal's number, or 0 with the values written through the references.
ghost use Rattle.std.specs.Prelude.{cond, ◌≡◌};
ghost use Rattle.num_vec2.specs.Vec2.{vnew};
ghost use Rattle.map_walks.specs.Move.{move_box};
ghost use Rattle.map_lines.specs.Line.{check_line};
ghost use Rattle.game_refusals.specs.Refusals.{bad_map, number_of_answer};
ghost use Rattle.map_tiles.specs.Map.{sides_of, is_map, check_point};
ghost use Rattle.ponguriena_parts.specs.Walks.{body_or, point_or, byte_of, tile_or};

use game_refusals::Refusal;
use map_tiles::{Sides, Tile, check_point, is_map};
use num_vec2::vec2;

pub fn ponguriena_move_box(
    width: u32,
    height: u32,
    tiles: &[u8],
    pos_x: &mut f32,
    pos_y: &mut f32,
    vel_x: &mut f32,
    vel_y: &mut f32,
    box_x: f32,
    box_y: f32,
) -> u32
    ensures number { result ≡ number_of_answer (move_box (sides_of width height) tiles.now (vnew pos_x.old pos_y.old) (vnew vel_x.old vel_y.old) (vnew box_x box_y)) }
    ensures body { body_or pos_x.old pos_y.old vel_x.old vel_y.old (move_box (sides_of width height) tiles.now (vnew pos_x.old pos_y.old) (vnew vel_x.old vel_y.old) (vnew box_x box_y)) ≡ record { pos = vnew pos_x.new pos_y.new; vel = vnew vel_x.new vel_y.new } }
{
    let sides = Sides { width, height };
    let moved = map_walks::move_box(
        sides,
        tiles,
        vec2::new(*pos_x, *pos_y),
        vec2::new(*vel_x, *vel_y),
        vec2::new(box_x, box_y),
    );
    match moved {
        Ok(body) => {
            *pos_x = body.pos.x;
            *pos_y = body.pos.y;
            *vel_x = body.vel.x;
            *vel_y = body.vel.y;
            0
        }
        Err(refusal) => refusal.into(),
    }
}

pub fn ponguriena_check_line(
    width: u32,
    height: u32,
    tiles: &[u8],
    from_x: f32,
    from_y: f32,
    to_x: f32,
    to_y: f32,
    point_x: &mut f32,
    point_y: &mut f32,
    tile: &mut u32,
) -> u32
    ensures number { result ≡ number_of_answer (check_line (sides_of width height) tiles.now (vnew from_x from_y) (vnew to_x to_y)) }
    ensures point { point_or point_x.old point_y.old (check_line (sides_of width height) tiles.now (vnew from_x from_y) (vnew to_x to_y)) ≡ vnew point_x.new point_y.new }
    ensures hit_tile { tile.new ≡ tile_or tile.old (check_line (sides_of width height) tiles.now (vnew from_x from_y) (vnew to_x to_y)) }
{
    let sides = Sides { width, height };
    let check = map_lines::check_line(
        sides,
        tiles,
        vec2::new(from_x, from_y),
        vec2::new(to_x, to_y),
    );
    match check {
        Ok(hit) => match hit {
            None => {
                *tile = 0;
                0
            }
            Some((p, t)) => {
                *point_x = p.x;
                *point_y = p.y;
                *tile = byte_of(t);
                0
            }
        },
        Err(refused) => refused.into(),
    }
}

// The tile of a point, as its byte on the map.
pub fn ponguriena_check_point(
    width: u32,
    height: u32,
    tiles: &[u8],
    x: f32,
    y: f32,
    tile: &mut u32,
) -> u32
    ensures number { result ≡ cond (is_map (sides_of width height) tiles.now) 0 bad_map }
    ensures point_tile { tile.new ≡ cond (is_map (sides_of width height) tiles.now) (byte_of (check_point (sides_of width height) tiles.now (vnew x y))) tile.old }
{
    let sides = Sides { width, height };
    if is_map(sides, tiles) {
        *tile = byte_of(check_point(sides, tiles, vec2::new(x, y)));
        return 0;
    }
    Refusal::BadMap as u32
}

fn byte_of(tile: Tile) -> u32
    ensures { result ≡ byte_of tile }
{
    match tile {
        Tile::Open => 0,
        Tile::Normal => 1,
        Tile::Deadly => 2,
        Tile::Unhookable => 3,
    }
}
