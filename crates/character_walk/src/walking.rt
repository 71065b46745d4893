// A character's move: the ramp and the walk of its box, and what the walk among the others asks.
ghost use Rattle.std.specs.Prelude.{◌≡◌, T};
ghost use Rattle.map_tiles.specs.Map.{is_map};
ghost use Rattle.character_walk.specs.Walking.{ramped_move, player_turns, rest_at};

use game_constants::CHARACTER_SIZE;
use game_refusals::Refusal;
use game_tuning::Tuning;
use map_tiles::{Sides, count};
use map_walks::{Body, walk_box};
use num_ramp::velocity_ramp;
use num_vec2::vec2;

// The box is moved with the velocity sideways ramped, and the ramp is taken back after.
pub fn ramped_move(
    sides: Sides,
    tiles: &[u8],
    pos: vec2,
    vel: vec2,
    tuning: Tuning,
) -> Result<Body, Refusal>
    requires { T (is_map sides tiles.now) }
    ensures { result ≡ ramped_move sides tiles.now pos vel tuning }
{
    let ramp_value = velocity_ramp(
        vel.length() * 50.0,
        tuning.velramp_start,
        tuning.velramp_range,
        tuning.velramp_curvature,
    );
    let ramped = vec2::new(vel.x * ramp_value, vel.y);
    let box_ = vec2::new(CHARACTER_SIZE, CHARACTER_SIZE);
    let body = walk_box(sides, tiles, pos, ramped, box_)?;
    let new_pos = body.pos;
    let new_vel = body.vel;
    Ok(Body {
        pos: new_pos,
        vel: vec2::new(new_vel.x * (1.0 / ramp_value), new_vel.y),
    })
}

// How many points of the way are tested for others.
pub fn player_turns(distance: f32) -> u64
    ensures { result ≡ player_turns distance }
{
    count(num_convert::trunc_to_i32(distance)) + 1
}

// Where a character stays that meets another at q, when it has got to p.
pub fn rest_at(fraction: f32, last: vec2, from: vec2, to: vec2, p: vec2, q: vec2) -> vec2
    ensures { result ≡ rest_at fraction last from to p q }
{
    if fraction > 0.0 {
        return last;
    }
    if vec2::distance(to, q) > vec2::distance(p, q) {
        return to;
    }
    from
}
