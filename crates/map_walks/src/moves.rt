// A box's walk.
ghost use Rattle.std.specs.Prelude.{◌≡◌, T, ◌≤◌, ◌<◌};
ghost use Rattle.map_tiles.specs.Map.{is_map};
ghost use Rattle.map_walks.specs.Move.{box_turns, body_of, blocked, box_turn, box_turns_taken, walk_box, move_box};
ghost use Rattle.map_walks.specs.Way.{turns_taken, at_rest, is_stuck, stays_at_rest};

use crate::way::{is_clear_way, way_end};
use game_refusals::Refusal;
use map_lines::{MOST_TURNS, min};
use map_tiles::{Sides, check_box, count, is_map};
use num_vec2::vec2;

// The turns of a stretch. On a floor the last turns of a way meet it, and those before are still straight.
const STRETCH: u32 = 8;

// The turns of a stretch in a long walk.
const LONG_STRETCH: u32 = 64;

// A walk of more turns is long. No walk of a game is.
const LONG_WALK: u32 = 512;

// A position with the velocity that moves it.
#[derive(Clone, Copy)]
pub struct Body {
    pub pos: vec2,
    pub vel: vec2,
}

// Moves a box by its velocity, turn by turn.
pub fn move_box(
    sides: Sides,
    tiles: &[u8],
    pos: vec2,
    vel: vec2,
    box_: vec2,
) -> Result<Body, Refusal>
    ensures { result ≡ move_box sides tiles.now pos vel box_ }
{
    if is_map(sides, tiles) {
        return walk_box(sides, tiles, pos, vel, box_);
    }
    Err(Refusal::BadMap)
}

// The same on a map that is known to be one.
pub fn walk_box(
    sides: Sides,
    tiles: &[u8],
    pos: vec2,
    vel: vec2,
    box_: vec2,
) -> Result<Body, Refusal>
    requires { T (is_map sides tiles.now) }
    ensures { result ≡ walk_box sides tiles.now pos vel box_ }
{
    let turns = box_turns(vel.length());
    if turns > MOST_TURNS {
        return Err(Refusal::TooFar);
    }
    Ok(box_turns_taken(
        sides,
        tiles,
        Body { pos: pos, vel: vel },
        box_,
        turns as u32,
    ))
}

// How many turns it takes to move by dist.
fn box_turns(dist: f32) -> u64
    ensures { result ≡ box_turns dist }
{
    if dist > 0.00001 {
        return count(num_convert::round_to_i32(dist)) + 1;
    }
    0
}

// Stretch by stretch, up to a turn that changes nothing.
// A `while`: the last stretch is shorter.
fn box_turns_taken(sides: Sides, tiles: &[u8], body: Body, box_: vec2, turns: u32) -> Body
    requires { T (is_map sides tiles.now) × (turns ≤ 65536) }
    ensures { result ≡ box_turns_taken sides tiles.now body box_ turns }
{
    let fraction = 1.0 / turns as f32;
    let size = stretch_of(turns);
    let mut b = body;
    let mut left = turns;
    while left > 0 {
        if stays_at_rest(sides, tiles, b, fraction, box_) {
            return at_rest(b);
        }
        let n = min(left, size);
        b = long_stretch(sides, tiles, b, fraction, box_, n);
        left -= n;
    }
    b
}

// Whether a box without velocity is stuck: no later turn changes it. Few boxes have no velocity, so that is asked first.
fn stays_at_rest(sides: Sides, tiles: &[u8], body: Body, fraction: f32, box_: vec2) -> bool
    requires { T (is_map sides tiles.now) }
    ensures { result ≡ stays_at_rest sides tiles.now fraction box_ body }
{
    let vel = body.vel;
    if vel.x == 0.0 {
        if vel.y == 0.0 {
            if is_stuck(sides, tiles, body, fraction, box_) {
                return is_stuck(sides, tiles, at_rest(body), fraction, box_);
            }
        }
    }
    false
}

// Whether a turn meets a solid tile ahead, and in each coordinate alone.
fn is_stuck(sides: Sides, tiles: &[u8], body: Body, fraction: f32, box_: vec2) -> bool
    requires { T (is_map sides tiles.now) }
    ensures { result ≡ is_stuck sides tiles.now fraction box_ body }
{
    let pos = body.pos;
    let vel = body.vel;
    let new_pos = pos + vel * fraction;
    if check_box(sides, tiles, new_pos, box_) {
        if check_box(sides, tiles, vec2::new(pos.x, new_pos.y), box_) {
            return check_box(sides, tiles, vec2::new(new_pos.x, pos.y), box_);
        }
    }
    false
}

fn at_rest(body: Body) -> Body
    ensures { result ≡ at_rest body }
{
    let pos = body.pos;
    body_of(pos.x, pos.y, 0.0, 0.0)
}

// The turns of a stretch in a walk of so many turns.
fn stretch_of(turns: u32) -> u32
    ensures { 0 < result }
{
    if turns > LONG_WALK {
        return LONG_STRETCH;
    }
    STRETCH
}

// A stretch of any length: sums alone where nothing is in the way, else stretches of eight.
fn long_stretch(
    sides: Sides,
    tiles: &[u8],
    body: Body,
    fraction: f32,
    box_: vec2,
    turns: u32,
) -> Body
    requires { T (is_map sides tiles.now) }
    ensures { result ≡ turns_taken sides tiles.now fraction box_ turns body }
{
    if turns <= STRETCH {
        return stretch(sides, tiles, body, fraction, box_, turns);
    }
    let start = body.pos;
    let vel = body.vel;
    let end = way_end(start, vel * fraction, turns);
    if is_clear_way(sides, tiles, start, end, box_) {
        return Body { pos: end, vel: vel };
    }
    stretches(sides, tiles, body, fraction, box_, turns)
}

// A `while`: the last stretch is shorter.
fn stretches(sides: Sides, tiles: &[u8], body: Body, fraction: f32, box_: vec2, turns: u32) -> Body
    requires { T (is_map sides tiles.now) }
    ensures { result ≡ turns_taken sides tiles.now fraction box_ turns body }
{
    let mut b = body;
    let mut left = turns;
    while left > 0 {
        let n = min(left, STRETCH);
        b = stretch(sides, tiles, b, fraction, box_, n);
        left -= n;
    }
    b
}

// Where nothing is in the way the turns are sums alone. To ask that costs as much as a turn, so one or two are just taken.
fn stretch(sides: Sides, tiles: &[u8], body: Body, fraction: f32, box_: vec2, turns: u32) -> Body
    requires { T (is_map sides tiles.now) }
    ensures { result ≡ turns_taken sides tiles.now fraction box_ turns body }
{
    let start = body.pos;
    let vel = body.vel;
    if turns > 2 {
        let end = way_end(start, vel * fraction, turns);
        if is_clear_way(sides, tiles, start, end, box_) {
            return Body { pos: end, vel: vel };
        }
    }
    turn_by_turn(sides, tiles, body, fraction, box_, turns)
}

fn turn_by_turn(
    sides: Sides,
    tiles: &[u8],
    body: Body,
    fraction: f32,
    box_: vec2,
    turns: u32,
) -> Body
    requires { T (is_map sides tiles.now) }
    ensures { result ≡ turns_taken sides tiles.now fraction box_ turns body }
{
    let mut b = body;
    for _ in 0..turns {
        b = box_turn(sides, tiles, b, fraction, box_);
    }
    b
}

fn box_turn(sides: Sides, tiles: &[u8], body: Body, fraction: f32, box_: vec2) -> Body
    requires { T (is_map sides tiles.now) }
    ensures { result ≡ box_turn sides tiles.now fraction box_ body }
{
    let pos = body.pos;
    let vel = body.vel;
    let new_pos = pos + vel * fraction;
    if check_box(sides, tiles, new_pos, box_) {
        return blocked(sides, tiles, body, new_pos, box_);
    }
    Body {
        pos: new_pos,
        vel: vel,
    }
}

// The body after a turn that met something solid at new_pos: it keeps the coordinates and loses the speeds that are in the way.
fn blocked(sides: Sides, tiles: &[u8], body: Body, new_pos: vec2, box_: vec2) -> Body
    requires { T (is_map sides tiles.now) }
    ensures { result ≡ blocked sides tiles.now body new_pos box_ }
{
    let pos = body.pos;
    let vel = body.vel;
    let hit_y = check_box(sides, tiles, vec2::new(pos.x, new_pos.y), box_);
    let hit_x = check_box(sides, tiles, vec2::new(new_pos.x, pos.y), box_);
    if hit_y {
        if hit_x {
            return body_of(pos.x, pos.y, 0.0, 0.0);
        }
        return body_of(new_pos.x, pos.y, vel.x, 0.0);
    }
    if hit_x {
        return body_of(pos.x, new_pos.y, 0.0, vel.y);
    }
    body_of(pos.x, pos.y, 0.0, 0.0)
}

fn body_of(x: f32, y: f32, vel_x: f32, vel_y: f32) -> Body
    ensures { result ≡ body_of x y vel_x vel_y }
{
    Body {
        pos: vec2::new(x, y),
        vel: vec2::new(vel_x, vel_y),
    }
}
