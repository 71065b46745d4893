// The second half of a step on plain arrays: by rising id each moves and is quantized.
ghost use Rattle.std.specs.Prelude.{◌<◌, ◌≡◌, T, length};
ghost use Rattle.map_tiles.specs.Map.{is_map};
ghost use Rattle.character.specs.Tick.{seats};
ghost use Rattle.world_numbers.specs.Encoding.{records_count};
ghost use Rattle.world_inplace.specs.Bodies.{body_numbers};
ghost use Rattle.world_inplace.specs.Moves.{MoveOf, AllMoved};

use crate::reading::PLACE;
use base_rows::copy;
use character::{Character, SEATS};
use game_refusals::Refusal;
use game_tuning::Tuning;
use map_tiles::Sides;
use num_convert::{i32_to_f32, round_to_i32, to_256ths};
use num_vec2::vec2;
use world_numbers::RECORD;

// By rising id each moves: the places and the rows of the records are then those after all moves. Refused where one is too far.
pub fn move_seats(
    present: &[bool; SEATS],
    xs: &mut [f32; SEATS],
    ys: &mut [f32; SEATS],
    vxs: &[f32; SEATS],
    vys: &[f32; SEATS],
    rows: &mut [i32],
    sides: Sides,
    tiles: &[u8],
    tuning: Tuning,
) -> Result<(), Refusal>
    requires { T (is_map sides tiles.now) × (length rows.old ≡ records_count) }
    ensures { AllMoved result sides tiles.now tuning (record { present = present.entry.now; xs = xs.old; ys = ys.old; vxs = vxs.now; vys = vys.now }) rows.old (record { present = present.entry.now; xs = xs.new; ys = ys.new; vxs = vxs.now; vys = vys.now }) rows.new }
{
    for id in 0..SEATS {
        if present[id] {
            move_seat(id, present, xs, ys, vxs, vys, rows, sides, tiles, tuning)?;
        }
    }
    Ok(())
}

fn move_seat(
    id: usize,
    present: &[bool; SEATS],
    xs: &mut [f32; SEATS],
    ys: &mut [f32; SEATS],
    vxs: &[f32; SEATS],
    vys: &[f32; SEATS],
    rows: &mut [i32],
    sides: Sides,
    tiles: &[u8],
    tuning: Tuning,
) -> Result<(), Refusal>
    requires { T (is_map sides tiles.now) × (length rows.old ≡ records_count) × (id < seats) }
    ensures { MoveOf result id sides tiles.now tuning (record { present = present.entry.now; xs = xs.old; ys = ys.old; vxs = vxs.now; vys = vys.now }) rows.old (record { present = present.entry.now; xs = xs.new; ys = ys.new; vxs = vxs.now; vys = vys.now }) rows.new }
{
    let vel = vec2::new(vxs[id], vys[id]);
    let mut me = Character::spawn(vec2::new(xs[id], ys[id]));
    me.vel = vel;
    let left = me.move_among(id, present, xs, ys, sides, tiles, tuning)?;
    let row = body_numbers(left.pos, left.vel);
    copy(rows, RECORD * id + PLACE, &row);
    xs[id] = i32_to_f32(row[0]);
    ys[id] = i32_to_f32(row[1]);
    Ok(())
}

// The four numbers of a record that a move may change.
fn body_numbers(pos: vec2, vel: vec2) -> [i32; 4]
    ensures { result ≡ body_numbers pos vel }
{
    [
        round_to_i32(pos.x),
        round_to_i32(pos.y),
        to_256ths(vel.x),
        to_256ths(vel.y),
    ]
}
