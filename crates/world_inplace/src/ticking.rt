// The first half of a step on plain arrays: every present id by rising id ticks.
ghost use Rattle.std.specs.Prelude.{◌<◌, ◌≡◌, T, length, drop};
ghost use Rattle.game_tuning.specs.Tuning.{tuning_count};
ghost use Rattle.map_tiles.specs.Map.{is_map};
ghost use Rattle.character.specs.Character.{with_vel};
ghost use Rattle.character.specs.Tick.{seats, tick_at};
ghost use Rattle.character.specs.Places.{Among};
ghost use Rattle.character.specs.Among.{with_pull};
ghost use Rattle.world.specs.Step.{tick_all};
ghost use Rattle.world_numbers.specs.Encoding.{world_count, records_count, seat_place};
ghost use Rattle.world_numbers.specs.Decoding.{seat_of, seats_of};
ghost use Rattle.world_inplace.specs.Bodies.{Sized, BodiesOf, pulled_vel, speeds_after, Blank};
ghost use Rattle.world_inplace.specs.Ticks.{TickOf, TicksDone};

use base_rows::copy;
use character::{Character, OwnTick, SEATS, held_seat, pull_at};
use character_meeting::HookPull;
use game_refusals::Refusal;
use game_tuning::Tuning;
use map_tiles::Sides;
use num_vec2::vec2;
use world::Published;
use world_numbers::{RECORD, net_core, record_numbers, seat_at};

// Every present id by rising id ticks: the velocities, the rows of the records and the floor marks are then those after all ticks. Refused where one is too far.
pub fn tick_seats(
    numbers: &[i32],
    present: &[bool; SEATS],
    xs: &[f32; SEATS],
    ys: &[f32; SEATS],
    vxs: &mut [f32; SEATS],
    vys: &mut [f32; SEATS],
    rows: &mut [i32],
    marks: &mut [bool; SEATS],
    sides: Sides,
    tiles: &[u8],
    tuning: Tuning,
) -> Result<(), Refusal>
    requires { T (is_map sides tiles.now) × (length numbers.now ≡ world_count) × Blank rows.old marks.old × Sized (record { present = present.now; xs = xs.now; ys = ys.now; vxs = vxs.old; vys = vys.old }) × BodiesOf seats (seats_of seats (drop tuning_count numbers.now)) (record { present = present.now; xs = xs.now; ys = ys.now; vxs = vxs.old; vys = vys.old }) }
    ensures { TicksDone result numbers.now seats (tick_all seats (seats_of seats (drop tuning_count numbers.now)) sides tiles.now tuning) (record { present = present.entry.now; xs = xs.now; ys = ys.now; vxs = vxs.new; vys = vys.new }) rows.new marks.new }
{
    for id in 0..SEATS {
        if present[id] {
            tick_seat(
                numbers, id, present, xs, ys, vxs, vys, rows, marks, sides, tiles, tuning,
            )?;
        }
    }
    Ok(())
}

fn tick_seat(
    numbers: &[i32],
    id: usize,
    present: &[bool; SEATS],
    xs: &[f32; SEATS],
    ys: &[f32; SEATS],
    vxs: &mut [f32; SEATS],
    vys: &mut [f32; SEATS],
    rows: &mut [i32],
    marks: &mut [bool; SEATS],
    sides: Sides,
    tiles: &[u8],
    tuning: Tuning,
) -> Result<(), Refusal>
    requires { T (is_map sides tiles.now) × (length numbers.now ≡ world_count) × (length rows.old ≡ records_count) × (id < seats) }
    ensures { TickOf result numbers.now id sides tiles.now tuning (record { present = present.entry.now; xs = xs.now; ys = ys.now; vxs = vxs.old; vys = vys.old }) rows.old marks.old (record { present = present.entry.now; xs = xs.now; ys = ys.now; vxs = vxs.new; vys = vys.new }) rows.new marks.new }
{
    let vel = vec2::new(vxs[id], vys[id]);
    let own = own_tick(numbers, id, present, xs, ys, vel, sides, tiles, tuning)?;
    let me = own.me;
    write_speeds(me, id, present, xs, ys, vxs, vys, tuning);
    let row = record_numbers(Published {
        present: true,
        core: net_core(me.to_net()),
    });
    copy(rows, RECORD * id, &row);
    marks[id] = own.grounded;
    Ok(())
}

// The tick of a seat's character, with the velocity that earlier ticks left it.
fn own_tick(
    numbers: &[i32],
    id: usize,
    present: &[bool; SEATS],
    xs: &[f32; SEATS],
    ys: &[f32; SEATS],
    vel: vec2,
    sides: Sides,
    tiles: &[u8],
    tuning: Tuning,
) -> Result<OwnTick, Refusal>
    requires { T (is_map sides tiles.now) × (length numbers.now ≡ world_count) × (id < seats) }
    ensures { Among seats present.now xs.now ys.now (λ ss. with_pull seats ss id tuning result ≡ tick_at seats (with_vel (seat_of (drop (seat_place id) numbers.now)).character vel) id ss sides tiles.now (seat_of (drop (seat_place id) numbers.now)).input tuning) }
{
    let slot = seat_at(numbers, id);
    let input = slot.input;
    let mut me = slot.character;
    me.vel = vel;
    me.tick_among(id, present, xs, ys, sides, tiles, input, tuning)
}

// The velocity that the hook leaves whoever is at the held seat, then the own one.
fn write_speeds(
    me: Character,
    id: usize,
    present: &[bool; SEATS],
    xs: &[f32; SEATS],
    ys: &[f32; SEATS],
    vxs: &mut [f32; SEATS],
    vys: &mut [f32; SEATS],
    tuning: Tuning,
)
    requires { id < seats }
    ensures { record { present = present.entry.now; xs = xs.now; ys = ys.now; vxs = vxs.new; vys = vys.new } ≡ speeds_after (record { present = present.entry.now; xs = xs.now; ys = ys.now; vxs = vxs.old; vys = vys.old }) me id tuning }
{
    let hook = me.hook;
    let held = held_seat(hook, id);
    let place = vec2::new(xs[held], ys[held]);
    let vel = vec2::new(vxs[held], vys[held]);
    let pull = pull_at(me.pos, id, held, present[held], place, vel, tuning);
    let left = pulled_vel(pull, vel);
    vxs[held] = left.x;
    vys[held] = left.y;
    vxs[id] = me.vel.x;
    vys[id] = me.vel.y;
}

fn pulled_vel(pull: Option<HookPull>, vel: vec2) -> vec2
    ensures { result ≡ pulled_vel pull vel }
{
    match pull {
        Some(pull) => pull.vel,
        None => vel,
    }
}
