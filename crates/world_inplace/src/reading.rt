// Who is there, where and how fast, out of a world's numbers.
ghost use Rattle.std.specs.Prelude.{◌+◌, ◌<◌, ◌≡◌, length, drop};
ghost use Rattle.num_convert.specs.Convert.{i32_to_f32, from256ths};
ghost use Rattle.num_vec2.specs.Vec2.{vnew};
ghost use Rattle.game_records.specs.Numbers.{number_at};
ghost use Rattle.game_tuning.specs.Tuning.{tuning_count};
ghost use Rattle.character.specs.Tick.{seats};
ghost use Rattle.world_numbers.specs.Encoding.{world_count, seat_place};
ghost use Rattle.world_numbers.specs.Decoding.{seat_of, seats_of};
ghost use Rattle.world_inplace.specs.Bodies.{Sized, Embodied, BodiesOf};

use character::SEATS;
use num_convert::{from_256ths, i32_to_f32};
use num_vec2::vec2;
use world_numbers::{is_set, seat_place};

// Where the place begins in a seat's numbers and in a record's row, and where the velocity does.
pub const PLACE: usize = 2;

pub const SPEED: usize = 4;

// Whether somebody is at a seat; if so where, and how fast.
#[derive(Clone, Copy)]
struct Body {
    present: bool,
    pos: vec2,
    vel: vec2,
}

// A place that is far from every other: of an absent seat, so that comparisons pass it over.
const FAR: f32 = 1.0e30;

fn place_at(numbers: &[i32], at: usize) -> vec2
    requires { at + 1 < length numbers.now }
    ensures { result ≡ vnew (i32_to_f32 (number_at numbers.now at)) (i32_to_f32 (number_at numbers.now (at + 1))) }
{
    vec2::new(i32_to_f32(numbers[at]), i32_to_f32(numbers[at + 1]))
}

fn speed_at(numbers: &[i32], at: usize) -> vec2
    requires { at + 1 < length numbers.now }
    ensures { result ≡ vnew (from256ths (number_at numbers.now at)) (from256ths (number_at numbers.now (at + 1))) }
{
    vec2::new(from_256ths(numbers[at]), from_256ths(numbers[at + 1]))
}

fn body_at(numbers: &[i32], id: usize) -> Body
    requires { (length numbers.now ≡ world_count) × (id < seats) }
    ensures { Embodied (seat_of (drop (seat_place id) numbers.now)) result.present result.pos result.vel }
{
    let at = seat_place(id);
    if is_set(numbers[at]) {
        return Body {
            present: true,
            pos: place_at(numbers, at + PLACE),
            vel: speed_at(numbers, at + SPEED),
        };
    }
    Body {
        present: false,
        pos: vec2::new(FAR, FAR),
        vel: vec2::new(0.0, 0.0),
    }
}

pub fn read_bodies(
    numbers: &[i32],
    present: &mut [bool; SEATS],
    xs: &mut [f32; SEATS],
    ys: &mut [f32; SEATS],
    vxs: &mut [f32; SEATS],
    vys: &mut [f32; SEATS],
)
    requires { (length numbers.now ≡ world_count) × Sized (record { present = present.now; xs = xs.old; ys = ys.old; vxs = vxs.old; vys = vys.old }) }
    ensures { Sized (record { present = present.exit.now; xs = xs.new; ys = ys.new; vxs = vxs.new; vys = vys.new }) × BodiesOf seats (seats_of seats (drop tuning_count numbers.now)) (record { present = present.exit.now; xs = xs.new; ys = ys.new; vxs = vxs.new; vys = vys.new }) }
{
    for id in 0..SEATS {
        let body = body_at(numbers, id);
        present[id] = body.present;
        xs[id] = body.pos.x;
        ys[id] = body.pos.y;
        vxs[id] = body.vel.x;
        vys[id] = body.vel.y;
    }
}
