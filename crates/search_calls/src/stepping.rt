// One step of a way, on the numbers of a world of its own.
ghost use Rattle.std.specs.Prelude.{◌≡◌, ◌<◌, length};
ghost use Rattle.character.specs.Tick.{seats};
ghost use Rattle.world.specs.Calls.{place_of};
ghost use Rattle.world.specs.Settled.{Settled};
ghost use Rattle.world_numbers.specs.Encoding.{world_count, records_count};
ghost use Rattle.world_numbers.specs.Decoding.{decoding};
ghost use Rattle.search_rule.specs.Search.{input_of_way, choices, buttons_at};
ghost use Rattle.search_calls.specs.Steps.{Copied, record_is_at, Took};

use character::SEATS;
use game_records::PlayerInput;
use map_tiles::Sides;
use search_rule::{Buttons, Goal};
use world_buffers::{input_in, step_in};
use world_joins::place_of;
use world_numbers::{RECORD, RECORDS, is_set, seat_place};

// Three directions, each with and without jump.
pub const CHOICES: usize = 6;

// What a step means for a way: whether it can be the last, and whether another can follow.
#[derive(Clone, Copy)]
pub struct StepOutcome {
    pub arrives: bool,
    pub goes_on: bool,
}

// By rising direction, then by rising jump.
pub fn buttons_at(i: usize) -> Buttons
    requires { i < choices }
    ensures { result ≡ buttons_at i }
{
    match i {
        0 => Buttons {
            direction: -1,
            jump: 0,
        },
        1 => Buttons {
            direction: -1,
            jump: 1,
        },
        2 => Buttons {
            direction: 0,
            jump: 0,
        },
        3 => Buttons {
            direction: 0,
            jump: 1,
        },
        4 => Buttons {
            direction: 1,
            jump: 0,
        },
        _ => Buttons {
            direction: 1,
            jump: 1,
        },
    }
}

// A world to step. Each number is read, and so known to be an i32, which no lent slice says of its numbers at once.
pub fn copy_world(world: &[i32], next: &mut [i32])
    requires { length world.now ≡ length next.old }
    ensures { Copied world.now next.new }
{
    for i in 0..world.len() {
        next[i] = world[i];
    }
}

// The record of a seat among those of a step: somebody is there, with the goal's x and y.
fn record_is_at(records: &[i32], at: usize, goal: Goal) -> bool
    requires { (length records.now ≡ records_count) × (at < seats) }
    ensures { result ≡ record_is_at records.now at goal }
{
    let place = RECORD * at;
    // After the presence the record begins with its tick.
    is_set(records[place]) && records[place + 2] == goal.x && records[place + 3] == goal.y
}

// What is pressed, hook 0 and the stored target.
fn input_with(goal: Goal, buttons: Buttons) -> PlayerInput
    ensures { result ≡ input_of_way goal buttons }
{
    PlayerInput {
        direction: buttons.direction,
        target_x: goal.target_x,
        target_y: goal.target_y,
        jump: buttons.jump,
        hook: 0,
    }
}

pub fn step_with(
    world: &mut [i32],
    sides: Sides,
    tiles: &[u8],
    goal: Goal,
    buttons: Buttons,
) -> StepOutcome
    requires { (length world.old ≡ world_count) × Settled seats (decoding seats world.old) × (place_of seats goal.id < seats) }
    ensures { Took sides tiles.now goal buttons world.old result world.new }
{
    // Where nobody is at the id the input is refused, and the step is taken all the same.
    let _ = input_in(world, goal.id, input_with(goal, buttons));
    let mut records = [0i32; RECORDS];
    let mut removed = [0i32; SEATS];
    if step_in(world, sides, tiles, &mut records, &mut removed).is_err() {
        return StepOutcome {
            arrives: false,
            goes_on: false,
        };
    }
    let at = place_of(SEATS, goal.id);
    StepOutcome {
        arrives: record_is_at(&records, at, goal),
        goes_on: is_set(world[seat_place(at)]),
    }
}
