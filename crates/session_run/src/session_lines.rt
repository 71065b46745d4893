// A session, and what the next line of its text does to it.
ghost use Rattle.std.specs.Prelude.{◌≡◌, ◌+◌, ◌*◌, ◌≤◌, length};
ghost use Rattle.character.specs.Tick.{seats};
ghost use Rattle.world.specs.Run.{ran, told_by};
ghost use Rattle.text_writing.specs.Answers.{told_bytes};
ghost use Rattle.text_writing.specs.Output.{most_line};
ghost use Rattle.text_writing.specs.Put.{Put};
ghost use Rattle.session_run.specs.Line.{LineRan};
ghost use Rattle.session_run.specs.Session.{most_calls};

use game_refusals::{Refusal, number_of_answer};
use map_tiles::Sides;
use role_calls::{make_call_as, make_change_as};
use role_rule::Role;
use text_reading::next_call;
use text_writing::{put_answer, put_told};
use world::{Call, World};

// A session between two lines: whether it has ended, the number of the call that is due, the place of its line, the world.
// A flag beside the rest, not an Option: the world and the place are answered after the end too.
#[derive(Clone, Copy)]
pub struct Session {
    pub done: bool,
    pub call: u32,
    pub place: usize,
    pub world: World,
}

// A session after a line, and the place past the bytes that the line wrote.
#[derive(Clone, Copy)]
pub struct Turned {
    pub session: Session,
    pub next: usize,
}

// Reads the next line, runs its call and puts the answer into buf from `at` on. Answers the place past what was put.
pub fn run_line(
    text: &[u8],
    sides: Sides,
    tiles: &[u8],
    session: &mut Session,
    buf: &mut [u8],
    at: usize,
) -> usize
    requires { (at + most_line * seats ≤ length buf.old) × (session.old.call ≤ most_calls + 1) }
    ensures { LineRan seats text.now sides tiles.now session.old buf.old at (record { session = session.new; next = result }) buf.new }
{
    let call = session.call;
    if text.len() <= session.place {
        session.done = true;
        return at;
    }
    match next_call(text, session.place) {
        None => {
            session.done = true;
            put_answer(buf, at, call as i32, u32::from(Refusal::BadText) as i32)
        }
        Some((line, past)) => {
            session.done = false;
            session.call = call + 1;
            session.place = past;
            put_call(&mut session.world, sides, tiles, line, call as i32, buf, at)
        }
    }
}

// Runs the call of a line and puts its answer into buf from `at` on. Only a step has more than a number to tell.
fn put_call(
    world: &mut World,
    sides: Sides,
    tiles: &[u8],
    line: Call,
    call: i32,
    buf: &mut [u8],
    at: usize,
) -> usize
    requires { at + most_line * seats ≤ length buf.old }
    ensures { (world.new ≡ (ran seats sides tiles.now world.old line).world) × Put buf.old at (told_bytes seats call (told_by (ran seats sides tiles.now world.old line))) buf.new result }
{
    match line {
        Call::Step => {
            let answer = make_call_as(Role::Referee, world, sides, tiles, line);
            put_told(buf, at, call, answer)
        }
        _ => {
            let number = number_of_answer(make_change_as(Role::Referee, world, sides, tiles, line));
            put_answer(buf, at, call, number as i32)
        }
    }
}
