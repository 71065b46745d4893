// Recorded requests by the numbers of roles, made through the functions of the C interface: a line is n or c, the map's sides and 64 tiles, then thirteen
// words.
#![tactic(auto)]

use character::SEATS;
use map_tiles::Sides;
use ponguriena::{
    ponguriena_fresh, ponguriena_input, ponguriena_join, ponguriena_leave, ponguriena_step,
    ponguriena_tune,
};
use test_common::{after, digest, mix_first, nth, read_numbers};
use text_reading::decode;
use world::Call;
use world_numbers::RECORDS;

// The length of a line.
pub const LINE: usize = 190;

// Where the sides, the role, what is asked, the answer and the digests stand among the words.
const SIDES: usize = 0;

const ROLE: usize = 2;

const ASK: usize = 3;

const ANSWER: usize = 10;

const AFTER: usize = 11;

const TOLD: usize = 12;

// Who asks, on which sides, and what: a kind with six arguments. 1 to 5 are the kinds of calls.
#[derive(Clone, Copy)]
pub struct Request {
    pub role: i32,
    pub sides: Sides,
    pub values: [i32; 7],
}

pub fn asked(words: &[u8]) -> Request {
    let mut role = [0i32; 1];
    read_numbers(after(words, ROLE), &mut role);
    let mut values = [0i32; 7];
    read_numbers(after(words, ASK), &mut values);
    let sides = Sides {
        width: nth(words, SIDES),
        height: nth(words, SIDES + 1),
    };
    Request {
        role: role[0],
        sides,
        values,
    }
}

// A sequence begins with a fresh world.
pub fn begin(mark: u8, world: &mut [i32]) {
    if mark != b'n' {
        return;
    }
    ponguriena_fresh(world);
}

// Whether this is what was recorded, and left.
pub fn agrees(told: Told, world: &[i32], words: &[u8]) -> bool {
    told.number == nth(words, ANSWER)
        && told.digest == nth(words, TOLD)
        && digest(world) == nth(words, AFTER)
}

// The answer's number, and the digest of what was told: 0 where nothing was.
#[derive(Clone, Copy)]
pub struct Told {
    pub number: u32,
    pub digest: u32,
}

// Values that are no call agree with nothing: no answer has their number.
pub fn called(world: &mut [i32], sides: Sides, tiles: &[u8], role: i32, values: [i32; 7]) -> Told {
    let Some(call) = decode(values) else {
        return without_records(u32::MAX);
    };
    match call {
        Call::Join { id, x, y } => without_records(ponguriena_join(
            role,
            world,
            sides.width,
            sides.height,
            tiles,
            id,
            x,
            y,
        )),
        Call::Leave { id } => without_records(ponguriena_leave(role, world, id)),
        Call::Input {
            id,
            direction,
            target_x,
            target_y,
            jump,
            hook,
        } => without_records(ponguriena_input(
            role, world, id, direction, target_x, target_y, jump, hook,
        )),
        Call::Step => stepped(world, sides, tiles, role),
        Call::Tune { index, value } => without_records(ponguriena_tune(role, world, index, value)),
    }
}

fn without_records(number: u32) -> Told {
    Told { number, digest: 0 }
}

// The ids of who is removed follow the records.
fn stepped(world: &mut [i32], sides: Sides, tiles: &[u8], role: i32) -> Told {
    let mut records = [0i32; RECORDS];
    let mut removed = [0i32; SEATS];
    let mut count = 0usize;
    let number = ponguriena_step(
        role,
        world,
        sides.width,
        sides.height,
        tiles,
        &mut records,
        &mut removed,
        &mut count,
    );
    Told {
        number,
        digest: mix_first(digest(&records), &removed, count),
    }
}
