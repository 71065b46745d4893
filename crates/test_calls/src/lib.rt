// Recorded calls on a world: a line is n or c, the map's sides and 64 tiles, then twelve words, of which the first ten say what is called and answered.
#![tactic(auto)]

#[cfg(test)]
mod tests;

use character::SEATS;
use game_refusals::Refusal;
use map_tiles::Sides;
use role_calls::call_as;
use role_rule::Role;
use test_common::{AFTER_MAP, after, first, nth, read_numbers, rest, tile_count, tiles_of};
use text_reading::decode;
use world::{Published, Removed, World};
use world_joins::fresh;
use world_step::unpublished;

// The length of a line.
pub const LINE: usize = 181;

// Where the sides, the call's values, the answer and what is recorded besides stand among the words.
const SIDES: usize = 0;

const CALL: usize = 2;

pub const ANSWER: usize = 9;

pub const BESIDES: usize = 10;

// A sequence begins with a fresh world.
pub fn world_before(mark: u8, world: World) -> World {
    if mark == b'n' { fresh() } else { world }
}

// What a call answers: its number, the world after it, and what it tells.
#[derive(Clone, Copy)]
pub struct Seen {
    pub number: u32,
    pub world: World,
    pub records: [Published; SEATS],
    pub removed: Removed,
}

// The call of a line, made by the referee. Values that are no call get an answer that no call has.
pub fn called(world: World, line: &[u8]) -> Seen {
    let words = rest(line, AFTER_MAP);
    let mut values = [0i32; 7];
    read_numbers(after(words, CALL), &mut values);
    let Some(call) = decode(values) else {
        return untold(world, u32::MAX);
    };
    let sides = Sides {
        width: nth(words, SIDES),
        height: nth(words, SIDES + 1),
    };
    let tiles = tiles_of(line);
    let lent = first(&tiles, tile_count(line));
    match call_as(Role::Referee, world, sides, lent, call) {
        Ok(after) => {
            let next = after.world;
            let records = after.records;
            let removed = after.removed;
            Seen {
                number: 0,
                world: next,
                records,
                removed,
            }
        }
        Err(refusal) => untold(world, refusal.into()),
    }
}

fn untold(world: World, number: u32) -> Seen {
    let ids = [0i32; SEATS];
    let removed = Removed { count: 0, ids };
    let records = [unpublished(); SEATS];
    Seen {
        number,
        world,
        records,
        removed,
    }
}
