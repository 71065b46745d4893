// The ways of one, two and three steps, the shorter first. Steps that ways of one length share are taken once.
ghost use Rattle.std.specs.Prelude.{◌≡◌, ◌+◌, ◌*◌, ◌≤◌, ◌<◌, length};
ghost use Rattle.game_refusals.specs.Refusals.{number_of_answer};
ghost use Rattle.character.specs.Tick.{seats};
ghost use Rattle.world.specs.Calls.{place_of};
ghost use Rattle.world_numbers.specs.Encoding.{world_count};
ghost use Rattle.world_numbers.specs.Decoding.{decoding};
ghost use Rattle.search_rule.specs.Search.{first_among, first_way, goal_of};
ghost use Rattle.search_calls.specs.Numbers.{way_count, found_numbers, found_in, search_in};

use crate::stepping::{CHOICES, buttons_at, copy_world, step_with};
use base_rows::copy;
use game_records::PlayerInput;
use game_refusals::Refusal;
use map_tiles::{Sides, is_map};
use search_rule::Goal;
use world_buffers::seated_in;
use world_numbers::WORLD;

// How many steps the longest ways have.
const LONGEST: usize = 3;

// How many numbers stand for a way: how many steps, then direction and jump of each, and zeros behind them.
pub const WAY: usize = 1 + 2 * LONGEST;

// Whether there is a way with `more` steps before its last; the first is written from `at` on.
fn first_of(
    world: &[i32],
    sides: Sides,
    tiles: &[u8],
    goal: Goal,
    more: usize,
    way: &mut [i32],
    at: usize,
) -> bool
    requires { (length world.now ≡ world_count) × (place_of seats goal.id < seats) × (at + 2 * (more + 1) ≤ length way.old) }
    ensures { found_in way.old at (first_among seats sides tiles.now goal more (decoding seats world.now)) ≡ record { found = result; way = way.new } }
{
    let mut next = [0i32; WORLD];
    for i in 0..CHOICES {
        let buttons = buttons_at(i);
        copy_world(world, &mut next);
        let outcome = step_with(&mut next, sides, tiles, goal, buttons);
        let found = if more == 0 {
            outcome.arrives
        } else if outcome.goes_on {
            first_of(&next, sides, tiles, goal, more - 1, way, at + 2)
        } else {
            false
        };
        if found {
            let row = [buttons.direction, buttons.jump];
            copy(way, at, &row);
            return true;
        }
    }
    false
}

// The first way that counts, or zeros where none does.
fn tell_way(world: &[i32], sides: Sides, tiles: &[u8], goal: Goal, way: &mut [i32])
    requires { (length world.now ≡ world_count) × (place_of seats goal.id < seats) × (length way.old ≡ way_count) }
    ensures { way.new ≡ found_numbers (first_way seats sides tiles.now goal (decoding seats world.now)) }
{
    let zeros = [0i32; WAY];
    copy(way, 0, &zeros);
    for more in 0..LONGEST {
        if first_of(world, sides, tiles, goal, more, way, 1) {
            way[0] = more as i32 + 1;
            return;
        }
    }
}

fn goal_of(id: i32, x: i32, y: i32, input: PlayerInput) -> Goal
    ensures { result ≡ goal_of id x y input }
{
    Goal {
        id,
        x,
        y,
        target_x: input.target_x,
        target_y: input.target_y,
    }
}

pub fn search_in(
    world: &[i32],
    sides: Sides,
    tiles: &[u8],
    id: i32,
    x: i32,
    y: i32,
    way: &mut [i32],
) -> Result<(), Refusal>
    ensures { search_in sides tiles.now world.now id x y way.old ≡ record { number = number_of_answer result; numbers = way.new } }
{
    if world.len() != WORLD || way.len() != WAY {
        return Err(Refusal::BadLength);
    }
    if !is_map(sides, tiles) {
        return Err(Refusal::BadMap);
    }
    let slot = seated_in(world, id)?;
    tell_way(world, sides, tiles, goal_of(id, x, y, slot.input), way);
    Ok(())
}
