// A world with its sender and a screen, all as numbers: a call, and all that it passes along, received thing by thing.
ghost use Rattle.std.specs.Prelude.{◌≤◌};
ghost use Rattle.send_numbers.specs.Passing.{passed_count};

use character::SEATS;
use game_records::PlayerInput;
use game_refusals::number_of_answer;
use map_tiles::Sides;
use send_buffers::{
    receive_in, screen_fresh_in, send_leave_in, send_step_in, send_tune_in, sender_fresh_in,
};
use send_numbers::{MESSAGE, PASSED, SCREEN, SENDER};
use send_rule::MOST_PASSED;
use test_common::{digest, mix};
use world::Call;
use world_buffers::{fresh_in, input_in, join_in};
use world_numbers::{RECORDS, WORLD};

// What the last call answered, the digest of what it passed along, and what it left.
#[derive(Clone, Copy)]
pub struct Link {
    pub number: u32,
    pub passed_digest: u32,
    pub world: [i32; WORLD],
    pub sender: [i32; SENDER],
    pub screen: [i32; SCREEN],
}

impl Link {
    pub fn fresh() -> Link {
        let mut world = [0i32; WORLD];
        let mut sender = [0i32; SENDER];
        let mut screen = [0i32; SCREEN];
        let _ = fresh_in(&mut world);
        let _ = sender_fresh_in(&mut sender);
        let _ = screen_fresh_in(&mut screen);
        Link {
            number: 0,
            passed_digest: 0,
            world,
            sender,
            screen,
        }
    }

    pub fn sender_digest(self) -> u32 {
        let sender = self.sender;
        digest(&sender)
    }

    pub fn screen_digest(self) -> u32 {
        let screen = self.screen;
        digest(&screen)
    }
}

// The call, and then all that it passed along.
pub fn made(link: Link, sides: Sides, tiles: &[u8], call: Call) -> Link {
    let mut world = link.world;
    let mut sender = link.sender;
    let mut screen = link.screen;
    let mut passed = [0i32; PASSED];
    let mut count = 0usize;
    let number = call_in(
        &mut world,
        &mut sender,
        sides,
        tiles,
        call,
        &mut passed,
        &mut count,
    );
    let end = within(count);
    receive_all(&mut screen, sides, tiles, &passed[0..end]);
    Link {
        number,
        passed_digest: mix(digest(&passed[0..end]), end as i32),
        world,
        sender,
        screen,
    }
}

// A count that is none of the buffer's would show as another digest.
fn within(count: usize) -> usize
    ensures { result ≤ passed_count }
{
    if count > PASSED {
        return PASSED;
    }
    count
}

// Joins and inputs pass nothing along.
fn call_in(
    world: &mut [i32],
    sender: &mut [i32],
    sides: Sides,
    tiles: &[u8],
    call: Call,
    passed: &mut [i32],
    count: &mut usize,
) -> u32 {
    match call {
        Call::Join { id, x, y } => number_of_answer(join_in(world, sides, tiles, id, x, y)),
        Call::Leave { id } => number_of_answer(send_leave_in(world, sender, id, passed, count)),
        Call::Input {
            id,
            direction,
            target_x,
            target_y,
            jump,
            hook,
        } => {
            let values = PlayerInput {
                direction,
                target_x,
                target_y,
                jump,
                hook,
            };
            number_of_answer(input_in(world, id, values))
        }
        Call::Step => step_in(world, sender, sides, tiles, passed, count),
        Call::Tune { index, value } => number_of_answer(send_tune_in(
            world, sender, index, value, passed, count,
        )),
    }
}

// What the step publishes is looked at in test_world.
fn step_in(
    world: &mut [i32],
    sender: &mut [i32],
    sides: Sides,
    tiles: &[u8],
    passed: &mut [i32],
    count: &mut usize,
) -> u32 {
    let mut records = [0i32; RECORDS];
    let mut removed = [0i32; SEATS];
    let answer = send_step_in(
        world,
        sender,
        sides,
        tiles,
        &mut records,
        &mut removed,
        passed,
        count,
    );
    match answer {
        Ok(_) => 0,
        Err(refusal) => refusal.into(),
    }
}

// Each thing from where the last one ended; one that is refused ends it.
fn receive_all(screen: &mut [i32], sides: Sides, tiles: &[u8], passed: &[i32]) {
    let mut at = 0usize;
    for _ in 0..MOST_PASSED {
        let used = if at < passed.len() {
            receive_in(screen, sides, tiles, &passed[at..]).unwrap_or(0)
        } else {
            0
        };
        if used <= MESSAGE {
            at += used;
        }
    }
}
