// The sender: the call on the world, and what is passed along for it.
ghost use Rattle.std.specs.Prelude.{◌≡◌, [], ◌∷◌};
ghost use Rattle.character.specs.Tick.{seats};
ghost use Rattle.world.specs.Run.{ran};
ghost use Rattle.world.specs.Step.{stepped_in};
ghost use Rattle.send_rule.specs.Send.{sending_of, send_nothing, send_accepted, send};

use crate::copies::{no_copy, with_copy};
use crate::sending::{item, send_messages, send_removals};
use character::SEATS;
use game_refusals::Refusal;
use game_tuning::TUNINGS;
use map_tiles::Sides;
use send_rule::{Copy, MOST_PASSED, Passed, Sending};
use world::{Call, Records, World};
use world_joins::place_of;
use world_step::make_call;

// What a call answers, and what the sender does for it.
#[derive(Clone, Copy)]
pub struct Called {
    pub answer: Result<Records, Refusal>,
    pub sending: Sending,
}

pub fn send(
    world: &mut World,
    copies: [Copy; SEATS],
    sides: Sides,
    tiles: &[u8],
    call: Call,
) -> Called
    ensures { (stepped_in seats world.new result.answer ≡ ran seats sides tiles.now world.old call) × (result.sending ≡ sending_of seats (send seats sides tiles.now world.old copies call)) }
{
    let before = *world;
    let answer = make_call(world, sides, tiles, call);
    let sending = match answer {
        Ok(told) => send_accepted(before, copies, told, sides, tiles, call),
        Err(_) => send_nothing(copies),
    };
    Called { answer, sending }
}

// What an accepted call passes along; joins and inputs nothing.
fn send_accepted(
    world: World,
    copies: [Copy; SEATS],
    told: Records,
    sides: Sides,
    tiles: &[u8],
    call: Call,
) -> Sending
    requires { (told.records ≡ (ran seats sides tiles.now world call).records) × (told.removed ≡ (ran seats sides tiles.now world call).removed) }
    ensures { result ≡ sending_of seats (send_accepted seats sides tiles.now world copies call) }
{
    match call {
        Call::Join { .. } => send_nothing(copies),
        Call::Leave { id } => {
            let at = place_of(SEATS, id);
            let left = at as u32;
            send_one(with_copy(copies, at, no_copy()), Passed::Leave { id: left })
        }
        Call::Input { .. } => send_nothing(copies),
        Call::Step => {
            let removed = told.removed;
            send_removals(send_messages(world, told, copies, sides, tiles), removed)
        }
        Call::Tune { index, value } => {
            let at = place_of(TUNINGS, index) as u32;
            send_one(copies, Passed::Tune { index: at, value })
        }
    }
}

fn send_nothing(copies: [Copy; SEATS]) -> Sending
    ensures { result ≡ sending_of seats (send_nothing copies) }
{
    Sending {
        copies,
        count: 0,
        items: [item(Passed::Mark); MOST_PASSED],
    }
}

fn send_one(copies: [Copy; SEATS], passed: Passed) -> Sending
    ensures { result ≡ sending_of seats (record { copies = copies; passed = passed ∷ [] }) }
{
    let mut items = [item(Passed::Mark); MOST_PASSED];
    items[0] = item(passed);
    Sending {
        copies,
        count: 1,
        items,
    }
}
