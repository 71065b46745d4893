// What an accepted step passes along: a mark, its messages by rising id, its removals.
ghost use Rattle.std.specs.Prelude.{◌≡◌, ◌+◌, ◌≤◌, Ok};
ghost use Rattle.character.specs.Tick.{seats};
ghost use Rattle.world.specs.Removal.{ids_in};
ghost use Rattle.world.specs.Step.{stepped_in};
ghost use Rattle.send_rule.specs.Send.{item, sending_of, send_messages, send_removals};
ghost use Rattle.send_calls.specs.Sending.{sent_in, IsListed};

use crate::copies::{copy_of, no_copy, step_copies};
use crate::due::due;
use character::SEATS;
use map_tiles::Sides;
use send_rule::{Copy, Item, MOST_PASSED, Passed, Sending};
use world::{Records, Removed, World};
use world_joins::place_of;

pub fn item(passed: Passed) -> Item
    ensures { result ≡ item passed }
{
    Item { passed }
}

// A bare mark, then that step's messages by rising id; each renews its copy.
pub fn send_messages(
    world: World,
    told: Records,
    copies: [Copy; SEATS],
    sides: Sides,
    tiles: &[u8],
) -> Sending
    ensures { (result ≡ sending_of seats (send_messages seats sides tiles.now world (stepped_in seats world (Ok told)) copies)) × (result.count ≤ 1 + seats) }
{
    let slots = world.slots;
    let records = told.records;
    let tunings = world.tunings;
    let mut all = step_copies(copies, sides, tiles, tunings);
    let mut items = [item(Passed::Mark); MOST_PASSED];
    let mut count = 1usize;
    for k in 0..SEATS {
        let slot = slots[k];
        let copy = all[k];
        let taken = records[k];
        let core = taken.core;
        let input = slot.input;
        if slot.present {
            if due(copy, core) {
                let id = k as u32;
                all[k] = copy_of(core, input);
                items[count] = item(Passed::Message { id, core, input });
                count += 1;
            }
        }
    }
    Sending {
        copies: all,
        count,
        items,
    }
}

// Then its removals.
pub fn send_removals(sending: Sending, removed: Removed) -> Sending
    requires { (sending ≡ sending_of seats (sent_in sending)) × (sending.count ≤ 1 + seats) × IsListed removed }
    ensures { result ≡ sending_of seats (send_removals (ids_in removed) (sent_in sending)) }
{
    let ids = removed.ids;
    let mut copies = sending.copies;
    let mut items = sending.items;
    let mut count = sending.count;
    for i in 0..removed.count {
        let at = place_of(SEATS, ids[i]);
        if at < SEATS {
            let id = at as u32;
            copies[at] = no_copy();
            items[count] = item(Passed::Removal { id });
            count += 1;
        }
    }
    Sending {
        copies,
        count,
        items,
    }
}
