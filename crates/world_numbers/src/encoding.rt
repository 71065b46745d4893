// A world, and the records of a step, into the numbers of a buffer: the tunings, then for each seat its presence, its record, its input and its floor mark.
// A seat where nobody is has zeros.
ghost use Rattle.std.specs.Prelude.{◌≡◌, ◌<◌, length};
ghost use Rattle.character.specs.Tick.{seats};
ghost use Rattle.world_numbers.specs.Encoding.{seat_place, world_count, records_count, flag, net_core, record_numbers, present_numbers, seat_numbers, encoding, records_encoding};

use base_rows::copy;
use character::{SEATS, Slot};
use game_records::{CORE, CharacterCore, INPUT, core_numbers, input_numbers};
use game_refusals::Refusal;
use game_tuning::TUNINGS;
use world::{Published, World};
use world_step::unpublished;

// How many numbers a seat has among the records of a step, in a world before its floor mark, and in a world.
pub const RECORD: usize = 1 + CORE;

pub const MARK: usize = RECORD + INPUT;

pub const SEAT: usize = MARK + 1;

// How many a world has, and the records of a step.
pub const WORLD: usize = TUNINGS + SEAT * SEATS;

pub const RECORDS: usize = RECORD * SEATS;

// Where a seat's hook begins in it: who is held, then its state, tick, position and direction.
pub const HOOK: usize = 9;

pub const STATE: usize = HOOK + 1;

// Where the numbers of a seat begin in a world.
pub fn seat_place(id: usize) -> usize
    requires { id < seats }
    ensures { result ≡ seat_place id }
{
    TUNINGS + SEAT * id
}

pub fn flag(set: bool) -> i32
    ensures { result ≡ flag set }
{
    if set { 1 } else { 0 }
}

pub fn net_core(net: Result<CharacterCore, Refusal>) -> CharacterCore
    ensures { result ≡ net_core net }
{
    match net {
        Err(_) => unpublished().core,
        Ok(core) => core,
    }
}

pub fn record_numbers(published: Published) -> [i32; RECORD]
    ensures { result ≡ record_numbers published }
{
    let core = core_numbers(published.core);
    let mut row = [0i32; RECORD];
    row[0] = flag(published.present);
    copy(&mut row, 1, &core);
    row
}

// The numbers of a seat where somebody is.
pub fn present_numbers(slot: Slot) -> [i32; SEAT]
    ensures { result ≡ present_numbers slot }
{
    let character = slot.character;
    let record = record_numbers(Published {
        present: true,
        core: net_core(character.to_net()),
    });
    let input = input_numbers(slot.input);
    let mut row = [0i32; SEAT];
    copy(&mut row, 0, &record);
    copy(&mut row, RECORD, &input);
    row[MARK] = flag(slot.grounded);
    row
}

fn seat_numbers(slot: Slot) -> [i32; SEAT]
    ensures { result ≡ seat_numbers slot }
{
    if slot.present {
        return present_numbers(slot);
    }
    [0i32; SEAT]
}

// Inlined, so that a world that is made for it is not copied for the call.
#[inline(always)]
pub fn encode(world: World, numbers: &mut [i32])
    requires { length numbers.old ≡ world_count }
    ensures { numbers.new ≡ encoding world }
{
    let tunings = world.tunings;
    let slots = world.slots;
    copy(numbers, 0, &tunings);
    for i in 0..SEATS {
        let row = seat_numbers(slots[i]);
        copy(numbers, seat_place(i), &row);
    }
}

pub fn encode_records(records: [Published; SEATS], numbers: &mut [i32])
    requires { length numbers.old ≡ records_count }
    ensures { numbers.new ≡ records_encoding records }
{
    for i in 0..SEATS {
        let row = record_numbers(records[i]);
        copy(numbers, RECORD * i, &row);
    }
}
