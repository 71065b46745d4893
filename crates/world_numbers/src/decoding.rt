// A world out of the numbers of a buffer.
ghost use Rattle.std.specs.Prelude.{◌≡◌, ◌≤◌, ◌<◌, length, take, drop};
ghost use Rattle.character.specs.Tick.{seats};
ghost use Rattle.game_tuning.specs.Tuning.{tuning_count};
ghost use Rattle.world_numbers.specs.Encoding.{seat_count, world_count, seat_place};
ghost use Rattle.world_numbers.specs.Decoding.{from_zero, is_set, readable, seat_of, seats_of, decoding};

use crate::encoding::{MARK, RECORD, seat_place};
use base_rows::copy;
use character::{Character, SEATS, Slot};
use game_records::{CharacterCore, Tick, core_of, input_of};
use game_tuning::TUNINGS;
use world::World;

pub fn is_set(z: i32) -> bool
    ensures { result ≡ is_set z }
{
    z != 0
}

fn from_zero(z: i32) -> i32
    ensures { result ≡ from_zero z }
{
    if z < 0 { 0 } else { z }
}

// A hook tick below zero would be held for more ticks than a record holds.
fn readable(mut core: CharacterCore) -> CharacterCore
    ensures { result ≡ readable core }
{
    let ticks = core.hook_tick;
    let read = Tick(from_zero(ticks.0));
    core.hook_tick = read;
    core
}

// The seat whose numbers a slice starts with.
fn seat_of(seat: &[i32]) -> Slot
    requires { seat_count ≤ length seat.now }
    ensures { result ≡ seat_of seat.now }
{
    if is_set(seat[0]) {
        let character = Character::from_net(readable(core_of(&seat[1..])));
        Slot::joined(character.pos)
            .with_character(character)
            .with_input(input_of(&seat[RECORD..]))
            .with_grounded(is_set(seat[MARK]))
    } else {
        Slot::empty()
    }
}

// The seat with the id `id` of a world's numbers.
pub fn seat_at(numbers: &[i32], id: usize) -> Slot
    requires { (length numbers.now ≡ world_count) × (id < seats) }
    ensures { result ≡ seat_of (drop (seat_place id) numbers.now) }
{
    let at = seat_place(id);
    seat_of(&numbers[at..])
}

fn seats_of(numbers: &[i32]) -> [Slot; SEATS]
    requires { length numbers.now ≡ world_count }
    ensures { result ≡ seats_of seats (drop tuning_count numbers.now) }
{
    let mut slots = [Slot::empty(); SEATS];
    for id in 0..SEATS {
        slots[id] = seat_at(numbers, id);
    }
    slots
}

// The tunings that a slice starts with.
pub fn tunings_of(numbers: &[i32]) -> [i32; TUNINGS]
    requires { tuning_count ≤ length numbers.now }
    ensures { result ≡ take tuning_count numbers.now }
{
    let mut tunings = [0i32; TUNINGS];
    copy(&mut tunings, 0, &numbers[0..TUNINGS]);
    tunings
}

pub fn decode(numbers: &[i32]) -> World
    requires { length numbers.now ≡ world_count }
    ensures { result ≡ decoding seats numbers.now }
{
    World {
        slots: seats_of(numbers),
        tunings: tunings_of(numbers),
    }
}
