// What an accepted step leaves in the buffers: the records and floor marks at the seats, without who is removed, and what is told.
ghost use Rattle.std.specs.Prelude.{◌≡◌, ℕ, ◌<◌, length};
ghost use Rattle.game_records.specs.Numbers.{core_count};
ghost use Rattle.character.specs.Tick.{seats};
ghost use Rattle.world_numbers.specs.Encoding.{world_count, records_count};
ghost use Rattle.world_buffers.specs.Leaving.{ListsSeats};
ghost use Rattle.world_buffers.specs.Stepping.{seat_written, step_seats, left_by_step, OfStep, StepWritten, MarksOf};

use crate::leaving::remove_in;
use base_rows::copy;
use character::{SEATS, Slot};
use world::{Records, Removed, World};
use world_numbers::{MARK, RECORD, RECORDS, encode_records, flag, is_set, seat_place};

// Where somebody is at a seat, it takes the numbers of a record and a floor mark.
fn write_seat(world: &mut [i32], seat: usize, core: &[i32], grounded: bool)
    requires { (length world.old ≡ world_count) × (seat < seats) × (length core.now ≡ core_count) }
    ensures { world.new ≡ seat_written world.old seat core.now grounded }
{
    let at = seat_place(seat);
    if is_set(world[at]) {
        copy(world, at + 1, core);
        world[at + MARK] = flag(grounded);
    }
}

// The records of a step go into the seats where somebody is.
fn write_seats(world: &mut [i32], rows: &[i32], marks: &[bool; SEATS])
    requires { (length world.old ≡ world_count) × (length rows.now ≡ records_count) }
    ensures { OfStep rows.now marks.now (λ a. world.new ≡ step_seats a world.old) }
{
    for j in 0..SEATS {
        let at = RECORD * j;
        write_seat(world, j, &rows[at + 1..at + RECORD], marks[j]);
    }
}

// The rows of the records are told as they are.
pub fn tell_step(
    rows: &[i32],
    marks: &[bool; SEATS],
    gone: Removed,
    world: &mut [i32],
    records: &mut [i32],
    removed: &mut [i32],
)
    requires { (length rows.now ≡ records_count) × (length world.old ≡ world_count) × (length records.old ≡ records_count) × (length removed.old ≡ seats) × ListsSeats gone }
    ensures { OfStep rows.now marks.now (λ a. (n : ℕ) → StepWritten gone world.old (record { records = records.entry.now; removed = removed.old; count = n }) world.new (record { records = records.exit.now; removed = removed.new; count = gone.count }) a) }
{
    let ids = gone.ids;
    write_seats(world, rows, marks);
    remove_in(world, gone);
    copy(records, 0, rows);
    copy(removed, 0, &ids);
}

fn marks_of(slots: [Slot; SEATS]) -> [bool; SEATS]
    ensures { MarksOf slots result }
{
    let mut marks = [false; SEATS];
    for j in 0..SEATS {
        let slot = slots[j];
        marks[j] = slot.grounded;
    }
    marks
}

// Writes a step into the buffers that was made on a `World` outside them.
pub fn write_step(
    next: World,
    told: Records,
    world: &mut [i32],
    records: &mut [i32],
    removed: &mut [i32],
)
    requires { (length world.old ≡ world_count) × (length records.old ≡ records_count) × (length removed.old ≡ seats) × ListsSeats told.removed }
    ensures { (n : ℕ) → left_by_step world.old (record { records = records.entry.now; removed = removed.old; count = n }) (record { number = 0; world = next; records = told.records; removed = told.removed }) ≡ record { number = 0; world = world.new; told = record { records = records.exit.now; removed = removed.new; count = told.removed.count } } }
{
    let published = told.records;
    let gone = told.removed;
    let slots = next.slots;
    let mut rows = [0i32; RECORDS];
    encode_records(published, &mut rows);
    let marks = marks_of(slots);
    tell_step(&rows, &marks, gone, world, records, removed);
}
