// Copies as numbers, and back: for each seat whether there is a copy, its record, its input, whether its small world has removed it, whether it was
// refused, and its steps.
ghost use Rattle.std.specs.Prelude.{◌≡◌, ◌*◌, ◌≤◌, ◌<◌, length, drop};
ghost use Rattle.character.specs.Tick.{seats};
ghost use Rattle.send_numbers.specs.Copies.{copy_count, sender_count, copy_numbers, copies_encoding, copy_in, copies_decoding};

use character::SEATS;
use game_records::{INPUT, core_of, input_numbers, input_of};
use num_convert::{cast_signed, cast_unsigned};
use send_rule::Copy;
use world::Published;
use world_numbers::{RECORD, flag, is_set, record_numbers};

// Where a copy's own marks stand, and its steps.
const REMOVED: usize = RECORD + INPUT;

const REFUSED: usize = REMOVED + 1;

const STEPS: usize = REFUSED + 1;

// How many numbers a copy has, and all copies of a sender.
pub const COPY: usize = STEPS + 1;

pub const SENDER: usize = COPY * SEATS;

fn copy_numbers(copy: Copy) -> [i32; COPY]
    ensures { result ≡ copy_numbers copy }
{
    let core = copy.core;
    let record = record_numbers(Published {
        present: copy.kept,
        core,
    });
    let input = input_numbers(copy.input);
    let marks = [
        flag(copy.removed),
        flag(copy.refused),
        cast_signed(copy.steps),
    ];
    let mut row = [0i32; COPY];
    base_rows::copy(&mut row, 0, &record);
    base_rows::copy(&mut row, RECORD, &input);
    base_rows::copy(&mut row, REMOVED, &marks);
    row
}

// By index: a row is put at a place that the index gives.
pub fn encode_copies(copies: [Copy; SEATS], numbers: &mut [i32])
    requires { length numbers.old ≡ sender_count }
    ensures { numbers.new ≡ copies_encoding copies }
{
    for i in 0..SEATS {
        let row = copy_numbers(copies[i]);
        base_rows::copy(numbers, COPY * i, &row);
    }
}

// The copy whose numbers a slice starts with.
fn copy_of(row: &[i32]) -> Copy
    requires { copy_count ≤ length row.now }
    ensures { result ≡ copy_in row.now }
{
    Copy {
        kept: is_set(row[0]),
        core: core_of(&row[1..]),
        input: input_of(&row[RECORD..]),
        removed: is_set(row[REMOVED]),
        refused: is_set(row[REFUSED]),
        steps: cast_unsigned(row[STEPS]),
    }
}

// The copy of the seat `id`.
pub fn copy_at(numbers: &[i32], id: usize) -> Copy
    requires { (length numbers.now ≡ sender_count) × (id < seats) }
    ensures { result ≡ copy_in (drop (copy_count * id) numbers.now) }
{
    let at = COPY * id;
    copy_of(&numbers[at..])
}

pub fn decode_copies(numbers: &[i32]) -> [Copy; SEATS]
    requires { length numbers.now ≡ sender_count }
    ensures { result ≡ copies_decoding seats numbers.now }
{
    let mut copies = [copy_at(numbers, 0); SEATS];
    for id in 0..SEATS {
        copies[id] = copy_at(numbers, id);
    }
    copies
}
