// What is passed along as numbers: each thing begins with its kind.
ghost use Rattle.std.specs.Prelude.{◌≡◌, ◌+◌, ◌≤◌, length};
ghost use Rattle.base_rows.specs.Put.{put};
ghost use Rattle.character.specs.Tick.{seats};
ghost use Rattle.send_rule.specs.Send.{most_passed, first_among};
ghost use Rattle.send_numbers.specs.Passing.{message_count, passed_count, message_numbers, passed_numbers, all_numbers};

use game_records::{CORE, CharacterCore, INPUT, PlayerInput, core_numbers, input_numbers};
use num_convert::cast_signed;
use send_rule::{Item, MOST_PASSED, Passed};

// The kinds.
pub const KIND_MARK: i32 = 0;

pub const KIND_MESSAGE: i32 = 1;

pub const KIND_REMOVAL: i32 = 2;

pub const KIND_LEAVE: i32 = 3;

pub const KIND_TUNE: i32 = 4;

// How many numbers a message has, which is the longest.
pub const MESSAGE: usize = 2 + CORE + INPUT;

// Room for the most that a call passes along, each as long as the longest.
pub const PASSED: usize = MESSAGE * MOST_PASSED;

fn message_numbers(id: u32, core: CharacterCore, input: PlayerInput) -> [i32; MESSAGE]
    ensures { result ≡ message_numbers id core input }
{
    let head = [KIND_MESSAGE, cast_signed(id)];
    let record = core_numbers(core);
    let used = input_numbers(input);
    let mut row = [0i32; MESSAGE];
    base_rows::copy(&mut row, 0, &head);
    base_rows::copy(&mut row, 2, &record);
    base_rows::copy(&mut row, 2 + CORE, &used);
    row
}

// Puts a thing's numbers into a buffer from `at` on, and tells where they end.
fn put_passed(passed: Passed, at: usize, numbers: &mut [i32]) -> usize
    requires { at + message_count ≤ length numbers.old }
    ensures { (numbers.new ≡ put numbers.old at (passed_numbers passed)) × (result ≡ at + length (passed_numbers passed)) }
{
    match passed {
        Passed::Mark => {
            base_rows::copy(numbers, at, &[KIND_MARK]);
            at + 1
        }
        Passed::Message { id, core, input } => {
            let row = message_numbers(id, core, input);
            base_rows::copy(numbers, at, &row);
            at + MESSAGE
        }
        Passed::Removal { id } => {
            base_rows::copy(numbers, at, &[KIND_REMOVAL, cast_signed(id)]);
            at + 2
        }
        Passed::Leave { id } => {
            base_rows::copy(numbers, at, &[KIND_LEAVE, cast_signed(id)]);
            at + 2
        }
        Passed::Tune { index, value } => {
            base_rows::copy(numbers, at, &[KIND_TUNE, cast_signed(index), value]);
            at + 3
        }
    }
}

// Puts the first `count` things into a buffer, one after the other, and tells how many numbers they have.
pub fn encode_items(items: [Item; MOST_PASSED], count: usize, numbers: &mut [i32]) -> usize
    requires { (count ≤ most_passed seats) × (length numbers.old ≡ passed_count) }
    ensures { (numbers.new ≡ put numbers.old 0 (all_numbers (first_among count items))) × (result ≡ length (all_numbers (first_among count items))) }
{
    let mut at = 0;
    for i in 0..count {
        let item = items[i];
        let passed = item.passed;
        at = put_passed(passed, at, numbers);
    }
    at
}
