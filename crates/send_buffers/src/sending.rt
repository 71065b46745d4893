// The calls that pass something along, on a world and a sender's copies that are kept as the numbers of lent buffers. A refused call leaves every number of
// every buffer as it was.
ghost use Rattle.std.specs.Prelude.{◌≡◌, ◌≤◌, ℕ, length};
ghost use Rattle.std.specs.Result.{result_unwrap_or};
ghost use Rattle.game_refusals.specs.Refusals.{number_of_answer};
ghost use Rattle.character.specs.Tick.{seats};
ghost use Rattle.world.specs.declared.call.Call.TheVariants as call;
ghost use Rattle.send_rule.specs.Send.{no_copies, most_passed};
ghost use Rattle.send_calls.specs.Sending.{sent_in};
ghost use Rattle.world_buffers.specs.Buffers.{leave_in, tune_in};
ghost use Rattle.send_numbers.specs.Copies.{sender_count, copies_encoding};
ghost use Rattle.send_numbers.specs.Passing.{passed_count};
ghost use Rattle.send_buffers.specs.Sends.{fresh_buffer, keep_sent, room_in, passed_in, send_in, send_step_in};

use character::SEATS;
use game_refusals::Refusal;
use map_tiles::Sides;
use send_calls::{no_copies, send};
use send_numbers::{PASSED, SENDER, decode_copies, encode_copies, encode_items};
use send_rule::Sending;
use world::{Call, Records};
use world_buffers::{leave_in, tune_in, write_step};
use world_numbers::{RECORDS, WORLD, decode};

pub fn sender_fresh_in(sender: &mut [i32]) -> Result<(), Refusal>
    ensures { fresh_buffer sender_count (copies_encoding (no_copies seats)) sender.old ≡ record { number = number_of_answer result; numbers = sender.new } }
{
    if sender.len() != SENDER {
        return Err(Refusal::BadLength);
    }
    encode_copies(no_copies(), sender);
    Ok(())
}

// Leaves the next copies and what is passed along in the buffers where the call was accepted.
fn keep_sent(
    answer: Result<Records, Refusal>,
    sending: Sending,
    sender: &mut [i32],
    passed: &mut [i32],
    count: &mut usize,
)
    requires { (length sender.old ≡ sender_count) × (length passed.old ≡ passed_count) × (sending.count ≤ most_passed seats) }
    ensures { keep_sent (record { sender = sender.entry.now; passed = passed.old; count = count.old }) (number_of_answer answer) (sent_in sending) ≡ record { sender = sender.exit.now; passed = passed.new; count = count.new } }
{
    if answer.is_ok() {
        let copies = sending.copies;
        let items = sending.items;
        encode_copies(copies, sender);
        *count = encode_items(items, sending.count, passed);
    }
}

// What a call that needs no map passes along.
fn pass_in(
    world: &[i32],
    sender: &mut [i32],
    call: Call,
    passed: &mut [i32],
    count: &mut usize,
) -> Result<(), Refusal>
    ensures { (result ≡ room_in world.now (record { sender = sender.entry.now; passed = passed.old; count = count.old })) × (passed_in call world.now (record { sender = sender.entry.now; passed = passed.old; count = count.old }) ≡ record { sender = sender.exit.now; passed = passed.new; count = count.new }) }
{
    if world.len() != WORLD || sender.len() != SENDER || passed.len() != PASSED {
        return Err(Refusal::BadLength);
    }
    let none = Sides {
        width: 0,
        height: 0,
    };
    let mut next = decode(world);
    let called = send(&mut next, decode_copies(sender), none, b"", call);
    keep_sent(called.answer, called.sending, sender, passed, count);
    Ok(())
}

pub fn send_leave_in(
    world: &mut [i32],
    sender: &mut [i32],
    id: i32,
    passed: &mut [i32],
    count: &mut usize,
) -> Result<(), Refusal>
    ensures { send_in (call.Leave id) (leave_in world.old id) world.old (record { sender = sender.entry.now; passed = passed.old; count = count.old }) ≡ record { left = record { number = number_of_answer result; world = world.new }; sent = record { sender = sender.exit.now; passed = passed.new; count = count.new } } }
{
    pass_in(world, sender, Call::Leave { id }, passed, count)?;
    leave_in(world, id)
}

pub fn send_tune_in(
    world: &mut [i32],
    sender: &mut [i32],
    index: i32,
    value: i32,
    passed: &mut [i32],
    count: &mut usize,
) -> Result<(), Refusal>
    ensures { send_in (call.Tune index value) (tune_in world.old index value) world.old (record { sender = sender.entry.now; passed = passed.old; count = count.old }) ≡ record { left = record { number = number_of_answer result; world = world.new }; sent = record { sender = sender.exit.now; passed = passed.new; count = count.new } } }
{
    pass_in(world, sender, Call::Tune { index, value }, passed, count)?;
    tune_in(world, index, value)
}

pub fn send_step_in(
    world: &mut [i32],
    sender: &mut [i32],
    sides: Sides,
    tiles: &[u8],
    records: &mut [i32],
    removed: &mut [i32],
    passed: &mut [i32],
    count: &mut usize,
) -> Result<usize, Refusal>
    ensures { (n : ℕ) → send_step_in sides tiles.now world.old (record { records = records.entry.now; removed = removed.old; count = n }) (record { sender = sender.entry.now; passed = passed.old; count = count.old }) ≡ record { left = record { number = number_of_answer result; world = world.new; told = record { records = records.exit.now; removed = removed.new; count = result_unwrap_or result n } }; sent = record { sender = sender.exit.now; passed = passed.new; count = count.new } } }
{
    if world.len() != WORLD
        || records.len() != RECORDS
        || removed.len() != SEATS
        || sender.len() != SENDER
        || passed.len() != PASSED
    {
        return Err(Refusal::BadLength);
    }
    let mut next = decode(world);
    let called = send(&mut next, decode_copies(sender), sides, tiles, Call::Step);
    let answer = called.answer;
    keep_sent(answer, called.sending, sender, passed, count);
    let told = answer?;
    write_step(next, told, world, records, removed);
    Ok(told.removed.count)
}
