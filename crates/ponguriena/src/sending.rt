// A sender beside a world, by the number of a role, and a screen.
ghost use Rattle.std.specs.Prelude.{◌≡◌};
ghost use Rattle.map_tiles.specs.Map.{sides_of};
ghost use Rattle.character.specs.Tick.{seats};
ghost use Rattle.world.specs.declared.call.Call.TheVariants as call;
ghost use Rattle.send_rule.specs.Send.{no_copies, fresh_screen};
ghost use Rattle.send_numbers.specs.Copies.{sender_count, screen_count, copies_encoding, screen_encoding};
ghost use Rattle.world_buffers.specs.Buffers.{leave_in, tune_in};
ghost use Rattle.send_buffers.specs.Sends.{fresh_buffer, send_in, send_step_in};
ghost use Rattle.send_buffers.specs.Screens.{receive_in, shown_in};
ghost use Rattle.ponguriena.specs.ByRole.{send_as, send_step_as};

use crate::answers::answer_with;
use game_refusals::{Refusal, number_of_answer};
use map_tiles::Sides;
use role_calls::may_ask;
use role_rule::Ask;
use world::Call;

pub fn ponguriena_sender_fresh(sender: &mut [i32]) -> u32
    ensures { fresh_buffer sender_count (copies_encoding (no_copies seats)) sender.old ≡ record { number = result; numbers = sender.new } }
{
    number_of_answer(send_buffers::sender_fresh_in(sender))
}

pub fn ponguriena_send_leave(
    role: i32,
    world: &mut [i32],
    sender: &mut [i32],
    id: i32,
    passed: &mut [i32],
    count: &mut usize,
) -> u32
    ensures { send_as role (call.Leave id) world.old (record { sender = sender.entry.now; passed = passed.old; count = count.old }) (send_in (call.Leave id) (leave_in world.old id) world.old (record { sender = sender.entry.now; passed = passed.old; count = count.old })) ≡ record { left = record { number = result; world = world.new }; sent = record { sender = sender.exit.now; passed = passed.new; count = count.new } } }
{
    if !may_ask(role, Ask::Call(Call::Leave { id })) {
        return Refusal::NotAllowed.into();
    }
    number_of_answer(send_buffers::send_leave_in(world, sender, id, passed, count))
}

pub fn ponguriena_send_tune(
    role: i32,
    world: &mut [i32],
    sender: &mut [i32],
    index: i32,
    value: i32,
    passed: &mut [i32],
    count: &mut usize,
) -> u32
    ensures { send_as role (call.Tune index value) world.old (record { sender = sender.entry.now; passed = passed.old; count = count.old }) (send_in (call.Tune index value) (tune_in world.old index value) world.old (record { sender = sender.entry.now; passed = passed.old; count = count.old })) ≡ record { left = record { number = result; world = world.new }; sent = record { sender = sender.exit.now; passed = passed.new; count = count.new } } }
{
    if !may_ask(role, Ask::Call(Call::Tune { index, value })) {
        return Refusal::NotAllowed.into();
    }
    number_of_answer(send_buffers::send_tune_in(world, sender, index, value, passed, count))
}

pub fn ponguriena_send_step(
    role: i32,
    world: &mut [i32],
    sender: &mut [i32],
    width: u32,
    height: u32,
    tiles: &[u8],
    records: &mut [i32],
    removed: &mut [i32],
    removed_count: &mut usize,
    passed: &mut [i32],
    count: &mut usize,
) -> u32
    ensures { send_step_as role world.old (record { records = records.entry.now; removed = removed.old; count = removed_count.old }) (record { sender = sender.entry.now; passed = passed.old; count = count.old }) (send_step_in (sides_of width height) tiles.now world.old (record { records = records.entry.now; removed = removed.old; count = removed_count.old }) (record { sender = sender.entry.now; passed = passed.old; count = count.old })) ≡ record { left = record { number = result; world = world.new; told = record { records = records.exit.now; removed = removed.new; count = removed_count.new } }; sent = record { sender = sender.exit.now; passed = passed.new; count = count.new } } }
{
    if !may_ask(role, Ask::Call(Call::Step)) {
        return Refusal::NotAllowed.into();
    }
    answer_with(
        send_buffers::send_step_in(
            world,
            sender,
            Sides { width, height },
            tiles,
            records,
            removed,
            passed,
            count,
        ),
        removed_count,
    )
}

pub fn ponguriena_screen_fresh(screen: &mut [i32]) -> u32
    ensures { fresh_buffer screen_count (screen_encoding (fresh_screen seats)) screen.old ≡ record { number = result; numbers = screen.new } }
{
    number_of_answer(send_buffers::screen_fresh_in(screen))
}

pub fn ponguriena_receive(
    screen: &mut [i32],
    width: u32,
    height: u32,
    tiles: &[u8],
    passed: &[i32],
    used: &mut usize,
) -> u32
    ensures { receive_in (sides_of width height) tiles.now screen.old passed.now used.old ≡ record { number = result; screen = screen.new; used = used.new } }
{
    answer_with(
        send_buffers::receive_in(screen, Sides { width, height }, tiles, passed),
        used,
    )
}

pub fn ponguriena_shown(screen: &[i32], id: i32, record: &mut [i32]) -> u32
    ensures { shown_in screen.now id «record».old ≡ record { number = result; numbers = «record».new } }
{
    number_of_answer(send_buffers::shown_in(screen, id, record))
}
