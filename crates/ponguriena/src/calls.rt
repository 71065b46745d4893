// The calls on a world that is kept as the numbers of a lent buffer, by the number of a role.
ghost use Rattle.std.specs.Prelude.{◌≡◌};
ghost use Rattle.map_tiles.specs.Map.{sides_of};
ghost use Rattle.world.specs.Run.{input_of};
ghost use Rattle.world.specs.declared.call.Call.TheVariants as call;
ghost use Rattle.world_buffers.specs.Buffers.{fresh_in, join_in, leave_in, input_in, tune_in};
ghost use Rattle.world_buffers.specs.Stepping.{step_in};
ghost use Rattle.ponguriena.specs.ByRole.{call_as, step_as};

use crate::answers::answer_with;
use game_records::PlayerInput;
use game_refusals::{Refusal, number_of_answer};
use map_tiles::Sides;
use role_calls::may_ask;
use role_rule::Ask;
use world::Call;

pub fn ponguriena_fresh(world: &mut [i32]) -> u32
    ensures { fresh_in world.old ≡ record { number = result; world = world.new } }
{
    number_of_answer(world_buffers::fresh_in(world))
}

pub fn ponguriena_join(
    role: i32,
    world: &mut [i32],
    width: u32,
    height: u32,
    tiles: &[u8],
    id: i32,
    x: i32,
    y: i32,
) -> u32
    ensures { call_as role (call.Join id x y) world.old (join_in (sides_of width height) tiles.now world.old id x y) ≡ record { number = result; world = world.new } }
{
    if !may_ask(role, Ask::Call(Call::Join { id, x, y })) {
        return Refusal::NotAllowed.into();
    }
    number_of_answer(world_buffers::join_in(world, Sides { width, height }, tiles, id, x, y))
}

pub fn ponguriena_leave(role: i32, world: &mut [i32], id: i32) -> u32
    ensures { call_as role (call.Leave id) world.old (leave_in world.old id) ≡ record { number = result; world = world.new } }
{
    if !may_ask(role, Ask::Call(Call::Leave { id })) {
        return Refusal::NotAllowed.into();
    }
    number_of_answer(world_buffers::leave_in(world, id))
}

pub fn ponguriena_input(
    role: i32,
    world: &mut [i32],
    id: i32,
    direction: i32,
    target_x: i32,
    target_y: i32,
    jump: i32,
    hook: i32,
) -> u32
    ensures { call_as role (call.Input id direction target_x target_y jump hook) world.old (input_in world.old id (input_of direction target_x target_y jump hook)) ≡ record { number = result; world = world.new } }
{
    if !may_ask(
        role,
        Ask::Call(Call::Input {
            id,
            direction,
            target_x,
            target_y,
            jump,
            hook,
        }),
    ) {
        return Refusal::NotAllowed.into();
    }
    let values = PlayerInput {
        direction,
        target_x,
        target_y,
        jump,
        hook,
    };
    number_of_answer(world_buffers::input_in(world, id, values))
}

pub fn ponguriena_tune(role: i32, world: &mut [i32], index: i32, value: i32) -> u32
    ensures { call_as role (call.Tune index value) world.old (tune_in world.old index value) ≡ record { number = result; world = world.new } }
{
    if !may_ask(role, Ask::Call(Call::Tune { index, value })) {
        return Refusal::NotAllowed.into();
    }
    number_of_answer(world_buffers::tune_in(world, index, value))
}

pub fn ponguriena_step(
    role: i32,
    world: &mut [i32],
    width: u32,
    height: u32,
    tiles: &[u8],
    records: &mut [i32],
    removed: &mut [i32],
    count: &mut usize,
) -> u32
    ensures { step_as role world.old (record { records = records.entry.now; removed = removed.old; count = count.old }) (step_in (sides_of width height) tiles.now world.old (record { records = records.entry.now; removed = removed.old; count = count.old })) ≡ record { number = result; world = world.new; told = record { records = records.exit.now; removed = removed.new; count = count.new } } }
{
    if !may_ask(role, Ask::Call(Call::Step)) {
        return Refusal::NotAllowed.into();
    }
    answer_with(
        world_buffers::step_in(world, Sides { width, height }, tiles, records, removed),
        count,
    )
}
