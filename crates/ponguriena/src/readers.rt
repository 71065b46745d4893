// What is read of a world that is kept as the numbers of a lent buffer, by the number of a role.
ghost use Rattle.std.specs.Prelude.{[], ◌∷◌, ◌≡◌};
ghost use Rattle.world.specs.declared.reading.Query.TheVariants as query;
ghost use Rattle.world_buffers.specs.Readers.{read_in};
ghost use Rattle.ponguriena.specs.ByRole.{read_in_as};

use crate::answers::answer_with;
use game_refusals::{Refusal, number_of_answer};
use role_calls::may_ask;
use role_rule::Ask;
use world::Query;

pub fn ponguriena_record(role: i32, world: &[i32], id: i32, record: &mut [i32]) -> u32
    ensures { read_in_as role (query.Record id) «record».old (read_in (query.Record id) world.now «record».old) ≡ record { number = result; numbers = «record».new } }
{
    if !may_ask(role, Ask::Read(Query::Record(id))) {
        return Refusal::NotAllowed.into();
    }
    number_of_answer(world_buffers::record_in(world, id, record))
}

pub fn ponguriena_player_input(role: i32, world: &[i32], id: i32, input: &mut [i32]) -> u32
    ensures { read_in_as role (query.PlayerInput id) input.old (read_in (query.PlayerInput id) world.now input.old) ≡ record { number = result; numbers = input.new } }
{
    if !may_ask(role, Ask::Read(Query::PlayerInput(id))) {
        return Refusal::NotAllowed.into();
    }
    number_of_answer(world_buffers::player_input_in(world, id, input))
}

pub fn ponguriena_tuning(role: i32, world: &[i32], index: i32, value: &mut i32) -> u32
    ensures { read_in_as role (query.Tuning index) (value.old ∷ []) (read_in (query.Tuning index) world.now (value.old ∷ [])) ≡ record { number = result; numbers = value.new ∷ [] } }
{
    if !may_ask(role, Ask::Read(Query::Tuning(index))) {
        return Refusal::NotAllowed.into();
    }
    answer_with(world_buffers::tuning_in(world, index), value)
}

pub fn ponguriena_floor_mark(role: i32, world: &[i32], id: i32, mark: &mut i32) -> u32
    ensures { read_in_as role (query.FloorMark id) (mark.old ∷ []) (read_in (query.FloorMark id) world.now (mark.old ∷ [])) ≡ record { number = result; numbers = mark.new ∷ [] } }
{
    if !may_ask(role, Ask::Read(Query::FloorMark(id))) {
        return Refusal::NotAllowed.into();
    }
    answer_with(world_buffers::floor_mark_in(world, id), mark)
}
