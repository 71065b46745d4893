// How somebody could get to a place, by the number of a role.
ghost use Rattle.std.specs.Prelude.{◌≡◌};
ghost use Rattle.map_tiles.specs.Map.{sides_of};
ghost use Rattle.search_calls.specs.Numbers.{search_in};
ghost use Rattle.ponguriena.specs.ByRole.{search_as};

use game_refusals::{Refusal, number_of_answer};
use map_tiles::Sides;
use role_calls::may_ask;
use role_rule::Ask;
use world::Call;

pub fn ponguriena_search(
    role: i32,
    world: &[i32],
    width: u32,
    height: u32,
    tiles: &[u8],
    id: i32,
    x: i32,
    y: i32,
    way: &mut [i32],
) -> u32
    ensures { search_as role way.old (search_in (sides_of width height) tiles.now world.now id x y way.old) ≡ record { number = result; numbers = way.new } }
{
    if !may_ask(role, Ask::Call(Call::Step)) {
        return Refusal::NotAllowed.into();
    }
    number_of_answer(search_calls::search_in(world, Sides { width, height }, tiles, id, x, y, way))
}
