// The search of one line: an id, x and y, then how many numbers of the world and of the way are lent.
ghost use Rattle.std.specs.Prelude.{◌≤◌};

use map_tiles::Sides;
use num_convert::cast_unsigned;
use ponguriena::ponguriena_search;
use test_asking::Told;
use test_common::digest;
use world_numbers::WORLD;

// More numbers than a world and than a way have, so that too many can be lent.
const LENT: usize = WORLD + 1;

const LENT_WAY: usize = 16;

// What a way has in every number before the search.
const BEFORE: i32 = 77;

// A number of a line, and no more than there is room for.
fn up_to(value: i32, most: usize) -> usize
    ensures { result ≤ most }
{
    let count = cast_unsigned(value) as usize;
    if count < most { count } else { most }
}

pub fn searched(world: &[i32], sides: Sides, tiles: &[u8], role: i32, values: [i32; 7]) -> Told {
    let mut way = [BEFORE; LENT_WAY];
    searched_into(world, sides, tiles, role, values, &mut way)
}

// No world is looked at that is longer than one.
fn searched_into(
    world: &[i32],
    sides: Sides,
    tiles: &[u8],
    role: i32,
    values: [i32; 7],
    way: &mut [i32],
) -> Told {
    let longer = [0i32; LENT];
    let most = world.len();
    let length = up_to(values[4], LENT);
    let count = up_to(values[5], way.len());
    let lent = &mut way[0..count];
    let number = if length <= most {
        ponguriena_search(
            role,
            &world[0..length],
            sides.width,
            sides.height,
            tiles,
            values[1],
            values[2],
            values[3],
            lent,
        )
    } else {
        ponguriena_search(
            role,
            &longer,
            sides.width,
            sides.height,
            tiles,
            values[1],
            values[2],
            values[3],
            lent,
        )
    };
    Told {
        number,
        digest: digest(lent),
    }
}
