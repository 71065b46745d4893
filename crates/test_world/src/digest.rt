// A world and what a step publishes, each as one word: the digest of its numbers.
ghost use Rattle.std.specs.Prelude.{◌≡◌};
ghost use Rattle.test_world.specs.Digest.{world_digest, told_digest};

use character::SEATS;
use test_common::{digest, mix_first};
use world::{Published, Removed, World};
use world_numbers::{RECORDS, WORLD, encode, encode_records};

pub fn world_digest(world: World) -> u32
    ensures { result ≡ world_digest world }
{
    let mut numbers = [0i32; WORLD];
    encode(world, &mut numbers);
    digest(&numbers)
}

// A step that removes nobody has the digest of its records.
pub fn told_digest(records: [Published; SEATS], removed: Removed) -> u32
    ensures { result ≡ told_digest records removed }
{
    let mut numbers = [0i32; RECORDS];
    encode_records(records, &mut numbers);
    let ids = removed.ids;
    mix_first(digest(&numbers), &ids, removed.count)
}
