// What one line reads, by the number of a role, of a world that is kept as numbers.
use game_records::{CORE, INPUT};
use ponguriena::{
    ponguriena_floor_mark, ponguriena_player_input, ponguriena_record, ponguriena_tuning,
};
use test_asking::Told;
use test_common::digest;

// 6 is a record, 7 a floor mark, 8 an input, any other kind a tuning. A refused read leaves zeros.
pub fn read(world: &[i32], role: i32, kind: i32, argument: i32) -> Told {
    if kind == 6 {
        let mut record = [0i32; CORE];
        let number = ponguriena_record(role, world, argument, &mut record);
        return Told {
            number,
            digest: digest(&record),
        };
    }
    if kind == 8 {
        let mut input = [0i32; INPUT];
        let number = ponguriena_player_input(role, world, argument, &mut input);
        return Told {
            number,
            digest: digest(&input),
        };
    }
    let mut value = 0i32;
    let number = if kind == 7 {
        ponguriena_floor_mark(role, world, argument, &mut value)
    } else {
        ponguriena_tuning(role, world, argument, &mut value)
    };
    let one = [value];
    Told {
        number,
        digest: digest(&one),
    }
}
