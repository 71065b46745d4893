// The run of a tuning: inputs, step and what is kept of the players, on the numbers of a world in place.
ghost use Rattle.std.specs.Prelude.{List, ◌≡◌, ℕ, ◌<◌, T, length};
ghost use Rattle.game_tuning.specs.Tuning.{tuning_count};
ghost use Rattle.map_tiles.specs.Map.{is_side, is_map};
ghost use Rattle.character.specs.Tick.{seats};
ghost use Rattle.world_numbers.specs.Encoding.{world_count, records_count};
ghost use Rattle.world_numbers.specs.Decoding.{decoding};
ghost use Rattle.trial_rule.specs.Trial.{towards, noted_all, tuned_to, tried};
ghost use Rattle.trial_runs.specs.InPlace.{IsWorld, trial_input, steered_at, steered_all, noted_at, RecordsOf};

use crate::players::noted;
use base_rows::copy;
use character::SEATS;
use game_records::PlayerInput;
use map_tiles::{Sides, tile_at};
use num_convert::i32_to_f32;
use trial_rule::{Player, Tried};
use world_buffers::{input_in, step_in};
use world_numbers::{RECORD, RECORDS, WORLD, flag, is_set, seat_place};

// Where x and y stand among the numbers of a seat.
const X: usize = 2;

const Y: usize = 3;

fn towards(own: u32, target: u32) -> i32
    ensures { result ≡ towards own target }
{
    if target < own {
        return -1;
    }
    if own < target {
        return 1;
    }
    0
}

// The input of a player at x.
fn trial_input(player: Player, sides: Sides, x: i32) -> PlayerInput
    requires { T (is_side sides.width) }
    ensures { result ≡ trial_input sides player x }
{
    let own = tile_at(i32_to_f32(x), sides.width);
    PlayerInput {
        direction: towards(own, player.column as u32),
        target_x: 0,
        target_y: 0,
        jump: flag(player.stayed),
        hook: 0,
    }
}

// Where nobody is there is nothing to do.
fn steer_seat(world: &mut [i32], seat: usize, player: Player, sides: Sides)
    requires { (length world.old ≡ world_count) × (seat < seats) × T (is_side sides.width) }
    ensures { world.new ≡ steered_at sides player seat world.old }
{
    let at = seat_place(seat);
    if is_set(world[at]) {
        let x = world[at + X];
        let _ = input_in(world, seat as i32, trial_input(player, sides, x));
    }
}

fn steer_all(world: &mut [i32], players: [Player; SEATS], sides: Sides)
    requires { (length world.old ≡ world_count) × T (is_side sides.width) }
    ensures { world.new ≡ steered_all sides players world.old }
{
    for j in 0..SEATS {
        steer_seat(world, j, players[j], sides);
    }
}

// What the records of a step make of a player.
fn note_seat(records: &[i32], seat: usize, player: Player, sides: Sides, step: u16) -> Player
    requires { (length records.now ≡ records_count) × (seat < seats) × T (is_side sides.width) × T (is_side sides.height) }
    ensures { result ≡ noted_at sides step records.now seat player }
{
    let at = RECORD * seat;
    if is_set(records[at]) {
        let x = records[at + X];
        let y = records[at + Y];
        return noted(player, sides, step, x, y);
    }
    player
}

// By index: two rows are read at one place.
fn note_all(
    mut players: [Player; SEATS],
    records: &[i32],
    sides: Sides,
    step: u16,
) -> [Player; SEATS]
    requires { (length records.now ≡ records_count) × T (is_side sides.width) × T (is_side sides.height) }
    ensures { RecordsOf records.now (λ rs. result ≡ noted_all seats sides step rs players) }
{
    for j in 0..SEATS {
        let player = note_seat(records, j, players[j], sides, step);
        players[j] = player;
    }
    players
}

// Up to `steps` steps from the numbers of a world with another tuning.
pub fn run_tuning(
    start: &[i32],
    mut players: [Player; SEATS],
    sides: Sides,
    tiles: &[u8],
    tuning: &[i32],
    steps: u16,
) -> Tried
    requires { IsWorld start.now × T (is_map sides tiles.now) × (length tuning.now ≡ tuning_count) }
    ensures { result ≡ tried seats sides tiles.now steps (tuned_to tuning.now (record { world = decoding seats start.now; players = players })) }
{
    let mut world = [0i32; WORLD];
    copy(&mut world, 0, start);
    copy(&mut world, 0, tuning);
    let mut records = [0i32; RECORDS];
    let mut removed = [0i32; SEATS];
    for i in 0..steps {
        steer_all(&mut world, players, sides);
        if step_in(&mut world, sides, tiles, &mut records, &mut removed).is_err() {
            return Tried { steps: i, players };
        }
        let next = note_all(players, &records, sides, i + 1);
        players = next;
    }
    Tried { steps, players }
}
