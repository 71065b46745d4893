// A screen that is kept as the numbers of a lent buffer: what it does with a thing that is passed along, and the record that it shows. A refused call leaves
// every number of every buffer as it was.
ghost use Rattle.std.specs.Prelude.{◌≡◌, ℕ};
ghost use Rattle.std.specs.Result.{result_unwrap_or};
ghost use Rattle.game_refusals.specs.Refusals.{number_of_answer};
ghost use Rattle.character.specs.Tick.{seats};
ghost use Rattle.send_rule.specs.Send.{fresh_screen};
ghost use Rattle.send_numbers.specs.Copies.{screen_count, screen_encoding};
ghost use Rattle.send_buffers.specs.Sends.{fresh_buffer};
ghost use Rattle.send_buffers.specs.Screens.{receive_in, shown_in};

use character::SEATS;
use game_records::{CORE, core_numbers};
use game_refusals::Refusal;
use game_tuning::TUNINGS;
use map_tiles::Sides;
use send_calls::{fresh_screen, receive};
use send_numbers::{SCREEN, copy_at, decode_screen, encode_screen, read_passed};
use world_joins::place_of;

pub fn screen_fresh_in(screen: &mut [i32]) -> Result<(), Refusal>
    ensures { fresh_buffer screen_count (screen_encoding (fresh_screen seats)) screen.old ≡ record { number = number_of_answer result; numbers = screen.new } }
{
    if screen.len() != SCREEN {
        return Err(Refusal::BadLength);
    }
    encode_screen(fresh_screen(), screen);
    Ok(())
}

// Takes the first thing that the numbers begin with, and tells how many numbers it has.
pub fn receive_in(
    screen: &mut [i32],
    sides: Sides,
    tiles: &[u8],
    passed: &[i32],
) -> Result<usize, Refusal>
    ensures { (n : ℕ) → receive_in sides tiles.now screen.old passed.now n ≡ record { number = number_of_answer result; screen = screen.new; used = result_unwrap_or result n } }
{
    if screen.len() != SCREEN {
        return Err(Refusal::BadLength);
    }
    let (thing, count) = read_passed(passed)?;
    let next = receive(decode_screen(screen), sides, tiles, thing);
    encode_screen(next, screen);
    Ok(count)
}

pub fn shown_in(screen: &[i32], id: i32, record: &mut [i32]) -> Result<(), Refusal>
    ensures { shown_in screen.now id «record».old ≡ record { number = number_of_answer result; numbers = «record».new } }
{
    if screen.len() != SCREEN || record.len() != CORE {
        return Err(Refusal::BadLength);
    }
    let at = place_of(SEATS, id);
    if at >= SEATS {
        return Err(Refusal::BadId);
    }
    let shown = copy_at(&screen[TUNINGS..], at);
    if !shown.kept {
        return Err(Refusal::Absent);
    }
    let core = core_numbers(shown.core);
    base_rows::copy(record, 0, &core);
    Ok(())
}
