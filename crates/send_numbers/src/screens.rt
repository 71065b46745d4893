// A screen as numbers, and back: its tunings, then its copies.
ghost use Rattle.std.specs.Prelude.{◌≡◌, length};
ghost use Rattle.character.specs.Tick.{seats};
ghost use Rattle.send_numbers.specs.Copies.{screen_count, screen_encoding, screen_decoding};

use crate::copies::{SENDER, decode_copies, encode_copies};
use game_tuning::TUNINGS;
use send_rule::Screen;
use world_numbers::tunings_of;

// How many numbers a screen has.
pub const SCREEN: usize = TUNINGS + SENDER;

pub fn encode_screen(screen: Screen, numbers: &mut [i32])
    requires { length numbers.old ≡ screen_count }
    ensures { numbers.new ≡ screen_encoding screen }
{
    let tunings = screen.tunings;
    let copies = screen.copies;
    base_rows::copy(numbers, 0, &tunings);
    encode_copies(copies, &mut numbers[TUNINGS..]);
}

pub fn decode_screen(numbers: &[i32]) -> Screen
    requires { length numbers.now ≡ screen_count }
    ensures { result ≡ screen_decoding seats numbers.now }
{
    Screen {
        copies: decode_copies(&numbers[TUNINGS..]),
        tunings: tunings_of(numbers),
    }
}
