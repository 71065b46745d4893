// Records as the game's packed whole numbers, for the relay: written to at most 75 bytes, and read back.
#![tactic(auto)]

mod lent;
mod number;

ghost use Rattle.std.specs.Prelude.{◌≡◌};
ghost use Rattle.game_packed.specs.Packed.{packed};
ghost use Rattle.game_packed.specs.Unpacked.{unpacked};

use game_records::{CORE, CharacterCore, core_numbers, core_of};
use game_refusals::Refusal;
pub use lent::{pack_in, unpack_in};
use number::{MOST_INT, put_int, read_int};

// The most bytes that a record has.
pub const MOST_PACKED: usize = MOST_INT * CORE;

// A record's bytes at the start, and how many they are; the others are 0.
// A row with a count, not a Vec: there is no heap.
#[derive(Clone, Copy)]
pub struct Packed {
    pub bytes: [u8; MOST_PACKED],
    pub count: usize,
}

pub fn pack(core: CharacterCore) -> Packed
    ensures { result ≡ packed core }
{
    let mut bytes = [0u8; MOST_PACKED];
    let mut count = 0;
    for z in core_numbers(core) {
        count = put_int(&mut bytes, count, z);
    }
    Packed { bytes, count }
}

// Reads the record that bytes start with, and answers it with how many of them were used. Bytes after the fifteenth number are not looked at.
pub fn unpack(bytes: &[u8]) -> Result<(CharacterCore, usize), Refusal>
    ensures { result ≡ unpacked bytes.now }
{
    let mut numbers = [0i32; CORE];
    let mut at = 0;
    for number in &mut numbers {
        (*number, at) = read_int(bytes, at)?;
    }
    Ok((core_of(&numbers), at))
}
