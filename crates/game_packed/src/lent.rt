// Records and bytes in lent buffers. A refusal leaves them as they were.
ghost use Rattle.std.specs.Prelude.{◌≡◌, ℕ};
ghost use Rattle.std.specs.Result.{result_unwrap_or};
ghost use Rattle.game_refusals.specs.Refusals.{number_of_answer};
ghost use Rattle.game_packed.specs.Lent.{pack_in, unpack_in};

use crate::{MOST_PACKED, pack, unpack};
use game_records::{CORE, core_numbers, core_of};
use game_refusals::Refusal;

// Packs the record whose numbers are lent, and answers how many bytes it has.
pub fn pack_in(record: &[i32], bytes: &mut [u8]) -> Result<usize, Refusal>
    ensures { (k : ℕ) → pack_in «record».now bytes.old k ≡ record { number = number_of_answer result; bytes = bytes.new; count = result_unwrap_or result k } }
{
    if record.len() != CORE || bytes.len() != MOST_PACKED {
        return Err(Refusal::BadLength);
    }
    let packed = pack(core_of(record));
    bytes.copy_from_slice(&packed.bytes);
    Ok(packed.count)
}

// Unpacks the record that bytes start with, and answers how many of them were used.
pub fn unpack_in(bytes: &[u8], record: &mut [i32]) -> Result<usize, Refusal>
    ensures { (k : ℕ) → unpack_in bytes.now «record».old k ≡ record { number = number_of_answer result; numbers = «record».new; used = result_unwrap_or result k } }
{
    if record.len() != CORE {
        return Err(Refusal::BadLength);
    }
    let (core, used) = unpack(bytes)?;
    record.copy_from_slice(&core_numbers(core));
    Ok(used)
}
