// Records as bytes.
ghost use Rattle.std.specs.Prelude.{◌≡◌};
ghost use Rattle.std.specs.Result.{result_unwrap_or};
ghost use Rattle.game_refusals.specs.Refusals.{number_of_answer};
ghost use Rattle.game_packed.specs.Lent.{pack_in, unpack_in};

use game_refusals::Refusal;

pub fn ponguriena_pack(record: &[i32], bytes: &mut [u8], count: &mut usize) -> u32
    ensures { pack_in «record».now bytes.old count.old ≡ record { number = result; bytes = bytes.new; count = count.new } }
{
    answered(game_packed::pack_in(record, bytes), count)
}

pub fn ponguriena_unpack(bytes: &[u8], record: &mut [i32], used: &mut usize) -> u32
    ensures { unpack_in bytes.now «record».old used.old ≡ record { number = result; numbers = «record».new; used = used.new } }
{
    answered(game_packed::unpack_in(bytes, record), used)
}

// The number of an answer, whose count is put into `count`; a refusal leaves it.
fn answered(answer: Result<usize, Refusal>, count: &mut usize) -> u32
    ensures number { result ≡ number_of_answer answer }
    ensures counted { count.new ≡ result_unwrap_or answer count.old }
{
    match answer {
        Ok(n) => {
            *count = n;
            0
        }
        Err(refusal) => refusal.into(),
    }
}
