// Reading until a row is full or the input ends, and writing all of a row.
#![tactic(auto)]

ghost use Rattle.std.specs.Prelude.{ℕ, ◌≤◌, ◌<◌, ◌≡◌, length, take, IfOk, OnOk, OnErr};
ghost use Rattle.std.specs.Io.{WritesAtMost};
ghost use Rattle.std.specs.Io.KnownBytes.{Appends, Consumes, IsAtEnd, WriteAppends};

use std::io;
use std::io::{ErrorKind, Read, Write};

// As many writes in a row that a signal interrupts are tried again.
const MOST_TRIES: u32 = 65536;

// Answers how many bytes it put at the start of the row: fewer than there is room for only where the input ends.
// Where a read fails, the error is that read's, and what was read before it stands at the start of the row.
// A `while`, not `read_exact`: what was read before the end is told.
pub fn read_full<R: Read>(input: &mut R, row: &mut [u8]) -> io::Result<usize>
    ensures within { IfOk result (λ n. n ≤ length row.new) }
    ensures bytes { IfOk result (λ n. Consumes (R.remaining input.old) (R.remaining input.new) (take n row.new)) }
    ensures end { IfOk result (λ n. n < length row.new → IsAtEnd (R.remaining input.new)) }
    ensures as_long { length row.new ≡ length row.old }
    ensures err { OnErr result ((n : ℕ) × (n ≤ length row.new) × Consumes (R.remaining input.old) (R.remaining input.new) (take n row.new)) }
{
    let mut done = 0;
    while done < row.len() {
        let n = input.read(&mut row[done..])?;
        if n == 0 {
            return Ok(done);
        }
        done += n;
    }
    Ok(done)
}

// As std's `write_all`, and tells what was written where a write fails. The error is that write's, or `WriteZero` where one takes no byte.
// A `while`, not `write_all`: what was written before an error is told.
pub fn write_full<W: Write>(output: &mut W, row: &[u8]) -> io::Result<()>
    ensures bytes { OnOk result (Appends (W.contents output.old) (W.contents output.new) row.now) }
    ensures err { OnErr result ((n : ℕ) × (n ≤ length row.now) × Appends (W.contents output.old) (W.contents output.new) (take n row.now)) }
{
    let mut done = 0;
    while done < row.len() {
        let n = write_some(output, &row[done..])?;
        if n == 0 {
            return Err(io::Error::new(ErrorKind::WriteZero, "failed to write whole buffer"));
        }
        done += n;
    }
    Ok(())
}

// One write, tried again where a signal interrupts it.
fn write_some<W: Write>(output: &mut W, row: &[u8]) -> io::Result<usize>
    ensures bound { WritesAtMost result row.now }
    ensures bytes { WriteAppends (W.contents output.old) (W.contents output.new) result row.now }
{
    for _ in 0..MOST_TRIES {
        match output.write(row) {
            Ok(n) => return Ok(n),
            Err(e) => {
                if e.kind() != ErrorKind::Interrupted {
                    return Err(e);
                }
            }
        }
    }
    output.write(row)
}
