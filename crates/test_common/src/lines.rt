// The lines of an input, and what stands in one.
ghost use Rattle.std.specs.Prelude.{ℕ, ◌≤◌, ◌≡◌, length, take, drop, slice_index, IfOk, OnOk, OnErr, IsTrue};
ghost use Rattle.std.specs.Io.KnownBytes.{Consumes};

use base_input::read_full;
use std::io;
use std::io::Read;

// A proved loop has to end, so a program reads at most as many lines.
pub const MOST_LINES: usize = 65536;

// Reads the next line, which is as long as the row; whether there was one.
pub fn read_line<R: Read>(input: &mut R, line: &mut [u8]) -> io::Result<bool>
    ensures as_long { length line.new ≡ length line.old }
    ensures there { IfOk result (λ r. IsTrue r → Consumes (R.remaining input.old) (R.remaining input.new) line.new) }
    ensures read { OnOk result ((n : ℕ) × (n ≤ length line.new) × Consumes (R.remaining input.old) (R.remaining input.new) (take n line.new)) }
    ensures err { OnErr result ((n : ℕ) × (n ≤ length line.new) × Consumes (R.remaining input.old) (R.remaining input.new) (take n line.new)) }
{
    let n = line.len();
    Ok(read_full(input, line)? == n)
}

// The byte with the number i; 0 past the end.
pub fn byte_at(line: &[u8], i: usize) -> u8
    ensures { result ≡ slice_index line.now i }
{
    line.get(i).copied().unwrap_or(0)
}

// The bytes from the number n on.
pub fn rest(line: &[u8], n: usize) -> &[u8]
    ensures { result.now ≡ drop n line.now }
{
    &line[line.len().min(n)..]
}

// The first n of a row.
pub fn first<T: Copy>(line: &[T], n: usize) -> &[T]
    ensures { result.now ≡ take n line.now }
{
    &line[..line.len().min(n)]
}
