// Counting over a whole input of lines that are all as long.
ghost use Rattle.std.specs.Prelude.{ℕ, ◌<◌, ◌≤◌, ◌*◌, ◌-◌, ◌^◌, ◌≡◌, List, length, IfOk, OnErr};
ghost use Rattle.std.specs.Io.KnownBytes.{Appends, Consumes};
ghost use Rattle.test_common.specs.Counts.{most_lines};

use crate::counts::{Counts, Outcome};
use crate::lines::{MOST_LINES, read_line};
use std::io;
use std::io::{Read, Write};

// Reads the lines one after another, and prints those that do not agree.
pub fn count_lines<const LINE: usize, R: Read, W: Write, F: FnMut(&[u8]) -> bool>(
    input: &mut R,
    output: &mut W,
    mut agrees: F,
) -> io::Result<Counts>
    requires fits { LINE < 2 ^ 63 }
    requires callable { F.IsAlwaysCallable agrees }
    ensures counts { IfOk result (λ c. (c.good ≤ c.lines) × (c.lines ≤ most_lines)) }
    ensures printed { IfOk result (λ c. (text : List ℕ) × (length text ≡ LINE * (c.lines - c.good)) × Appends (W.contents output.old) (W.contents output.new) text) }
    ensures read { (text : List ℕ) × IfOk result (λ c. LINE * c.lines ≤ length text) × Consumes (R.remaining input.old) (R.remaining input.new) text }
    ensures err { OnErr result ((text : List ℕ) × Appends (W.contents output.old) (W.contents output.new) text) }
{
    let mut counts = Counts::new();
    for _ in 0..MOST_LINES {
        let mut line = [0u8; LINE];
        let outcome = if read_line(input, &mut line)? {
            Outcome::of(output, agrees(&line), &line)?
        } else {
            Outcome::End
        };
        counts = counts.with(outcome);
    }
    Ok(counts)
}
