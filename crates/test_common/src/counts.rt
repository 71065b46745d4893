// Counting the lines that are answered as recorded.
ghost use Rattle.std.specs.Prelude.{ℕ, ◌≤◌, [], ◌≡◌, length, take, if◌then◌else◌, ◌==◌, IfOk, OnOk, OnErr, IsOk, IsTrue, codes, decimal};
ghost use Rattle.std.specs.Io.KnownBytes.{Appends};
ghost use Rattle.test_common.specs.Counts.{counted, counts_line};
ghost use Rattle.test_common.specs.declared.counts.Outcome.TheVariants.{Agrees, Differs};

use base_input::write_full;
use std::io;
use std::io::Write;

// What came of reading a line.
// An enum, not an Option of a bool: its names say what a line did.
#[derive(Clone, Copy)]
pub enum Outcome {
    End,
    Agrees,
    Differs,
}

impl Outcome {
    // A line that is answered otherwise is printed.
    pub fn of<W: Write>(output: &mut W, agrees: bool, line: &[u8]) -> io::Result<Outcome>
        ensures outcome { IfOk result (λ r. r ≡ (if agrees then Agrees else Differs)) }
        ensures agreed { IsTrue agrees → IsOk result }
        ensures printed { OnOk result (Appends (W.contents output.old) (W.contents output.new) (if agrees then [] else line.now)) }
        ensures err { OnErr result ((n : ℕ) × (n ≤ length line.now) × Appends (W.contents output.old) (W.contents output.new) (take n line.now)) }
    {
        if agrees {
            return Ok(Outcome::Agrees);
        }
        write_full(output, line)?;
        Ok(Outcome::Differs)
    }
}

#[derive(Clone, Copy)]
pub struct Counts {
    pub lines: u64,
    pub good: u64,
}

impl Counts {
    pub fn new() -> Counts
        ensures { result ≡ record { lines = 0; good = 0 } }
    {
        Counts { lines: 0, good: 0 }
    }

    pub fn with(self, outcome: Outcome) -> Counts
        ensures { result ≡ counted self outcome }
    {
        match outcome {
            Outcome::End => self,
            Outcome::Agrees => Counts {
                lines: self.lines.wrapping_add(1),
                good: self.good.wrapping_add(1),
            },
            Outcome::Differs => Counts {
                lines: self.lines.wrapping_add(1),
                good: self.good,
            },
        }
    }

    // Tells how many agree, and answers whether all do.
    pub fn print<W: Write>(self, output: &mut W) -> io::Result<bool>
        ensures all_agree { IfOk result (λ r. r ≡ (self.good == self.lines)) }
        ensures printed { OnOk result (Appends (W.contents output.old) (W.contents output.new) (counts_line self)) }
        ensures err { OnErr result ((n : ℕ) × Appends (W.contents output.old) (W.contents output.new) (take n (counts_line self))) }
    {
        print_decimal(output, self.good)?;
        write_full(output, b" of ")?;
        print_decimal(output, self.lines)?;
        write_full(output, b" agree\n")?;
        Ok(self.good == self.lines)
    }
}

fn print_decimal<W: Write>(output: &mut W, number: u64) -> io::Result<()>
    ensures printed { OnOk result (Appends (W.contents output.old) (W.contents output.new) (decimal number)) }
    ensures err { OnErr result ((n : ℕ) × (n ≤ length (decimal number)) × Appends (W.contents output.old) (W.contents output.new) (take n (decimal number))) }
{
    let mut buffer = itoa::Buffer::new();
    write_full(output, buffer.format(number).as_bytes())
}
