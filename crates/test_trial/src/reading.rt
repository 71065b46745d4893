// The joins, targets and tunings of a case, from the lines behind its first.
ghost use Rattle.std.specs.Prelude.{◌≡◌, ◌≤◌, length};

use game_tuning::TUNINGS;
use std::io;
use std::io::Read;
use test_common::{after, read_line, read_numbers, rest};
use trial_runs::{JOIN, ROW, TARGET};

// The most joins and tunings of a case, and the numbers that there is room for: one more than they have.
const MOST_JOINS: usize = 65;

const MOST_TUNINGS: usize = 9;

pub const JOINS: usize = JOIN * MOST_JOINS + 1;

pub const TARGETS: usize = TARGET * MOST_JOINS + 1;

pub const TUNING_NUMBERS: usize = TUNINGS * MOST_TUNINGS + 1;

pub const RESULT: usize = ROW * MOST_TUNINGS + 1;

// The lengths of a line with a join and its target, and of one with a tuning; where their words begin.
const JOIN_LINE: usize = 47;

const TUNING_LINE: usize = 2 + 9 * TUNINGS;

const WORDS: usize = 2;

pub fn at_most(n: u32, most: usize) -> usize
    ensures { result ≤ most }
{
    if n as usize <= most {
        return n as usize;
    }
    most
}

pub fn read_joins<R: Read>(
    input: &mut R,
    joins: &mut [i32],
    targets: &mut [i32],
    count: u32,
) -> io::Result<()>
    requires { (length joins.old ≡ 196) × (length targets.old ≡ 131) }
{
    for i in 0..at_most(count, MOST_JOINS) {
        let mut line = [0u8; JOIN_LINE];
        read_line(input, &mut line)?;
        let words = rest(&line, WORDS);
        let at = JOIN * i;
        let to = TARGET * i;
        read_numbers(words, &mut joins[at..at + JOIN]);
        read_numbers(after(words, JOIN), &mut targets[to..to + TARGET]);
    }
    Ok(())
}

pub fn read_tunings<R: Read>(input: &mut R, tunings: &mut [i32], count: u32) -> io::Result<()>
    requires { length tunings.old ≡ 172 }
{
    for i in 0..at_most(count, MOST_TUNINGS) {
        let mut line = [0u8; TUNING_LINE];
        read_line(input, &mut line)?;
        let at = TUNINGS * i;
        read_numbers(rest(&line, WORDS), &mut tunings[at..at + TUNINGS]);
    }
    Ok(())
}
