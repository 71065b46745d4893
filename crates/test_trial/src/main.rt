// Runs the recorded trials of the Rust, prints the first lines of those that are answered otherwise, and tells how many agree.
// bench/world/record_trial prints the lines: n, the map's sides and 64 tiles, and eleven words; then a line for each join and one for each tuning.
#![tactic(auto)]

mod reading;

use game_refusals::number_of_answer;
use map_tiles::Sides;
use num_convert::cast_signed;
use reading::{JOINS, RESULT, TARGETS, TUNING_NUMBERS, at_most, read_joins, read_tunings};
use std::io;
use std::io::{Read, Write};
use test_common::{
    AFTER_MAP, Counts, MOST_LINES, Outcome, digest, first, nth, read_line, rest, tile_count,
    tiles_of,
};
use trial_runs::trial;

// The length of a case's first line.
const LINE: usize = 172;

// Where the sides, how many joins and tunings follow, the lengths that are lent, the steps and the answer stand among its words.
const SIDES: usize = 0;

const FOLLOWING: usize = 2;

const LENT: usize = 4;

const STEPS: usize = 8;

const ANSWER: usize = 9;

// What stands in the result before it is written.
const NOTHING: i32 = 77;

fn main(rt: HostRuntime) -> io::Result<()> {
    let mut output = io::writer(&rt);
    let counts = count_all(&mut rt.reader(), &mut output)?;
    counts.print(&mut output)?;
    Ok(())
}

fn count_all<R: Read, W: Write>(input: &mut R, output: &mut W) -> io::Result<Counts> {
    let mut counts = Counts::new();
    for _ in 0..MOST_LINES {
        counts = counts.with(next_case(input, output)?);
    }
    Ok(counts)
}

fn next_case<R: Read, W: Write>(input: &mut R, output: &mut W) -> io::Result<Outcome> {
    let mut line = [0u8; LINE];
    if !read_line(input, &mut line)? {
        return Ok(Outcome::End);
    }
    let agrees = case_agrees(input, &line)?;
    Outcome::of(output, agrees, &line)
}

fn case_agrees<R: Read>(input: &mut R, line: &[u8]) -> io::Result<bool> {
    let words = rest(line, AFTER_MAP);
    let mut joins = [0i32; JOINS];
    let mut targets = [0i32; TARGETS];
    let mut tunings = [0i32; TUNING_NUMBERS];
    read_joins(input, &mut joins, &mut targets, nth(words, FOLLOWING))?;
    read_tunings(input, &mut tunings, nth(words, FOLLOWING + 1))?;
    let lent_joins = at_most(nth(words, LENT), JOINS);
    let lent_targets = at_most(nth(words, LENT + 1), TARGETS);
    let lent_tunings = at_most(nth(words, LENT + 2), TUNING_NUMBERS);
    Ok(answers(
        line,
        words,
        &joins[0..lent_joins],
        &targets[0..lent_targets],
        &tunings[0..lent_tunings],
    ))
}

fn answers(line: &[u8], words: &[u8], joins: &[i32], targets: &[i32], tunings: &[i32]) -> bool {
    let mut result = [NOTHING; RESULT];
    let lent = at_most(nth(words, LENT + 3), RESULT);
    agrees(line, words, joins, targets, tunings, &mut result[0..lent])
}

fn agrees(
    line: &[u8],
    words: &[u8],
    joins: &[i32],
    targets: &[i32],
    tunings: &[i32],
    res: &mut [i32],
) -> bool {
    let sides = Sides {
        width: nth(words, SIDES),
        height: nth(words, SIDES + 1),
    };
    let tiles = tiles_of(line);
    let number = number_of_answer(trial(
        sides,
        first(&tiles, tile_count(line)),
        joins,
        targets,
        tunings,
        cast_signed(nth(words, STEPS)),
        res,
    ));
    number == nth(words, ANSWER) && digest(res) == nth(words, ANSWER + 1)
}
