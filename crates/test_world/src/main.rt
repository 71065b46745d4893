// Runs the recorded calls of the Rust one after another, prints the lines that are answered otherwise, and tells how many agree.
// bench/world/record_calls prints the lines: n or c, the map's sides and 64 tiles, then twelve words.
#![tactic(auto)]

mod digest;

use digest::{told_digest, world_digest};
use std::io;
use std::io::{Read, Write};
use test_calls::{ANSWER, BESIDES, LINE, Seen, called, world_before};
use test_common::{AFTER_MAP, Counts, MOST_LINES, Outcome, nth, read_line, rest};
use world::World;
use world_joins::fresh;

// Where the digests of the world and of what was told stand among the words.
const WORLD: usize = BESIDES;

const RECORDS: usize = BESIDES + 1;

// What came of a line, and the world that it left.
#[derive(Clone, Copy)]
pub struct Next {
    pub outcome: Outcome,
    pub world: World,
}

fn main(rt: HostRuntime) -> io::Result<()> {
    let mut output = io::writer(&rt);
    let counts = count_all(&mut rt.reader(), &mut output)?;
    counts.print(&mut output)?;
    Ok(())
}

fn count_all<R: Read, W: Write>(input: &mut R, output: &mut W) -> io::Result<Counts> {
    let mut counts = Counts::new();
    let mut world = fresh();
    for _ in 0..MOST_LINES {
        let next = next_line(input, output, world)?;
        let outcome = next.outcome;
        counts = counts.with(outcome);
        world = next.world;
    }
    Ok(counts)
}

fn next_line<R: Read, W: Write>(input: &mut R, output: &mut W, world: World) -> io::Result<Next> {
    let mut line = [0u8; LINE];
    if !read_line(input, &mut line)? {
        return Ok(Next {
            outcome: Outcome::End,
            world,
        });
    }
    after_line(output, world_before(line[0], world), &line)
}

fn after_line<W: Write>(output: &mut W, world: World, line: &[u8]) -> io::Result<Next> {
    let seen = called(world, line);
    let left = seen.world;
    let outcome = Outcome::of(output, answer_agrees(seen, rest(line, AFTER_MAP)), line)?;
    Ok(Next {
        outcome,
        world: left,
    })
}

fn answer_agrees(seen: Seen, words: &[u8]) -> bool {
    let world = seen.world;
    let records = seen.records;
    let removed = seen.removed;
    seen.number == nth(words, ANSWER)
        && told_digest(records, removed) == nth(words, RECORDS)
        && world_digest(world) == nth(words, WORLD)
}
