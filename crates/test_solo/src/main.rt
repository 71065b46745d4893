// Plays the recorded pairs of solo heats one after another, prints the lines after which the one id is seen otherwise, and tells how many agree.
// bench/world/compare_solo prints the lines (record_solo): n or c, the map's sides and 64 tiles, then twelve words. Whatever the others do,
// the steps of the second list of a pair have the words of those of the first.
#![tactic(auto)]

use character::SEATS;
use std::io;
use std::io::{Read, Write};
use test_calls::{ANSWER, BESIDES, LINE, Seen, called, world_before};
use test_common::{AFTER_MAP, Counts, MOST_LINES, Outcome, digest, mix, nth, read_line, rest};
use world::World;
use world_joins::fresh;
use world_numbers::{flag, record_numbers};

// Where the id and what is seen of it stand among the words.
const ID: usize = BESIDES;

const SEEN: usize = BESIDES + 1;

// What came of a line, and the world that it left.
#[derive(Clone, Copy)]
pub struct Next {
    pub outcome: Outcome,
    pub world: World,
}

fn main(rt: HostRuntime) -> io::Result<()> {
    let mut output = io::writer(&rt);
    let counts = count_all(&mut rt.reader(), &mut output)?;
    counts.print(&mut output)?;
    Ok(())
}

fn count_all<R: Read, W: Write>(input: &mut R, output: &mut W) -> io::Result<Counts> {
    let mut counts = Counts::new();
    let mut world = fresh();
    for _ in 0..MOST_LINES {
        let next = next_line(input, output, world)?;
        let outcome = next.outcome;
        counts = counts.with(outcome);
        world = next.world;
    }
    Ok(counts)
}

fn next_line<R: Read, W: Write>(input: &mut R, output: &mut W, world: World) -> io::Result<Next> {
    let mut line = [0u8; LINE];
    if !read_line(input, &mut line)? {
        return Ok(Next {
            outcome: Outcome::End,
            world,
        });
    }
    after_line(output, world_before(line[0], world), &line)
}

fn after_line<W: Write>(output: &mut W, world: World, line: &[u8]) -> io::Result<Next> {
    let seen = called(world, line);
    let left = seen.world;
    let outcome = Outcome::of(output, answer_agrees(seen, rest(line, AFTER_MAP)), line)?;
    Ok(Next {
        outcome,
        world: left,
    })
}

fn answer_agrees(seen: Seen, words: &[u8]) -> bool {
    seen.number == nth(words, ANSWER)
        && seat_seen(seen, nth(words, ID) as usize) == nth(words, SEEN)
}

// The record that was taken, whether somebody is there after it, and the floor mark, as one word.
fn seat_seen(seen: Seen, id: usize) -> u32 {
    if id < SEATS {
        let records = seen.records;
        let world = seen.world;
        let slots = world.slots;
        let slot = slots[id];
        let record = record_numbers(records[id]);
        return mix(
            mix(digest(&record), flag(slot.present)),
            flag(slot.grounded),
        );
    }
    0
}
