// Runs the recorded calls and reads of the Rust by roles, one after another, through the functions of the C interface; prints the lines that are answered
// otherwise, and tells how many agree. bench/world/record_roles prints the lines: n or c, the map's sides and 64 tiles, then thirteen words.
#![tactic(auto)]

mod reading;

use reading::read;
use std::io;
use std::io::{Read, Write};
use test_asking::{LINE, Told, agrees, asked, begin, called};
use test_common::{
    AFTER_MAP, Counts, MOST_LINES, Outcome, first, read_line, rest, tile_count, tiles_of,
};
use world_numbers::WORLD;

fn main(rt: HostRuntime) -> io::Result<()> {
    let mut output = io::writer(&rt);
    let counts = count_all(&mut rt.reader(), &mut output)?;
    counts.print(&mut output)?;
    Ok(())
}

fn count_all<R: Read, W: Write>(input: &mut R, output: &mut W) -> io::Result<Counts> {
    let mut counts = Counts::new();
    let mut world = [0i32; WORLD];
    for _ in 0..MOST_LINES {
        let outcome = next_line(input, output, &mut world)?;
        counts = counts.with(outcome);
    }
    Ok(counts)
}

fn next_line<R: Read, W: Write>(
    input: &mut R,
    output: &mut W,
    world: &mut [i32],
) -> io::Result<Outcome> {
    let mut line = [0u8; LINE];
    if !read_line(input, &mut line)? {
        return Ok(Outcome::End);
    }
    begin(line[0], world);
    let words = rest(&line, AFTER_MAP);
    let told = told_by(world, &line, words);
    Outcome::of(output, agrees(told, world, words), &line)
}

// A read has a kind that no call has.
fn told_by(world: &mut [i32], line: &[u8], words: &[u8]) -> Told {
    let ask = asked(words);
    let sides = ask.sides;
    let values = ask.values;
    let tiles = tiles_of(line);
    if values[0] <= 5 {
        return called(
            world,
            sides,
            first(&tiles, tile_count(line)),
            ask.role,
            values,
        );
    }
    read(world, ask.role, values[0], values[1])
}
