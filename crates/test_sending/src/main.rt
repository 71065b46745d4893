// Runs the recorded calls of the Rust one after another, each through a sender to a screen, all kept as numbers. Prints the lines that are answered
// otherwise, and tells how many agree. bench/world/record_sending prints the lines: n or c, the map's sides and 64 tiles, then thirteen words.
#![tactic(auto)]

mod link;

use link::{Link, made};
use map_tiles::Sides;
use std::io;
use std::io::{Read, Write};
use test_common::{
    AFTER_MAP, Counts, MOST_LINES, Outcome, after, first, nth, read_line, read_numbers, rest,
    tile_count, tiles_of,
};
use text_reading::decode;
use world::Call;

// The length of a line.
const LINE: usize = 190;

// Where the sides, the call's values, the answer and the digests stand among the words.
const SIDES: usize = 0;

const CALL: usize = 2;

const ANSWER: usize = 9;

const PASSED: usize = 10;

const SENDER: usize = 11;

const SCREEN: usize = 12;

// What came of a line, and what it left.
#[derive(Clone, Copy)]
pub struct Next {
    pub outcome: Outcome,
    pub link: Link,
}

fn main(rt: HostRuntime) -> io::Result<()> {
    let mut output = io::writer(&rt);
    let counts = count_all(&mut rt.reader(), &mut output)?;
    counts.print(&mut output)?;
    Ok(())
}

fn count_all<R: Read, W: Write>(input: &mut R, output: &mut W) -> io::Result<Counts> {
    let mut counts = Counts::new();
    let mut link = Link::fresh();
    for _ in 0..MOST_LINES {
        let next = next_line(input, output, link)?;
        let outcome = next.outcome;
        counts = counts.with(outcome);
        link = next.link;
    }
    Ok(counts)
}

fn next_line<R: Read, W: Write>(input: &mut R, output: &mut W, link: Link) -> io::Result<Next> {
    let mut line = [0u8; LINE];
    if !read_line(input, &mut line)? {
        return Ok(Next {
            outcome: Outcome::End,
            link,
        });
    }
    after_line(output, link_before(line[0], link), &line)
}

// A sequence begins with a fresh world, no copies and a fresh screen.
fn link_before(mark: u8, link: Link) -> Link {
    if mark == b'n' { Link::fresh() } else { link }
}

// Values that are no call agree with nothing.
fn after_line<W: Write>(output: &mut W, link: Link, line: &[u8]) -> io::Result<Next> {
    let words = rest(line, AFTER_MAP);
    let mut values = [0i32; 7];
    read_numbers(after(words, CALL), &mut values);
    let Some(call) = decode(values) else {
        let outcome = Outcome::of(output, false, line)?;
        return Ok(Next { outcome, link });
    };
    let left = answer(link, line, words, call);
    let outcome = Outcome::of(output, agrees(left, words), line)?;
    Ok(Next {
        outcome,
        link: left,
    })
}

fn answer(link: Link, line: &[u8], words: &[u8], call: Call) -> Link {
    let sides = Sides {
        width: nth(words, SIDES),
        height: nth(words, SIDES + 1),
    };
    let tiles = tiles_of(line);
    made(link, sides, first(&tiles, tile_count(line)), call)
}

fn agrees(link: Link, words: &[u8]) -> bool {
    link.number == nth(words, ANSWER)
        && link.passed_digest == nth(words, PASSED)
        && link.sender_digest() == nth(words, SENDER)
        && link.screen_digest() == nth(words, SCREEN)
}
