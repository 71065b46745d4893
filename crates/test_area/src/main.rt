// Runs the recorded answers of plain Rust for areas, prints the lines that are answered otherwise, and tells how many agree.
// bench/record prints the lines (record_area): b, a or c for the call, then fourteen words. Bytes and totals are drawn from their seeds.
#![tactic(auto)]

mod drawing;

ghost use Rattle.std.specs.Prelude.{◌≤◌};

use drawing::{MOST, digest_tiles, digest_totals, draw_tiles, draw_totals};
use game_refusals::number_of_answer;
use map_area::{area, build, change};
use map_tiles::Sides;
use num_convert::cast_signed;
use std::cmp::min;
use std::io;
use test_common::{after, byte_at, count_lines, nth, rest};

// The length of a line; where its words begin.
const LINE: usize = 128;

const WORDS: usize = 2;

// Where the sides, the lengths, the seeds, whether the totals are built first, the call's values and the answer stand among the words.
const WIDTH: usize = 0;

const HEIGHT: usize = 1;

const BYTES: usize = 2;

const ENTRIES: usize = 3;

const TILE_SEED: usize = 4;

const TOTAL_SEED: usize = 5;

const BUILT: usize = 6;

const VALUES: usize = 7;

// The number; the count or the totals' digest; the bytes' digest.
const ANSWER: usize = 11;

// What stands where a count goes before it is written.
const NO_COUNT: u32 = 0x5555_5555;

fn main(rt: HostRuntime) -> io::Result<()> {
    let mut output = io::writer(&rt);
    let counts = count_lines::<LINE, _, _, _>(&mut rt.reader(), &mut output, line_agrees)?;
    counts.print(&mut output)?;
    Ok(())
}

fn line_agrees(line: &[u8]) -> bool {
    let words = rest(line, WORDS);
    let sides = Sides {
        width: nth(words, WIDTH),
        height: nth(words, HEIGHT),
    };
    let mut tiles = [0u8; MOST];
    let mut totals = [0u32; MOST];
    draw_tiles(&mut tiles, nth(words, TILE_SEED));
    draw_totals(&mut totals, nth(words, TOTAL_SEED));
    let bytes = at_most(nth(words, BYTES));
    let entries = at_most(nth(words, ENTRIES));
    call_agrees(
        byte_at(line, 0),
        sides,
        &mut tiles[0..bytes],
        &mut totals[0..entries],
        words,
    )
}

fn at_most(n: u32) -> usize
    ensures { result ≤ 1032 }
{
    min(n as usize, MOST)
}

fn call_agrees(call: u8, sides: Sides, tiles: &mut [u8], totals: &mut [u32], words: &[u8]) -> bool {
    build_first(sides, tiles, totals, nth(words, BUILT));
    let values = after(words, VALUES);
    let answer = after(words, ANSWER);
    match call {
        b'b' => build_agrees(sides, tiles, totals, answer),
        b'a' => area_agrees(sides, tiles, totals, values, answer),
        _ => change_agrees(sides, tiles, totals, values, answer),
    }
}

fn build_first(sides: Sides, tiles: &[u8], totals: &mut [u32], wanted: u32) {
    if wanted == 1 {
        let _ = build(sides, tiles, totals);
    }
}

fn build_agrees(sides: Sides, tiles: &[u8], totals: &mut [u32], answer: &[u8]) -> bool {
    let number = number_of_answer(build(sides, tiles, totals));
    number == nth(answer, 0) && digest_totals(totals) == nth(answer, 1)
}

fn area_agrees(sides: Sides, tiles: &[u8], totals: &[u32], values: &[u8], answer: &[u8]) -> bool {
    let told = area(
        sides,
        tiles,
        totals,
        cast_signed(nth(values, 0)),
        cast_signed(nth(values, 1)),
        cast_signed(nth(values, 2)),
        cast_signed(nth(values, 3)),
    );
    let (number, count) = match told {
        Ok(count) => (0, count),
        Err(refusal) => (refusal.into(), NO_COUNT),
    };
    number == nth(answer, 0) && count == nth(answer, 1)
}

fn change_agrees(
    sides: Sides,
    tiles: &mut [u8],
    totals: &mut [u32],
    values: &[u8],
    answer: &[u8],
) -> bool {
    let number = number_of_answer(change(
        sides,
        tiles,
        totals,
        cast_signed(nth(values, 0)),
        cast_signed(nth(values, 1)),
        (nth(values, 2) % 256) as u8,
    ));
    number == nth(answer, 0)
        && digest_totals(totals) == nth(answer, 1)
        && digest_tiles(tiles) == nth(answer, 2)
}
