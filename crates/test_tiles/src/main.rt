// Runs the recorded answers of the Rust for `check_line` and `move_box`, prints the lines that are answered otherwise, and tells how
// many agree. bench/world/record_world prints the lines: l or m, the map's sides and 64 tiles, 6 arguments, 5 answers.
#![tactic(auto)]

use game_refusals::Refusal;
use map_tiles::{Sides, Tile};
use std::io;
use test_common::{
    AFTER_MAP, byte_at, count_lines, first, is_point, nth, point, rest, sides_of, tile_count,
    tiles_of,
};

// The length of a line.
const LINE: usize = 172;

fn main(rt: HostRuntime) -> io::Result<()> {
    let mut output = io::writer(&rt);
    let counts = count_lines::<LINE, _, _, _>(&mut rt.reader(), &mut output, line_agrees)?;
    counts.print(&mut output)?;
    Ok(())
}

fn line_agrees(line: &[u8]) -> bool {
    let sides = sides_of(line);
    let tiles = tiles_of(line);
    let lent = first(&tiles, tile_count(line));
    let patterns = rest(line, AFTER_MAP);
    if byte_at(line, 0) == b'l' {
        line_case(sides, lent, patterns)
    } else {
        box_case(sides, lent, patterns)
    }
}

fn line_case(sides: Sides, tiles: &[u8], patterns: &[u8]) -> bool {
    let number = nth(patterns, 6);
    let check = map_lines::check_line(
        sides,
        tiles,
        point(nth(patterns, 0), nth(patterns, 1)),
        point(nth(patterns, 2), nth(patterns, 3)),
    );
    match check {
        Ok(None) => number == 0,
        Ok(Some((p, tile))) => number == byte_of(tile)
            && is_point(p, nth(patterns, 7), nth(patterns, 8)),
        Err(refusal) => refusal == Refusal::TooFar && number == 9,
    }
}

fn box_case(sides: Sides, tiles: &[u8], patterns: &[u8]) -> bool {
    let number = nth(patterns, 6);
    let moved = map_walks::move_box(
        sides,
        tiles,
        point(nth(patterns, 0), nth(patterns, 1)),
        point(nth(patterns, 2), nth(patterns, 3)),
        point(nth(patterns, 4), nth(patterns, 5)),
    );
    match moved {
        Ok(body) => number == 0
            && is_point(body.pos, nth(patterns, 7), nth(patterns, 8))
            && is_point(body.vel, nth(patterns, 9), nth(patterns, 10)),
        Err(refusal) => refusal == Refusal::TooFar && number == 9,
    }
}

fn byte_of(tile: Tile) -> u32 {
    match tile {
        Tile::Open => 0,
        Tile::Normal => 1,
        Tile::Deadly => 2,
        Tile::Unhookable => 3,
    }
}
