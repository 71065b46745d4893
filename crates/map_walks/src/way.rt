// Whether anything solid is in the way of a box.
ghost use Rattle.std.specs.Prelude.{◌≡◌, T, ◌<◌};
ghost use Rattle.map_tiles.specs.Map.{is_map};
ghost use Rattle.map_walks.specs.Way.{way_end, has_span, span_of, solid_in_row, solid_among, is_clear_way};

use map_tiles::{Sides, is_solid_at, tile_at};
use num_vec2::vec2;

// The tiles from first to last along a side.
#[derive(Clone, Copy)]
pub struct Span {
    pub first: u32,
    pub last: u32,
}

// Each sum rounds, so they are made one by one.
pub fn way_end(p: vec2, step: vec2, turns: u32) -> vec2
    ensures { result ≡ way_end p step turns }
{
    let mut at = p;
    for _ in 0..turns {
        at = at + step;
    }
    at
}

// Whether a box is seen to meet nothing wherever it is between a and b.
pub fn is_clear_way(sides: Sides, tiles: &[u8], a: vec2, b: vec2, box_: vec2) -> bool
    requires { T (is_map sides tiles.now) }
    ensures { result ≡ is_clear_way sides tiles.now a b box_ }
{
    let half = box_ * 0.5;
    if !has_span(half.x, b.x) {
        return false;
    }
    if !has_span(half.y, b.y) {
        return false;
    }
    let columns = span_of(sides.width, half.x, a.x, b.x);
    let rows = span_of(sides.height, half.y, a.y, b.y);
    !solid_among(sides, tiles, columns, rows)
}

// Not for a box without a size, nor for an end that is a not-a-number.
fn has_span(h: f32, b: f32) -> bool
    ensures { result ≡ has_span h b }
{
    if 0.0 <= h {
        if h <= 1024.0 {
            return b <= b;
        }
    }
    false
}

// The tiles that the edges of a box can be on between a and b.
fn span_of(side: u32, h: f32, a: f32, b: f32) -> Span
    requires { 0 < side }
    ensures { (result ≡ span_of side h a b) × (result.last < side) }
{
    if a <= b {
        return Span {
            first: tile_at(a - h, side),
            last: tile_at(b + h, side),
        };
    }
    Span {
        first: tile_at(b - h, side),
        last: tile_at(a + h, side),
    }
}

fn solid_among(sides: Sides, tiles: &[u8], columns: Span, rows: Span) -> bool
    requires { T (is_map sides tiles.now) × (columns.last < sides.width) × (rows.last < sides.height) }
    ensures { result ≡ solid_among sides tiles.now columns rows }
{
    for row in rows.first..rows.last + 1 {
        if solid_in_row(sides, tiles, columns, row) {
            return true;
        }
    }
    false
}

fn solid_in_row(sides: Sides, tiles: &[u8], columns: Span, row: u32) -> bool
    requires { T (is_map sides tiles.now) × (columns.last < sides.width) × (row < sides.height) }
    ensures { result ≡ solid_in_row sides tiles.now columns row }
{
    for column in columns.first..columns.last + 1 {
        if is_solid_at(sides, tiles, column, row) {
            return true;
        }
    }
    false
}
