// The tile map: its sides go by value, its bytes are lent beside them. Every exported call that takes a map asks `is_map` first.
ghost use Rattle.std.specs.Prelude.{◌≡◌, ◌<◌, ◌^◌};
ghost use Rattle.map_tiles.specs.Map.{is_side, is_map, count};

// The sides of a map, in tiles.
#[derive(Clone, Copy)]
pub struct Sides {
    pub width: u32,
    pub height: u32,
}

// Whether refusal 1 does not fit.
pub fn is_map(sides: Sides, tiles: &[u8]) -> bool
    ensures { result ≡ is_map sides tiles.now }
{
    if !is_side(sides.width) {
        return false;
    }
    if !is_side(sides.height) {
        return false;
    }
    tiles.len() == (sides.width * sides.height) as usize
}

fn is_side(n: u32) -> bool
    ensures { result ≡ is_side n }
{
    if n < 1 {
        return false;
    }
    n <= 1024
}

// How often `for _ in 0..n` turns.
pub fn count(n: i32) -> u64
    ensures { (result ≡ count n) × (result < 2 ^ 31) }
{
    if n < 0 {
        return 0;
    }
    n as u64
}
