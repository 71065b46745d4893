// What stands before the tiles: the sides of the map.
ghost use Rattle.std.specs.Prelude.{◌<◌};
ghost use Rattle.text_map.specs.Reading.{SideAt, HeadAt};

use crate::name::read_name;
use text_decimal::read_number;

// Reads the width and the height, with the place of the first tile.
pub fn read_head(text: &[u8]) -> Option<(usize, usize, usize)>
    ensures { HeadAt text.now result }
{
    let p = read_name(text, 0, b"width height\n")?;
    let (width, q) = read_side(text, p, b' ')?;
    let (height, r) = read_side(text, q, b'\n')?;
    let at = read_name(text, r, b"tiles\n")?;
    Some((width, height, at))
}

// Reads a side, with the place past the byte that ends it.
fn read_side(text: &[u8], at: usize, stop: u8) -> Option<(usize, usize)>
    requires { stop < 48 }
    ensures { SideAt stop text.now at result }
{
    let (n, next) = read_number(text, at, stop)?;
    if n < 1 || 1024 < n {
        return None;
    }
    Some((n as usize, next))
}
