// What the test programs share: reading recorded vectors and numbers as words, and numbers as one word.
#![tactic(auto)]

mod counting;
mod counts;
mod digests;
mod lines;
mod map;
mod numbers;
mod vectors;

pub use counting::count_lines;
pub use counts::{Counts, Outcome};
pub use digests::{digest, mix, mix_first};
pub use lines::{MOST_LINES, byte_at, first, read_line, rest};
pub use map::{AFTER_MAP, sides_of, tile_count, tiles_of};
pub use numbers::{are_numbers, read_numbers};
pub use vectors::{after, float_of, hex, is_float, is_int, is_point, nth, point, word};
