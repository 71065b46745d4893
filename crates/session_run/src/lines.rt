// As many lines as a buffer has room for.
ghost use Rattle.std.specs.Prelude.{false, ◌≡◌, length};
ghost use Rattle.character.specs.Tick.{seats};
ghost use Rattle.session_run.specs.Session.{another, LinesRan};

use crate::session_lines::{Session, Turned, run_line};
use character::SEATS;
use map_tiles::Sides;
use text_writing::MOST_LINE;

// No answer is longer: a line for each seat.
pub const MOST_ANSWER: usize = MOST_LINE * SEATS;

// A text has fewer calls.
pub const MOST_CALLS: u32 = 65536;

// Runs lines until the session has ended or the buffer might be too short for another answer.
pub fn run_lines(
    text: &[u8],
    sides: Sides,
    tiles: &[u8],
    mut session: Session,
    buf: &mut [u8],
) -> Turned
    ensures lines_ran { LinesRan seats text.now sides tiles.now session buf.old 0 result.session buf.new result.next }
    ensures buf_value { another seats result.session.done result.session.call result.next (length buf.old) ≡ false }
{
    let mut next = 0;
    // A `while`: where a line ends is where the next begins.
    while another(&session, next, buf.len()) {
        next = run_line(text, sides, tiles, &mut session, buf, next);
    }
    Turned { session, next }
}

// Whether there is another line to run, and room for its answer.
fn another(session: &Session, used: usize, len: usize) -> bool
    ensures { result ≡ another seats session.now.done session.now.call used len }
{
    !session.done && session.call <= MOST_CALLS && MOST_ANSWER <= len && used <= len - MOST_ANSWER
}
