// A session between a reader and a writer: what is read of the one is played, and what that writes goes to the other.
#![tactic(auto)]

ghost use Rattle.std.specs.Prelude.{ℕ, ◌+◌, ◌*◌, ◌<◌, ◌≤◌, List, ◌++◌, ◌≡◌, ◌⊎◌, length, take, IfOk, OnErr};
ghost use Rattle.std.specs.Io.KnownBytes.{Appends, Consumes, IsAtEnd};
ghost use Rattle.character.specs.Tick.{seats};
ghost use Rattle.text_writing.specs.Output.{most_line};
ghost use Rattle.session_run.specs.Start.{most_read};
ghost use Rattle.session_laws.specs.Played.{Played, PlayedOut, Started, TextPlayed, all_written};
ghost use Rattle.session_files.specs.Stopped.{WrittenSoFar};

use base_input::{read_full, write_full};
use map_tiles::Sides;
use session_run::{MOST_CALLS, MOST_READ, Session, Turned, begin, run_lines};
use std::io;
use std::io::{Read, Write};
use text_map::MOST_TILES;

// How many bytes were read, and the session that they came to.
#[derive(Clone, Copy)]
pub struct FilePlayed {
    pub count: usize,
    pub session: Session,
}

// Plays the text that `input` holds, writes its output to `output`, and answers the number of the call that was due at the end.
pub fn play_file<R: Read, W: Write>(input: &mut R, output: &mut W) -> io::Result<u32>
    ensures played { IfOk result (λ call. (text : List ℕ) × (f : Session) × (p : TextPlayed seats text f) × (call ≡ f.call) × Consumes (R.remaining input.old) (R.remaining input.new) text × (length text < most_read → IsAtEnd (R.remaining input.new)) × Appends (W.contents output.old) (W.contents output.new) (all_written p)) }
    ensures err { OnErr result ((text : List ℕ) × Consumes (R.remaining input.old) (R.remaining input.new) text × ((W.contents output.new ≡ W.contents output.old) ⊎ WrittenSoFar seats text (W.contents output.old) (W.contents output.new))) }
{
    let mut text = [0u8; MOST_READ];
    let played = read_and_play(&mut text, input, output)?;
    Ok(played.session.call)
}

// The same, with the bytes that were read at the start of `text`.
pub fn read_and_play<R: Read, W: Write>(
    text: &mut [u8],
    input: &mut R,
    output: &mut W,
) -> io::Result<FilePlayed>
    requires { length text.old ≡ most_read }
    ensures played { IfOk result (λ r. (r.count ≤ length text.new) × (p : TextPlayed seats (take r.count text.new) r.session) × Appends (W.contents output.old) (W.contents output.new) (all_written p)) }
    ensures read { IfOk result (λ r. Consumes (R.remaining input.old) (R.remaining input.new) (take r.count text.new)) }
    ensures end { IfOk result (λ r. r.count < length text.new → IsAtEnd (R.remaining input.new)) }
    ensures as_long { length text.new ≡ length text.old }
    ensures err { OnErr result ((n : ℕ) × (n ≤ length text.new) × Consumes (R.remaining input.old) (R.remaining input.new) (take n text.new) × ((W.contents output.new ≡ W.contents output.old) ⊎ WrittenSoFar seats (take n text.new) (W.contents output.old) (W.contents output.new))) }
{
    let count = read_full(input, text)?;
    let session = play_text(&text[..count], output)?;
    Ok(FilePlayed { count, session })
}

// Plays a text.
pub fn play_text<W: Write>(text: &[u8], output: &mut W) -> io::Result<Session>
    ensures played { IfOk result (λ f. (p : TextPlayed seats text.now f) × Appends (W.contents output.old) (W.contents output.new) (all_written p)) }
    ensures err { OnErr result (WrittenSoFar seats text.now (W.contents output.old) (W.contents output.new)) }
{
    let mut tiles = [0u8; MOST_TILES];
    let mut buf = [0u8; 65536];
    let begun = begin(text, &mut tiles, &mut buf);
    play(
        text,
        begun.sides,
        &tiles[..begun.count],
        begun.first,
        &mut buf,
        output,
    )
}

// Writes what is in the buffer and runs the calls that come next, and returns the session that has ended: it does so in fewer turns.
fn play<W: Write>(
    text: &[u8],
    sides: Sides,
    tiles: &[u8],
    first: Turned,
    buf: &mut [u8],
    output: &mut W,
) -> io::Result<Session>
    requires { Started seats text.now sides tiles.now first buf.old × (most_line * seats ≤ length buf.old) }
    ensures played { IfOk result (λ f. (p : PlayedOut seats text.now sides tiles.now first.session f) × Appends (W.contents output.old) (W.contents output.new) (take first.next buf.old ++ p.out)) }
    ensures err { OnErr result ((turns : ℕ) × (f : Session) × (out : List ℕ) × Played seats text.now sides tiles.now first.session turns f out × (n : ℕ) × Appends (W.contents output.old) (W.contents output.new) (take n (take first.next buf.old ++ out))) }
{
    let mut turned = first;
    for _ in 0..MOST_CALLS {
        write_full(output, &buf[..turned.next])?;
        if turned.session.done {
            return Ok(turned.session);
        }
        turned = run_lines(text, sides, tiles, turned.session, buf);
    }
    Ok(turned.session)
}
