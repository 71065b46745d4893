// The session program: reads a text from standard input, runs its calls and writes a line for each answer and record.
#![tactic(auto)]

use session_files::play_file;
use std::io;

fn main(rt: HostRuntime) -> io::Result<()> {
    play_file(&mut rt.reader(), &mut io::writer(&rt))?;
    Ok(())
}
