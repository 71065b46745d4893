// Plays the recorded texts from file to file, as the session program does from its input to its output, and compares every byte that is
// written with what the session over the Rust wrote. Prints the number of each text that differs, and tells how many agree.
// bench/world/session_texts records them: 000.in and 000.out, 001.in and 001.out, and so on.
#![tactic(auto)]

ghost use Rattle.std.specs.Prelude.{◌<◌, IsAscii};

use base_input::read_full;
use session_files::play_file;
use std::io::{ErrorKind, Read, Write};
use std::rt::Files;
use std::{fs, io, str};
use test_common::{Counts, Outcome};

// As many bytes of two files are compared at once.
const PART: usize = 65536;

fn main(rt: HostRuntime) -> io::Result<()> {
    let mut output = io::writer(&rt);
    let counts = count_all(&rt, &mut output)?;
    counts.print(&mut output)?;
    Ok(())
}

// A number that no text has counts for nothing.
fn count_all<R: Files, W: Write>(rt: &R, output: &mut W) -> io::Result<Counts> {
    let mut counts = Counts::new();
    for number in 0..1000u32 {
        let outcome = outcome_of(rt, output, number)?;
        counts = counts.with(outcome);
    }
    Ok(counts)
}

fn outcome_of<R: Files, W: Write>(rt: &R, output: &mut W, number: u32) -> io::Result<Outcome> {
    let a = digit(number / 100);
    let b = digit(number / 10);
    let c = digit(number);
    let name = [a, b, c, b'.', b'i', b'n'];
    let mut text = match fs::open(rt, name_of(&name)) {
        Ok(file) => file,
        Err(e) if e.kind() == ErrorKind::NotFound => return Ok(Outcome::End),
        Err(e) => return Err(e),
    };
    let mut written = fs::create(rt, "written")?;
    play_file(&mut text, &mut written)?;
    let recorded = [a, b, c, b'.', b'o', b'u', b't'];
    let agrees = same_files(rt, "written", name_of(&recorded))?;
    Outcome::of(output, agrees, &[a, b, c, b'\n'])
}

fn digit(n: u32) -> u8
    ensures { result < 128 }
{
    (n % 10) as u8 + 48
}

fn name_of(bytes: &[u8]) -> &str
    requires { IsAscii bytes.now }
{
    str::from_utf8(bytes).unwrap()
}

// Whether two files hold the same bytes.
fn same_files<R: Files>(rt: &R, a: &str, b: &str) -> io::Result<bool> {
    let mut first = fs::open(rt, a)?;
    let mut second = fs::open(rt, b)?;
    same_rest(&mut first, &mut second)
}

// A proved loop has to end, so files of more than 64 parts are never the same.
fn same_rest<A: Read, B: Read>(first: &mut A, second: &mut B) -> io::Result<bool> {
    for _ in 0..64u32 {
        let mut bytes = [0u8; PART];
        let mut others = [0u8; PART];
        let n = read_full(first, &mut bytes)?;
        let m = read_full(second, &mut others)?;
        if bytes[0..n] != others[0..m] {
            return Ok(false);
        }
        if n < PART {
            return Ok(true);
        }
    }
    Ok(false)
}
