// What the programs share: a file read, a line of a word and two numbers written, and what is said where a file cannot be read or nothing can be written.
#![tactic(auto)]

ghost use Rattle.std.specs.Prelude.{◌≡◌, ◌+◌, ◌-◌, ◌≤◌, ◌==◌, position};
ghost use Rattle.base.specs.{length};
ghost use Rattle.std.specs.Io.{ReadsAtMost};
ghost use Rattle.program_files.specs.{end_from, Found_in, Loaded_in};

use model::Refusal;
use std::io::{ErrorKind, Read, Write};
use std::rt::Files;
use std::{fs, io};

// Texts that stand one after the other in one input, each ended by byte 0: how the programs that run on stored cases take theirs apart.

// The place of the first byte 0.
fn first_zero(s: &[u8]) -> Option<usize>
    ensures { result ≡ position (λ b. b == 0) s.now }
{
    s.iter().position(|b| *b == 0)
}

// Where the text that begins at `from` ends: at the next byte 0, or with the input. None begins behind the input's end, and `from` is given back.
pub fn end(s: &[u8], from: usize) -> usize
    ensures { (result ≡ end_from s.now from) × (from ≤ result) × (result ≤ length s.now + (from - length s.now)) }
{
    if s.len() <= from {
        return from;
    }
    let text = &s[from..];
    from + first_zero(text).unwrap_or(text.len())
}

// A file that cannot be opened or read, which has been said on standard error.
#[derive(Clone, Copy, PartialEq, Eq)]
pub struct Unreadable;

// The system's reason, without the error's number: `Is a directory`. The longest has fewer than 256 bytes, and the bytes behind it stay 0.
fn reason(error: io::Error, buf: &mut [u8; 320]) -> &str {
    // Stays: the project's rule, no heap: the text would be a String.
    let mut rest = &mut buf[..];
    let _ = write!(rest, "{error}");
    let text = str::from_utf8(buf).unwrap_or("");
    match text.split_once(" (os error ") {
        Some((reason, _)) => reason,
        None => text.trim_end_matches('\0'),
    }
}

// Says the program, the file and the reason. That standard error cannot be written is said nowhere.
fn say_unreadable(rt: &impl Eprint, program: &str, path: &str, error: io::Error) -> Unreadable {
    let mut buf = [0u8; 320];
    let reason = reason(error, &mut buf);
    let _ = eprintln!(rt; "{program}: {path}: {reason}");
    Unreadable
}

// An open file's bytes, up to its end or the buffer's; a pipe gives them in pieces. The bytes before a read that fails are no text: they count
// for nothing.
pub fn fill(file: &mut impl Read, buf: &mut [u8]) -> io::Result<usize>
    ensures { ReadsAtMost result buf.new }
{
    let mut done = 0;
    // Stays: the step is what a read gave, not one.
    while done < buf.len() {
        let n = file.read(&mut buf[done..])?;
        if n == 0 {
            return Ok(done);
        }
        done += n;
    }
    Ok(done)
}

// How many bytes of the file stand at the buffer's start, at most the buffer's length; none where no file has the name. The buffer has room for one
// byte more than 65,536, so that "one over 65,536 bytes brings refusal 1".
// A file is absent where the system says that there is none of its name. The file is closed again before anything is printed: with
// standard output closed it may have its number.
pub fn find<R: Files + Eprint>(
    rt: &R,
    program: &str,
    path: &str,
    buf: &mut [u8],
) -> Result<Option<usize>, Unreadable>
    requires { length buf.old ≡ 65537 }
    ensures { Found_in result buf.new }
{
    let mut file = match fs::open(rt, path) {
        Ok(file) => file,
        Err(e) if e.kind() == ErrorKind::NotFound => return Ok(None),
        Err(e) => return Err(say_unreadable(rt, program, path, e)),
    };
    let filled = fill(&mut file, buf);
    drop(file);
    match filled {
        Ok(n) => Ok(Some(n)),
        Err(e) => Err(say_unreadable(rt, program, path, e)),
    }
}

// The same where "an absent file counts as empty".
pub fn load<R: Files + Eprint>(
    rt: &R,
    program: &str,
    path: &str,
    buf: &mut [u8],
) -> Result<usize, Unreadable>
    requires { length buf.old ≡ 65537 }
    ensures { Loaded_in result buf.new }
{
    Ok(find(rt, program, path, buf)?.unwrap_or(0))
}

// A text printed.
pub fn put(rt: &impl Print, bytes: &[u8]) -> io::Result<()> {
    rt.write_all(bytes)
}

// A space and a number.
pub fn number(rt: &impl Print, n: usize) -> io::Result<()> {
    print!(rt; " {n}")
}

// A word, two numbers and the line's end.
pub fn line(rt: &impl Print, word: &str, a: usize, b: usize) -> io::Result<()> {
    println!(rt; "{word} {a} {b}")
}

// "one line of `refused`, number and place, as `refused 17 0`".
pub fn refused(rt: &impl Print, refusal: Refusal) -> io::Result<()> {
    line(rt, "refused", refusal.number, refusal.place)
}

// The documents fix what is printed; that it could not be, on a full disk or a closed pipe, is said on standard error.
pub fn said(rt: &impl Eprint, written: io::Result<()>, program: &str) {
    if written.is_err() {
        let _ = eprintln!(rt; "{program}: standard output cannot be written");
    }
}
