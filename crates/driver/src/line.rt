// Reads lines of any length into a buffer that never grows.
ghost use Rattle.std.specs.Prelude.{◌≡◌, ℕ, ◌+◌, ◌<◌, ◌≤◌, ◌==◌, List, [], ◌∷◌, ◌++◌, All, IsTrue};
ghost use Rattle.std.specs.Prelude.{length, take, position, IfOk, OnErr};
ghost use Rattle.std.specs.Io.BufRead.{ends_with_byte};
ghost use Rattle.driver.specs.Lines.{trimmed, Took, TookSome, ReadLine, CanFail};

use crate::input::Input;
use arrayvec::ArrayVec;
use std::io;
use std::io::ErrorKind;

/// The longest line that is served, in bytes without its end.
pub const LONGEST_LINE: usize = 4096;

/// How many bytes of a line are kept: one more than the longest line has, and one for the carriage
/// return before its end.
pub const ROOM: usize = LONGEST_LINE + 2;

/// The beginning of a line.
pub type LineBuffer = ArrayVec<u8, ROOM>;

// Where taking bytes of a line stopped.
#[derive(Clone, Copy, PartialEq, Eq)]
enum Stop {
    // The line goes on.
    InLine,
    // Behind the line's end.
    LineEnd,
    // At the end of the input.
    InputEnd,
}

// The place of the first line feed.
fn line_feed(bytes: &[u8]) -> Option<usize>
    ensures { result ≡ position (λ b. b == 10) bytes.now }
{
    bytes.iter().position(|byte| *byte == b'\n')
}

// Keeps as many of these bytes as there is room for, behind those that are kept of the line.
fn extend(line: &mut LineBuffer, bytes: &[u8])
    ensures { (all : List ℕ) → line.old.items ≡ take ROOM all →
        line.new.items ≡ take ROOM (all ++ bytes.now) }
{
    let room = ROOM - line.len();
    let count = bytes.len().min(room);
    line.try_extend_from_slice(&bytes[..count]).unwrap();
}

// Takes a part of a line from the front of these bytes, up to the line's end: how many bytes it is,
// with that end. No bytes are the end of the input.
fn take_part(line: &mut LineBuffer, bytes: &[u8]) -> (usize, Stop)
    ensures count { result.0 ≤ length bytes.now }
    ensures taken { Took line.old line.new (take result.0 bytes.now) result.1 }
    ensures end { result.1 ≡ Stop.InputEnd → length bytes.now ≡ 0 }
{
    if bytes.is_empty() {
        return (0, Stop::InputEnd);
    }
    match line_feed(bytes) {
        Some(end) => {
            extend(line, &bytes[..end]);
            (end + 1, Stop::LineEnd)
        }
        None => {
            extend(line, bytes);
            (bytes.len(), Stop::InLine)
        }
    }
}

// Takes what is at hand of a line, up to its end, and waits for input only where nothing is.
fn take_some<R: Input>(input: &mut R, line: &mut LineBuffer) -> io::Result<Stop>
    ensures taken { IfOk result (λ stop.
        TookSome R.can_break (R.remaining input.old) (R.remaining input.new)
        line.old line.new stop) }
    ensures broke { OnErr result (IsTrue R.can_break) }
{
    let bytes = match input.fill() {
        Ok(bytes) => bytes,
        // A signal came, and nothing else is wrong.
        Err(error) if error.kind() == ErrorKind::Interrupted => return Ok(Stop::InLine),
        Err(error) => return Err(error),
    };
    let (count, stop) = take_part(line, bytes);
    input.consume(count);
    Ok(stop)
}

// Whether the last byte is a carriage return.
fn ends_with_return(line: &[u8]) -> bool
    ensures { result ≡ ends_with_byte 13 line.now }
{
    line.ends_with(b"\r")
}

// Leaves out the carriage return that some files have before each line's end, and what is more than
// one byte past the longest line.
fn trim(line: &mut LineBuffer)
    ensures { (all : List ℕ) → line.old.items ≡ take ROOM all
        → line.new.items ≡ take (LONGEST_LINE + 1) (trimmed all) }
{
    if ends_with_return(line) {
        line.pop();
    }
    line.truncate(LONGEST_LINE + 1);
}

/// Reads a line, without its end, into the buffer: as far as there is room, and skips the rest.
/// Whether there was one: none comes only at the end of the input.
pub fn next_line<R: Input>(input: &mut R, line: &mut LineBuffer) -> io::Result<bool>
    ensures read { IfOk result (ReadLine (R.remaining input.old) (R.remaining input.new) line.new) }
    ensures broke { OnErr result (CanFail R.can_break (R.remaining input.old)) }
{
    line.clear();
    for _ in 0..u64::MAX {
        match take_some(input, line)? {
            Stop::InLine => {}
            Stop::LineEnd => {
                trim(line);
                return Ok(true);
            }
            Stop::InputEnd => {
                let some = !line.is_empty();
                trim(line);
                return Ok(some);
            }
        }
    }
    Err(io::Error::from(ErrorKind::FileTooLarge))
}
