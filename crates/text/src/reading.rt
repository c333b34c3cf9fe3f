// Reads a line of text: what it asks for, or where it ceases to be a line that can be read.
ghost use Rattle.std.specs.Prelude.{ℕ, ◌+◌, ◌*◌, ◌<◌, min, List, Some, MatchResult};
ghost use Rattle.std.specs.Option.{SomeIff};
ghost use Rattle.std.specs.Char.{digit_value};
ghost use Rattle.std.specs.Str.Parse.{IsNumeral};
ghost use Rattle.text.specs.Lines.{ReadsAs, Word, Numbered, SomeNumbered, Says, SomeWord, asked_by};
ghost use Rattle.text.specs.Places.{Agree, Stops};
ghost use Rattle.text.specs.Readings.{Reads};

use std::fmt;
use wire::Call;

/// What a line asks for: a new board, so many cells wide and tall, or a call on the board there is.
#[derive(Clone, Copy, PartialEq, Eq, Debug)]
pub enum Line {
    Board(u16),
    Call(Call),
}

// The line that asks for this, without its end.
impl fmt::Display for Line {
    ghost output = { λ line. Some (asked_by line) };

    fn fmt<W: fmt::Write>(&self, f: &mut fmt::Formatter<W>) -> fmt::Result {
        match *self {
            Line::Board(n) => write!(f, "board {n}"),
            Line::Call(Call::Move(cell)) => write!(f, "move {cell}"),
            Line::Call(Call::Back) => f.write_str("back"),
            Line::Call(Call::Who) => f.write_str("who"),
            Line::Call(Call::CanForce) => f.write_str("can force"),
        }
    }
}

/// What the line, without its end, asks for. A number past 65535 is read as 65535. Where the line
/// cannot be read, the length of its longest beginning that is the beginning of some line that can.
pub fn read_line(line: &[u8]) -> Result<Line, usize>
    ensures { Reads line.now result }
{
    let board = match number_after(b"board ", line) {
        Ok(n) => return Ok(Line::Board(n)),
        Err(place) => place,
    };
    let cell = match number_after(b"move ", line) {
        Ok(cell) => return Ok(Line::Call(Call::Move(cell))),
        Err(place) => place,
    };
    match read_word(line) {
        Ok(call) => Ok(Line::Call(call)),
        Err(place) => Err(place.max(board).max(cell)),
    }
}

// What the digits behind the word are read as, or the place of the first byte that does not fit.
fn number_after(word: &[u8], line: &[u8]) -> Result<u16, usize>
    ensures { MatchResult result
        (λ n. Numbered word.now n line.now)
        (Stops (SomeNumbered word.now) line.now) }
{
    let same = agree(word, line);
    if same < word.len() {
        return Err(same);
    }
    number(&line[same..]).map_err(|place| same + place)
}

// The call that is a word alone, or the place of the first byte that does not fit, as far as the
// furthest of the words goes.
fn read_word(line: &[u8]) -> Result<Call, usize>
    ensures { MatchResult result (Says line.now) (Stops SomeWord line.now) }
{
    let words = [
        (b"back".as_slice(), Call::Back),
        (b"who".as_slice(), Call::Who),
        (b"can force".as_slice(), Call::CanForce),
    ];
    let mut furthest = 0;
    for (word, call) in words {
        match is_word(word, line) {
            Ok(()) => return Ok(call),
            Err(place) => furthest = place.max(furthest),
        }
    }
    Err(furthest)
}

// How many bytes at the front of the line are those of the word.
fn agree(word: &[u8], line: &[u8]) -> usize
    ensures { Agree word.now line.now result }
{
    word.iter().zip(line).take_while(|(a, b)| a == b).count()
}

// Whether the line is the word, or else how far it goes along with it.
fn is_word(word: &[u8], line: &[u8]) -> Result<(), usize>
    ensures { MatchResult result (λ _. Word word.now line.now) (Stops (Word word.now) line.now) }
{
    let same = agree(word, line);
    if same == word.len() && same == line.len() {
        Ok(())
    } else {
        Err(same)
    }
}

// The number with one more digit behind it, or 65535 where that is larger; none if the byte is no
// digit.
fn with_digit(value: u16, byte: u8) -> Option<u16>
    ensures { SomeIff result (digit_value byte < 10) (min (value * 10 + digit_value byte) 65535) }
{
    let digit = char::from(byte).to_digit(10)?;
    Some(value.saturating_mul(10).saturating_add(digit as u16))
}

// What the digits are read as, or the place of the first byte that is none.
fn number(bytes: &[u8]) -> Result<u16, usize>
    ensures { MatchResult result (ReadsAs bytes.now) (Stops (IsNumeral 10) bytes.now) }
{
    if bytes.is_empty() {
        return Err(0);
    }
    let mut value = 0;
    for (at, byte) in bytes.iter().enumerate() {
        value = with_digit(value, *byte).ok_or(at)?;
    }
    Ok(value)
}
