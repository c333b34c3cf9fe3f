// What the desk answers, as values, as bytes and as lines.
ghost use Rattle.std.specs.Prelude.{◌≡◌, ℕ, ◌<◌, ◌≤◌, ◌∷◌, ◌++◌, length, Some, MatchOption, OnSome};
ghost use Rattle.std.specs.Prelude.{slice_index};
ghost use Rattle.std.specs.List.{flat_map};
ghost use Rattle.hexboard.specs.Words.{words};
ghost use Rattle.wire.specs.Bytes.{two, way_head, Written, Wrote, Headed};
ghost use Rattle.wire.specs.Formal.{told};
ghost use Rattle.wire.specs.Answers.{line_of, spaced};
ghost use Rattle.wire.specs.Numbers as numbers;
ghost use Rattle.wire.specs.Numbers.{Row};
ghost use Rattle.wire.specs.declared.answer.Answer.TheVariants.{Way};
ghost use Rattle.wire.specs.Reading.{Understood};

use crate::front::put;
use crate::refusal::Refusal;
use hexboard::{Side, Words};
use std::fmt;

/// `W` is how the cells of a way are held. Where an answer is bytes, or is made of them, they are
/// `&[u8]`, two bytes a cell, low byte first: a part of the bytes that the answer is written into
/// or read from.
#[derive(Clone, Copy, PartialEq, Eq, Debug)]
pub enum Answer<W> {
    Refused(Refusal),
    // Of a move, or how many moves are left; 0 if nobody has won.
    Number(u16),
    Way(Side, W),
    // A cell for a move that does it, or none if the side to move has connected.
    Yes(Option<u16>),
    No,
    TooMany,
}

/// Why an answer could not be written.
#[derive(Clone, Copy, PartialEq, Eq, Debug)]
pub enum Unwritten {
    // There is no room for it.
    Short,
    // The bytes of a way are no cells: they are odd in number, or more cells than two bytes can
    // count. Or one more than the cell of a yes is more than two bytes can hold.
    NotCells,
}

/// The answer's bytes at the front, and how many they are.
pub fn write_answer(answer: Answer<&[u8]>, out: &mut [u8]) -> Result<usize, Unwritten>
    ensures { Wrote answer.entry out.old out.new result }
{
    match answer {
        Answer::Refused(why) => {
            let (number, place) = why.into();
            let [a, b] = number.to_le_bytes();
            let [c, d] = place.to_le_bytes();
            put(&[0, a, b, c, d], out).ok_or(Unwritten::Short)
        }
        Answer::Number(number) => {
            let [low, high] = number.to_le_bytes();
            put(&[1, low, high], out).ok_or(Unwritten::Short)
        }
        Answer::Way(side, cells) => write_way(side, cells, out),
        Answer::Yes(cell) => {
            let [low, high] = next_of(cell).ok_or(Unwritten::NotCells)?.to_le_bytes();
            put(&[3, low, high], out).ok_or(Unwritten::Short)
        }
        Answer::No => put(&[4], out).ok_or(Unwritten::Short),
        Answer::TooMany => put(&[5], out).ok_or(Unwritten::Short),
    }
}

// One more than a cell, or 0 for none, where that is a number of two bytes.
fn next_of(cell: Option<u16>) -> Option<u16>
    ensures { MatchOption result (65535 < numbers.next_of cell) (λ n. n ≡ numbers.next_of cell) }
{
    cell.map_or(Some(0), |cell| cell.checked_add(1))
}

fn write_way(side: Side, cells: &[u8], out: &mut [u8]) -> Result<usize, Unwritten>
    ensures { Wrote (Way side cells.entry) out.old out.new result }
{
    let count = count_cells(cells).ok_or(Unwritten::NotCells)?;
    let size = 5 + cells.len();
    // The room is asked for before anything is written.
    if out.len() < size {
        return Err(Unwritten::Short);
    }
    let _ = write_way_head(side, count, out);
    out[5..size].copy_from_slice(cells);
    Ok(size)
}

/// What comes before the cells of a way, written in front of cells that stand there already.
pub fn write_way_head(side: Side, count: u16, out: &mut [u8]) -> Option<usize>
    ensures head { Written (way_head side count) out.old out.new result }
    ensures whole { OnSome result (Headed side count out.new) }
{
    let [a, b] = u16::from(u8::from(side)).to_le_bytes();
    let [c, d] = count.to_le_bytes();
    put(&[2, a, b, c, d], out)
}

/// How many cells the bytes of a way are, if they are cells.
pub fn count_cells(cells: &[u8]) -> Option<u16>
    ensures { MatchOption result ((Row cells.now → ⊥))
        (λ n. Row cells.now × (n ≡ length (words cells.now))) }
{
    if cells.len() % 2 != 0 {
        return None;
    }
    u16::try_from(cells.len() / 2).ok()
}

/// The answer that the bytes are, where they are one. A way is handed on as the part of the bytes
/// that its cells are.
pub fn read_answer(bytes: &[u8]) -> Option<Answer<&[u8]>>
    ensures { Understood bytes.now result }
{
    match bytes {
        [0, a, b, c, d] => read_refused(u16::from_le_bytes([*a, *b]), u16::from_le_bytes([*c, *d])),
        [1, a, b] => Some(Answer::Number(u16::from_le_bytes([*a, *b]))),
        [2, a, b, c, d, cells @ ..] => read_way(
            u16::from_le_bytes([*a, *b]),
            u16::from_le_bytes([*c, *d]),
            cells,
        ),
        [3, a, b] => Some(Answer::Yes(u16::from_le_bytes([*a, *b]).checked_sub(1))),
        [4] => Some(Answer::No),
        [5] => Some(Answer::TooMany),
        _ => None,
    }
}

fn read_refused<'a>(number: u16, place: u16) -> Option<Answer<&'a [u8]>>
    ensures { Understood (0 ∷ (two number ++ two place)) result }
{
    let why = Refusal::try_from((number, place)).ok()?;
    Some(Answer::Refused(why))
}

fn read_way(side: u16, count: u16, cells: &[u8]) -> Option<Answer<&[u8]>>
    ensures { Understood (2 ∷ (two side ++ (two count ++ cells.now))) result }
{
    let side = Side::try_from(u8::try_from(side).ok()?).ok()?;
    if cells.len() != 2 * usize::from(count) {
        return None;
    }
    Some(Answer::Way(side, cells))
}

// The line of an answer, without its end.
impl fmt::Display for Answer<&[u8]> {
    ghost output = { λ answer. Some (line_of (told answer)) };

    fn fmt<W: fmt::Write>(&self, f: &mut fmt::Formatter<W>) -> fmt::Result {
        match *self {
            Answer::Refused(why) => write!(f, "{why}"),
            Answer::Number(n) => write!(f, "{n}"),
            Answer::Way(side, cells) => write!(f, "way {}:{}", u8::from(side), Cells(cells)),
            Answer::Yes(Some(cell)) => write!(f, "yes {cell}"),
            Answer::Yes(None) => f.write_str("yes"),
            Answer::No => f.write_str("no"),
            Answer::TooMany => f.write_str("too many"),
        }
    }
}

// The cells of a way, a space before each.
#[derive(Clone, Copy)]
struct Cells<'a>(&'a [u8]);

impl fmt::Display for Cells<'_> {
    ghost output = { λ cells. Some (flat_map spaced (words cells.0.now)) };

    fn fmt<W: fmt::Write>(&self, f: &mut fmt::Formatter<W>) -> fmt::Result {
        for cell in Words::of(self.0) {
            write!(f, " {cell}")?;
        }
        Ok(())
    }
}
