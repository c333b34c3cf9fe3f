// A board as text, and the line that says who has won. Both are written piece by piece, and so need
// no memory.
ghost use Rattle.std.specs.Prelude.{◌≡◌, ℕ, ◌<◌, Bool, List, ◌++◌, Some, codes, slice_index};
ghost use Rattle.hexboard.specs.Words.{words};
ghost use Rattle.text.specs.Boards.{mark, gap, among, spaces, row_cells, board_lines, outcome_line};

use hexboard::{Side, Size, Words};
use std::fmt;

/// A board, to be written as text: a line for each row, each with its end.
#[derive(Clone, Copy)]
pub struct Drawing<'a> {
    pub size: Size,
    /// The bytes of the cells by rows, one a cell: the number of the side whose stone stands there,
    /// or 0. A cell whose byte is missing is drawn as empty.
    pub cells: &'a [u8],
    /// The cells whose stones are marked, two bytes a cell, low byte first. There may be none.
    pub way: &'a [u8],
}

impl fmt::Display for Drawing<'_> {
    ghost output = { λ board.
        Some (board_lines board.size.n board.cells.now (words board.way.now)) };

    fn fmt<W: fmt::Write>(&self, f: &mut fmt::Formatter<W>) -> fmt::Result {
        for row in 0..self.size.width() {
            let row = Row { board: *self, row };
            writeln!(f, "{row}")?;
        }
        Ok(())
    }
}

impl Drawing<'_> {
    // The character of a cell: the number of the side whose stone stands there, if any, or on the
    // way its letter.
    fn mark(&self, cell: u16) -> &'static str
        ensures { let marked = among (words self.now.way.now) cell in
            result.now ≡ mark (slice_index self.now.cells.now cell) marked }
    {
        let Some(side) = hexboard::stone(self.cells, cell) else {
            return ".";
        };
        match (side, self.is_marked(cell)) {
            (Side::One, false) => "1",
            (Side::Two, false) => "2",
            (Side::One, true) => "A",
            (Side::Two, true) => "B",
        }
    }

    // Whether the cell is one of the way.
    fn is_marked(&self, cell: u16) -> bool
        ensures { result ≡ among (words self.now.way.now) cell }
    {
        Words::of(self.way).any(|each| each == cell)
    }
}

// A row of a board, from 0.
#[derive(Clone, Copy)]
struct Row<'a> {
    board: Drawing<'a>,
    row: u16,
    ghost on_board: { row < board.size.n },
}

// The line of the row, without its end: as many spaces as there are rows above it, and its cells,
// with a space between two of them.
impl fmt::Display for Row<'_> {
    ghost output = { λ row. Some (spaces row.row ++
        row_cells row.board.size.n row.board.cells.now (words row.board.way.now) row.row) };

    fn fmt<W: fmt::Write>(&self, f: &mut fmt::Formatter<W>) -> fmt::Result {
        let indent = usize::from(self.row);
        write!(f, "{:indent$}", "")?;
        let width = self.board.size.width();
        for column in 0..width {
            let gap = gap(column);
            let mark = self.board.mark(self.row * width + column);
            write!(f, "{gap}{mark}")?;
        }
        Ok(())
    }
}

// What stands before the cell in this column: a space if there is a cell before it.
fn gap(column: u16) -> &'static str
    ensures { result.now ≡ gap column }
{
    if column == 0 { "" } else { " " }
}

/// Who has won, if anybody has, to be written as a line without its end.
#[derive(Clone, Copy)]
pub struct Outcome(pub Option<Side>);

impl fmt::Display for Outcome {
    ghost output = { λ outcome. Some (outcome_line outcome.0) };

    fn fmt<W: fmt::Write>(&self, f: &mut fmt::Formatter<W>) -> fmt::Result {
        f.write_str(match self.0 {
            Some(Side::One) => "side 1 has won",
            Some(Side::Two) => "side 2 has won",
            None => "nobody has connected",
        })
    }
}
