// What --help tells.
ghost use Rattle.std.specs.Prelude.{Some};
ghost use Rattle.arguments.specs.Helped.{help_lines};

use std::fmt;

// What --help tells of the lines, for every program.
const LINES: &str = "
Lines, of at most 4096 bytes each:
  board N      a new board, N wide and N tall: board N
  move C       a stone of the side to move on cell C, numbered by rows from 0:
               the move's number, from 0
  back         the last move is taken back: how many moves are left
  who          who has connected, and how: way S: C C C, from border to border;
               or 0 if nobody has
  can force    whether the side to move can force that it connects: yes C, by a
               move to cell C; yes alone if it has connected; no; or too many,
               where too many cells are empty to look through the end

Side 1 moves first, and connects the top row and the bottom row; side 2 the left
column and the right column.

A line that is refused is answered by 'refused R at P', and changes nothing:
  1  it cannot be read (P: its first byte that does not fit), or there is no
     board yet
  2  there is no such cell
  3  the board's size is out of range
  4  the game is over
  5  the cell is not empty
  6  there is no move to take back

";

/// The help of a program, to be written as text.
#[derive(Clone, Copy)]
pub struct Help {
    /// What it tells of itself: lines, each with its end.
    pub about: &'static str,
    /// How wide its largest board is.
    pub largest: u16,
    /// The most empty cells of an end that it looks through.
    pub ends: u16,
}

impl fmt::Display for Help {
    ghost output = { λ help. Some (help_lines help) };

    fn fmt<W: fmt::Write>(&self, f: &mut fmt::Formatter<W>) -> fmt::Result {
        let Help {
            about,
            largest,
            ends,
        } = *self;
        writeln!(
            f,
            "{about}{LINES}Limits: boards from 1 by 1 to {largest} by {largest}; \
             can force with at most {ends} empty cells."
        )
    }
}
