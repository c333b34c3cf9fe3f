// Which cells are next to each other, and which borders of a side a cell touches.
ghost use Rattle.std.specs.Prelude.{◌≡◌, ℕ, ◌*◌, ◌/◌, ◌%◌, ◌<◌, ◌≤◌, ◌↔◌, IfSome, Some, IsTrue};
ghost use Rattle.std.specs.Prelude.{MatchOption, Contains};
ghost use Rattle.std.specs.Iterator.{YieldsFirst, item_count};
ghost use Rattle.hexboard.specs.Board.{next_to, begins, ends};
ghost use Rattle.hexboard.specs.Geometry.{cell_of, step_to, neighbour_at, neighbour_of, neighbours};
ghost use Rattle.hexboard.specs.Geometry.{AllNeighbours, Beside, touch};
ghost use Rattle.hexboard.specs.Sides.{number};

use crate::side::Side;
use crate::size::Size;
use std::marker::Model;
use std::ops::Range;

// The step toward the k-th neighbour of a cell, as rows down and columns to the right: to the
// right, to the left, below, above, up and to the right, down and to the left. There are six.
fn step(k: u8) -> Option<(i32, i32)>
    ensures { result ≡ step_to k }
{
    match k {
        0 => Some((0, 1)),
        1 => Some((0, -1)),
        2 => Some((1, 0)),
        3 => Some((-1, 0)),
        4 => Some((-1, 1)),
        5 => Some((1, -1)),
        _ => None,
    }
}

// The cell in this row and column, if they are on the board.
fn cell_on(size: Size, row: i32, column: i32) -> Option<u16>
    ensures { result ≡ cell_of size.n row column }
{
    let n = i32::from(size.width());
    // Tested as they are, which is quicker than by `u16::try_from`.
    if row < 0 || row >= n || column < 0 || column >= n {
        return None;
    }
    Some(row as u16 * size.width() + column as u16)
}

// The k-th neighbour of the cell in this row and column.
fn neighbour_at(size: Size, row: u16, column: u16, k: u8) -> Option<u16>
    ensures { result ≡ neighbour_at size.n row column k }
{
    let (down, right) = step(k)?;
    cell_on(size, i32::from(row) + down, i32::from(column) + right)
}

// The row and the column of a cell, if it is on the board.
fn row_column(size: Size, cell: u16) -> Option<(u16, u16)>
    ensures { MatchOption result (size.n * size.n ≤ cell) (λ p. (cell < size.n * size.n)
        × (p.0 ≡ cell / size.n) × (p.1 ≡ cell % size.n)) }
{
    if cell >= size.cells() {
        return None;
    }
    Some((cell / size.width(), cell % size.width()))
}

/// The k-th neighbour of a cell. None where the board ends there, for a cell that is not on the
/// board, and from k = 6 on.
pub fn neighbour(size: Size, cell: u16, k: u8) -> Option<u16>
    ensures value { result ≡ neighbour_of size.n cell k }
    ensures beside { IfSome result (Beside size.n cell) }
{
    let (row, column) = row_column(size, cell)?;
    neighbour_at(size, row, column, k)
}

/// The cells that are next to a cell, one after the other in the order of `neighbour`: seen as the
/// list of those that are left.
#[derive(Drop)]
pub struct Neighbours {
    size: Size,
    // Where the cell lies, reckoned once and not for each neighbour.
    row: u16,
    column: u16,
    directions: Range<u8>,
}

impl Model for Neighbours {
    ghost use Rattle.std.specs.Prelude.{ℕ, ◌-◌, List};
    ghost use Rattle.hexboard.specs.Geometry.{neighbour_at, given};

    ghost Value = { List ℕ };

    ghost view = { λ it. given (neighbour_at it.size.n it.row it.column) it.directions.start
        (it.directions.end - it.directions.start) };
}

impl Neighbours {
    /// The neighbours of a cell; none of a cell that is not on the board.
    pub fn of(size: Size, cell: u16) -> Neighbours
        ensures value { result ≡ neighbours size.n cell }
        ensures beside { (j : ℕ) → Beside size.n cell j ↔ Contains result j }
    {
        let Some((row, column)) = row_column(size, cell) else {
            return Neighbours {
                size,
                row: 0,
                column: 0,
                directions: 0..0,
            };
        };
        Neighbours {
            size,
            row,
            column,
            directions: 0..directions(),
        }
    }
}

impl Iterator for Neighbours {
    type Item = u16;

    ghost next_gives = { YieldsFirst (λ rest. rest) };

    ghost remaining = { item_count (λ rest. rest) };

    fn next(&mut self) -> Option<u16> {
        let (size, row, column) = (self.size, self.row, self.column);
        self.directions
            .find_map(|k| neighbour_at(size, row, column, k))
    }
}

/// How many directions a neighbour can lie in. The neighbours for k below this are all the cells
/// that are next to a cell.
pub fn directions() -> u8
    ensures value { result ≡ 6 }
    ensures all { AllNeighbours result }
    ensures only { (n i k j : ℕ) → neighbour_of n i k ≡ Some j → k < result }
    ensures symmetric { (n i j : ℕ) → next_to n i j ≡ next_to n j i }
{
    6
}

/// The borders of a side that a cell touches, as two bits: 1 for its first border, 2 for its last.
/// So they are kept, and joined by `|`, as a byte of the game's memory.
pub fn borders(size: Size, side: Side, cell: u16) -> u8
    ensures value { result ≡ touch size.n (number side) cell }
    ensures first { IsTrue (begins size.n (number side) cell) ↔ (result % 2 ≡ 1) }
    ensures last { IsTrue (ends size.n (number side) cell) ↔ (result / 2 ≡ 1) }
    ensures few { result < 4 }
{
    let n = size.width();
    let place = match side {
        Side::One => cell / n,
        Side::Two => cell % n,
    };
    u8::from(place == 0) + 2 * u8::from(place == n - 1)
}
