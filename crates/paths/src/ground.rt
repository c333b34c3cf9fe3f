// The ground that the ways of a side lead over: the stones on a board, and whose ways are meant.
ghost use Rattle.std.specs.Prelude.{◌≡◌, ◌*◌, ◌&&◌, length};

use hexboard::{Side, Size};

/// There is a byte for each cell of the board. Size and cells are fields here, as size and stones
/// are of `Grouped` in `endgame`, beside what is known of groups: a struct of the two would only
/// stand between.
#[derive(Clone, Copy)]
pub struct Ground<'a> {
    pub size: Size,
    pub side: Side,
    pub cells: &'a [u8],
    ghost whole: { length cells.now ≡ size.n * size.n },
}

impl Ground<'_> {
    ghost use Rattle.paths.specs.Grounds.{ground_of};

    /// Whether a stone of the side stands on a cell.
    pub fn is_own(&self, cell: u16) -> bool
        ensures { result ≡ (ground_of self.now).own cell }
    {
        // The byte, and not the side that it gives: the search asks for each neighbour.
        self.cells.get(usize::from(cell)) == Some(&u8::from(self.side))
    }

    /// Whether a cell is at the side's first border.
    pub fn is_first(&self, cell: u16) -> bool
        ensures { result ≡ (ground_of self.now).first cell }
    {
        hexboard::borders(self.size, self.side, cell) % 2 == 1
    }

    /// Whether a cell is at the side's last border.
    pub fn is_last(&self, cell: u16) -> bool
        ensures { result ≡ (ground_of self.now).last cell }
    {
        hexboard::borders(self.size, self.side, cell) / 2 == 1
    }

    /// Whether a search can start on a cell: a stone of the side stands there, at the last border.
    pub fn is_source(&self, cell: u16) -> bool
        ensures { result ≡ ((ground_of self.now).own cell && (ground_of self.now).last cell) }
    {
        self.is_own(cell) && self.is_last(cell)
    }
}
