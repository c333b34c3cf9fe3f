// A position whose groups the memory keeps, and its empty cells.
ghost use Rattle.std.specs.Prelude.{◌≡◌, ℕ, ◌*◌, length};

use arrayvec::ArrayVec;
use hexboard::Size;

/// The stones of a position, a byte for each cell, and the memory of their groups, as the crate
/// `groups` lays it out.
#[derive(Clone, Copy)]
pub struct Grouped<'a> {
    pub size: Size,
    pub stones: &'a [u8],
    pub parents: &'a [u8],
    pub borders: &'a [u8],
    ghost whole: { length stones.now ≡ size.n * size.n },
}

impl Grouped<'_> {
    ghost use Rattle.std.specs.Prelude.{◌<◌, MatchOption};
    ghost use Rattle.hexboard.specs.Board.{empties};
    ghost use Rattle.endgame.specs.Cells.{Lists};

    // The empty cells in their order, or none if there are more than 16.
    pub(crate) fn number(&self) -> Option<ArrayVec<u16, 16>>
        ensures { MatchOption result (16 < empties self.now.stones.now)
            (λ cells. Lists self.now.stones.now cells.items) }
    {
        let mut cells = ArrayVec::new();
        for (cell, stone) in self.stones.iter().enumerate() {
            if *stone == 0 {
                cells.try_push(cell as u16).ok()?;
            }
        }
        Some(cells)
    }
}
