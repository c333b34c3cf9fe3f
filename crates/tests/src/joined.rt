// Groups of stones: joined by a stone, and apart again without it.
use groups::{Groups, root, touches_both};
use hexboard::{Side, Size, Unplaced};
use std::test::Fail;

// A board three wide with its groups.
#[derive(Drop)]
struct Board {
    size: Size,
    cells: [u8; 9],
    parents: [u8; 18],
    borders: [u8; 9],
}

impl Board {
    // The board without stones, in memory that held sevens.
    fn new() -> Board {
        let size = Size::new(3).unwrap();
        let mut parents = [7; 18];
        let mut borders = [7; 9];
        Groups {
            parents: &mut parents,
            borders: &mut borders,
        }
        .clear(size);
        Board {
            size,
            cells: [0; 9],
            parents,
            borders,
        }
    }

    // Whether two stones of a side are in one group.
    fn joins(&self, one: u16, other: u16) -> bool {
        root(&self.parents, one) == root(&self.parents, other)
    }

    // A stone comes to the board and to its groups.
    fn play(&mut self, side: Side, cell: u16) -> Result<(), Unplaced> {
        hexboard::place(&mut self.cells, side, cell)?;
        Groups {
            parents: &mut self.parents,
            borders: &mut self.borders,
        }
        .place(self.size, &self.cells, side, cell);
        Ok(())
    }
}

// One stone in the middle joins three groups around it, from the top row to the bottom row; taken
// out, it leaves no trace.
#[test]
fn three_groups_joined_and_apart_again(rt: HostRuntime) -> Result<(), Fail> {
    let mut board = Board::new();
    for (side, cell) in [
        (Side::One, 1),
        (Side::Two, 0),
        (Side::One, 5),
        (Side::Two, 8),
        (Side::One, 6),
    ] {
        board.play(side, cell)?;
    }
    for (one, other) in [(1, 5), (5, 6), (1, 6), (0, 8)] {
        assert!(rt; !board.joins(one, other));
    }
    let parents_before = board.parents;
    let borders_before = board.borders;
    board.play(Side::One, 4)?;
    for (one, other) in [(1, 5), (5, 6), (1, 6)] {
        assert!(rt; board.joins(one, other));
    }
    assert!(rt; !board.joins(0, 8));
    assert!(rt; touches_both(&board.borders, 4));
    Groups {
        parents: &mut board.parents,
        borders: &mut board.borders,
    }
    .lift(board.size, 4);
    assert!(rt; board.parents == parents_before);
    assert!(rt; board.borders == borders_before);
    Ok(())
}

// The last cell of a row and the first of the next have numbers next to each other, and do not
// touch.
#[test]
fn apart_across_the_end_of_a_row(rt: HostRuntime) -> Result<(), Fail> {
    let mut board = Board::new();
    board.play(Side::One, 2)?;
    board.play(Side::One, 3)?;
    assert!(rt; !board.joins(2, 3));
    board.play(Side::One, 1)?;
    assert!(rt; board.joins(2, 3));
    assert!(rt; !touches_both(&board.borders, 1));
    Ok(())
}
