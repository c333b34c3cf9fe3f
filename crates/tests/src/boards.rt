// Boards: which cells are next to each other, and what touches a border.
use hexboard::{Neighbours, NoSide, Side, Size};
use std::test::Fail;

// Which cells of the 3 by 3 board are next to each other: a row for each cell, 1 for each cell that
// is next to it.
static NEAR: [[u8; 9]; 9] = [
    [0, 1, 0, 1, 0, 0, 0, 0, 0],
    [1, 0, 1, 1, 1, 0, 0, 0, 0],
    [0, 1, 0, 0, 1, 1, 0, 0, 0],
    [1, 1, 0, 0, 1, 0, 1, 0, 0],
    [0, 1, 1, 1, 0, 1, 1, 1, 0],
    [0, 0, 1, 0, 1, 0, 0, 1, 1],
    [0, 0, 0, 1, 1, 0, 0, 1, 0],
    [0, 0, 0, 0, 1, 1, 1, 0, 1],
    [0, 0, 0, 0, 0, 1, 0, 1, 0],
];

#[test]
fn three_by_three(rt: HostRuntime) {
    let size = Size::new(3).unwrap();
    for (i, row) in (0u16..).zip(&NEAR) {
        for (j, near) in (0u16..).zip(row) {
            let found = Neighbours::of(size, i).any(|cell| cell == j);
            assert!(rt; found == (*near == 1));
        }
    }
}

// The size of a board, a cell in a corner, and its neighbours in the order of their directions.
static CORNERS: [(u16, u16, &[u16]); 9] = [
    (1, 0, &[]),
    (2, 0, &[1, 2]),
    (2, 1, &[0, 3, 2]),
    (2, 2, &[3, 0, 1]),
    (2, 3, &[2, 1]),
    (19, 0, &[1, 19]),
    (19, 18, &[17, 37, 36]),
    (19, 342, &[343, 323, 324]),
    (19, 360, &[359, 341]),
];

#[test]
fn corners(rt: HostRuntime) -> Result<(), Fail> {
    for (n, cell, all) in &CORNERS {
        let size = Size::new(*n).ok_or_else(|| Fail::new("no board is so wide"))?;
        let mut found = Neighbours::of(size, *cell);
        for near in all.iter() {
            assert!(rt; found.next() == Some(*near));
        }
        assert!(rt; found.next() == None);
    }
    Ok(())
}

#[test]
fn one_cell_touches_all_borders(rt: HostRuntime) {
    let size = Size::new(1).unwrap();
    assert!(rt; hexboard::borders(size, Side::One, 0) == 3);
    assert!(rt; hexboard::borders(size, Side::Two, 0) == 3);
}

// The line of a number that no side has.
#[test]
fn no_sides_number(rt: HostRuntime) -> Result<(), Fail> {
    let why = NoSide(30);
    let line = format!(in rt.alloc(); "{why}")?;
    assert!(rt; line.as_str() == "no side has number 30");
    Ok(())
}
