// Ways on small boards.
use hexboard::{Side, Size, Words};
use paths::find_way;
use std::test::Fail;

// A board n wide, a side, and the side's way there: its cells, one a number, or none.
static WAYS: [(u16, &[u8], Side, Option<&[u8]>); 8] = [
    (1, &[1], Side::Two, None),
    (1, &[2], Side::Two, Some(&[0])),
    (2, &[1, 2, 2, 1], Side::One, None),
    (2, &[1, 2, 2, 1], Side::Two, Some(&[2, 1])),
    // Cell 5, next to 4 and to 7, would be a detour.
    (3, &[0, 1, 0, 0, 1, 1, 2, 1, 2], Side::One, Some(&[1, 4, 7])),
    // Nobody has connected.
    (3, &[1, 2, 0, 1, 0, 2, 2, 1, 0], Side::One, None),
    (3, &[1, 2, 0, 1, 0, 2, 2, 1, 0], Side::Two, None),
    (
        // A snake that goes to and fro: 23 of 49 cells.
        7,
        &[
            1, 0, 0, 0, 0, 0, 0, //
            1, 1, 1, 1, 1, 1, 1, //
            0, 0, 0, 0, 0, 0, 1, //
            1, 1, 1, 1, 1, 1, 1, //
            1, 0, 0, 0, 0, 0, 0, //
            1, 1, 1, 1, 1, 1, 1, //
            0, 0, 0, 0, 0, 0, 1, //
        ],
        Side::One,
        Some(&[
            0, 7, 8, 9, 10, 11, 12, 13, 20, 26, 25, 24, 23, 22, 28, 35, 36, 37, 38, 39, 40, 41, 48,
        ]),
    ),
];

// The way of a side on a board n wide, over scratch memory that holds anything: how many cells it
// has, which `out` begins with.
fn way(n: u16, side: Side, cells: &[u8], out: &mut [u8; 98]) -> Result<Option<u16>, Fail> {
    let size = Size::new(n).ok_or_else(|| Fail::new("no such size"))?;
    let all = usize::from(size.cells());
    let mut queue = [7; 98];
    let mut from = [9; 98];
    if cells.len() != all || all > 49 {
        return Err(Fail::new("the board is of another size"));
    }
    let queue = &mut queue[0..2 * all];
    let from = &mut from[0..2 * all];
    Ok(find_way(size, side, cells, queue, from, out))
}

#[test]
fn ways_on_small_boards(rt: HostRuntime) -> Result<(), Fail> {
    for (n, board, side, right) in &WAYS {
        let mut out = [5; 98];
        let count = way(*n, *side, board, &mut out)?.map(usize::from);
        let cells = right.unwrap_or(&[]);
        assert!(rt; count == right.map(|cells| cells.len()));
        for (cell, found) in cells.iter().zip(Words::of(&out)) {
            assert!(rt; found == u16::from(*cell));
        }
        for byte in out.iter().skip(2 * cells.len()) {
            assert!(rt; *byte == 5);
        }
    }
    Ok(())
}
