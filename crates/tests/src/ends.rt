// Small positions looked through to their end.
use endgame::{Effort, Grouped, Verdict, can_force, table_bytes};
use groups::Groups;
use hexboard::{Side, Size};
use std::alloc::{AllocError, Global};
use std::test::Fail;

// What is answered after these moves, and what was done to find out, where stones of side 1 lay on
// some cells before. None on a board more than 5 wide, if the table is too short, or where a move
// is refused.
fn after(size: Size, ahead: &[u16], moves: &[u16], table: &mut [u8]) -> Option<(Verdict, Effort)> {
    let cells = usize::from(size.cells());
    if cells > 25 || table.len() < table_bytes(size) {
        return None;
    }
    let mut stones = [0; 25];
    let mut parents = [0; 50];
    let mut borders = [0; 25];
    let stones = &mut stones[..cells];
    let parents = &mut parents[..2 * cells];
    let borders = &mut borders[..cells];
    Groups { parents, borders }.clear(size);
    for cell in ahead {
        hexboard::place(stones, Side::One, *cell).ok()?;
        Groups { parents, borders }.place(size, stones, Side::One, *cell);
    }
    let mut side = Side::One;
    for cell in moves {
        hexboard::place(stones, side, *cell).ok()?;
        Groups { parents, borders }.place(size, stones, side, *cell);
        side = side.opponent();
    }
    let position = Grouped {
        size,
        stones,
        parents,
        borders,
    };
    Some(can_force(&position, side, table))
}

// The same on a board up to 3 wide, with a table that holds anything.
fn small_end(n: u16, ahead: &[u16], moves: &[u16]) -> Option<(Verdict, Effort)> {
    let mut table = [7; 1512];
    after(Size::new(n)?, ahead, moves, &mut table)
}

// The answer alone, with no stones ahead.
fn small(n: u16, moves: &[u16]) -> Option<Verdict> {
    let (verdict, _) = small_end(n, &[], moves)?;
    Some(verdict)
}

// The answer alone on a board 5 wide.
fn middle(heap: Global, moves: &[u16]) -> Result<Option<Verdict>, AllocError> {
    let size = Size::new(5).unwrap();
    let mut table = vec![in heap; 7; table_bytes(size)]?;
    Ok(after(size, &[], moves, &mut table).map(|(verdict, _)| verdict))
}

// On the empty 3 by 3 board just five cells force: after a move to one of the others the other side
// can.
#[test]
fn three_by_three(rt: HostRuntime) {
    assert!(rt; matches!(small(3, &[]), Some(Verdict::Yes(2..=6))));
    for cell in 0..9 {
        let forces = small(3, &[cell]) == Some(Verdict::No);
        assert!(rt; forces == (2..=6).contains(&cell));
    }
}

#[test]
fn smallest(rt: HostRuntime) {
    assert!(rt; small(1, &[]) == Some(Verdict::Yes(0)));
    assert!(rt; matches!(small(2, &[]), Some(Verdict::Yes(1 | 2))));
    assert!(rt; matches!(small(2, &[0]), Some(Verdict::Yes(1 | 2))));
    assert!(rt; small(2, &[1]) == Some(Verdict::No));
}

// With 17 empty cells there are too many, with 16 not.
#[test]
fn many_and_too_many(rt: HostRuntime) -> Result<(), Fail> {
    let more = middle(rt.alloc(), &[0, 4, 20, 24, 2, 14, 22, 10])?;
    assert!(rt; more == Some(Verdict::TooMany));
    let few = middle(rt.alloc(), &[0, 4, 20, 24, 2, 14, 22, 10, 12])?;
    assert!(rt; matches!(few, Some(Verdict::No | Verdict::Yes(_))));
    Ok(())
}

// A cell that connects, or two threats of the other side, are seen at once. On the empty board 2
// wide, after the one move that is tried side 2 sees two threats.
#[test]
fn searched_and_looked_at(rt: HostRuntime) {
    let ends: [(u16, &[u16], u64, u64); 3] = [(1, &[], 0, 1), (2, &[1], 0, 1), (2, &[], 1, 2)];
    for (n, moves, searched, looks) in ends {
        let done = small_end(n, &[], moves).map(|(_, done)| done);
        assert!(rt; done == Some(Effort { searched, looks }));
    }
}

// With two stones of its own in the middle column, side 1 connects whoever is to move.
#[test]
fn stones_of_one_side(rt: HostRuntime) {
    let first = small_end(3, &[1, 4], &[]).map(|(verdict, _)| verdict);
    assert!(rt; matches!(first, Some(Verdict::Yes(6 | 7))));
    let second = small_end(3, &[1], &[4]).map(|(verdict, _)| verdict);
    assert!(rt; second == Some(Verdict::No));
}
