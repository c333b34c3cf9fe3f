// Games played at a desk: what is answered, what is refused first, and that a game can be taken
// back and played otherwise.
use hexboard::{Side, Size};
use session::{Desk, Reply, Unopened};
use std::test::Fail;
use wire::{Call, Refusal};

// Fails the test unless this is so.
fn check(holds: bool) -> Result<(), Fail> {
    // An `if` reads plainer here than `then_some(())` with `ok_or_else` behind it.
    if holds {
        Ok(())
    } else {
        Err(Fail::new("not as it should be"))
    }
}

#[test]
fn sizes_out_of_range(rt: HostRuntime) {
    for n in [0, 20] {
        let desk = Desk::open(rt.alloc(), n);
        assert!(rt; matches!(desk, Err(Unopened::Refused(Refusal::BadSize))));
    }
}

// Plays the cells in turn, from the first move of the game.
fn play(desk: &mut Desk, cells: &[u16]) -> Result<(), Fail> {
    for (number, cell) in (0u16..).zip(cells) {
        check(desk.make_move(*cell) == Ok(number))?;
    }
    Ok(())
}

// Calls, with what a game on 3 by 3 answers them one after the other, in which each side could have
// won.
static GAME: [(Call, Reply); 17] = [
    (Call::Back, Reply::Refused(Refusal::NoMove)),
    (Call::Move(9), Reply::Refused(Refusal::NoCell)),
    (Call::Move(4), Reply::Number(0)),
    (Call::Move(4), Reply::Refused(Refusal::Taken)),
    (Call::Move(0), Reply::Number(1)),
    (Call::Move(8), Reply::Number(2)),
    (Call::Move(2), Reply::Number(3)),
    (Call::Move(6), Reply::Number(4)),
    (Call::Move(3), Reply::Number(5)),
    (Call::Move(5), Reply::Number(6)),
    (Call::Who, Reply::Number(0)),
    (Call::CanForce, Reply::Yes(Some(1))),
    (Call::Move(1), Reply::Number(7)),
    (Call::Who, Reply::Way(Side::Two, 3)),
    (Call::CanForce, Reply::No),
    (Call::Back, Reply::Number(7)),
    (Call::Back, Reply::Number(6)),
];

#[test]
fn each_side_can_win(rt: HostRuntime) -> Result<(), Fail> {
    let mut desk = Desk::open(rt.alloc(), 3)?;
    for (call, reply) in &GAME {
        assert!(rt; desk.serve(*call) == *reply);
    }
    assert!(rt; desk.serve(Call::Move(1)) == Reply::Number(6));
    assert!(rt; desk.who() == Some((Side::One, 3)));
    assert!(rt; desk.winner() == Some(Side::One));
    Ok(())
}

// On a finished game a cell that is not there comes before the end of the game, and that before a
// cell that is taken; and no stone comes.
#[test]
fn the_first_reason_is_told(rt: HostRuntime) -> Result<(), Fail> {
    let mut desk = Desk::open(rt.alloc(), 3)?;
    play(&mut desk, &[4, 0, 1, 2, 6])?;
    for (cell, why) in [(3, Refusal::Over), (4, Refusal::Over), (9, Refusal::NoCell)] {
        assert!(rt; desk.make_move(cell) == Err(why));
        assert!(rt; desk.cells() == [2, 1, 2, 0, 1, 0, 1, 0, 0].as_slice());
    }
    Ok(())
}

// A game of 14 moves on 7 by 7 that side 2 wins by its last, along the fourth row.
static LONG: [u16; 14] = [0, 21, 1, 22, 2, 23, 3, 24, 4, 25, 5, 26, 6, 27];

// Another on the same board that side 1 wins, down the first column.
static OTHER: [u16; 13] = [0, 6, 7, 13, 14, 20, 21, 27, 28, 34, 35, 41, 42];

// After every move but the last nobody has connected, and then this side has, by a way of seven
// cells.
fn play_to_the_end(desk: &mut Desk, cells: &[u16], winner: Side) -> Result<(), Fail> {
    for (number, cell) in (0u16..).zip(cells) {
        check(desk.who() == None)?;
        check(desk.make_move(*cell) == Ok(number))?;
    }
    check(desk.who() == Some((winner, 7)))
}

// A whole game is taken back move by move, and another played.
#[test]
fn a_game_back_to_the_start(rt: HostRuntime) -> Result<(), Fail> {
    let mut desk = Desk::open(rt.alloc(), 7)?;
    play_to_the_end(&mut desk, &LONG, Side::Two)?;
    for left in (0..14).rev() {
        assert!(rt; desk.take_back() == Ok(left));
        assert!(rt; desk.winner() == None);
    }
    assert!(rt; desk.take_back() == Err(Refusal::NoMove));
    assert!(rt; desk.cells() == [0; 49].as_slice());
    play_to_the_end(&mut desk, &OTHER, Side::One)
}

// One board after the other in one memory, the sizes mixed, against desks that were opened for
// each: every answer is the same.
#[test]
fn every_size_in_one_memory(rt: HostRuntime) -> Result<(), Fail> {
    let mut room = Desk::with_room(rt.alloc(), Size::new(19).unwrap())?;
    for k in 0u16..19 {
        let n = k * 7 % 19 + 1;
        let mut desk = Desk::open(rt.alloc(), n)?;
        assert!(rt; room.reopen(n) == Ok(()));
        assert!(rt; room.size().width() == n && room.largest().width() == 19);
        same_answers(&mut room, &mut desk)?;
    }
    Ok(())
}

// Plays at two desks alike, along a diagonal, and compares what they answer.
fn same_answers(one: &mut Desk, other: &mut Desk) -> Result<(), Fail> {
    for k in 0u16..20 {
        for call in [Call::CanForce, Call::Move(k * 18), Call::Move(k), Call::Who] {
            let reply = one.serve(call);
            check(other.serve(call) == reply)?;
            check(one.answer(reply) == other.answer(reply))?;
        }
        check(one.cells() == other.cells())?;
    }
    Ok(())
}

// What is refused when a board is opened again leaves the game as it was.
#[test]
fn no_room_for_a_board(rt: HostRuntime) -> Result<(), Fail> {
    let mut desk = Desk::with_room(rt.alloc(), Size::new(3).unwrap())?;
    play(&mut desk, &[4, 0])?;
    for (n, why) in [
        (0, Refusal::BadSize),
        (4, Refusal::SmallMemory),
        (20, Refusal::BadSize),
    ] {
        assert!(rt; desk.reopen(n) == Err(why));
        assert!(rt; desk.cells() == [2, 0, 0, 0, 1, 0, 0, 0, 0].as_slice());
    }
    assert!(rt; desk.reopen(2) == Ok(()));
    assert!(rt; desk.reopen(3) == Ok(()));
    assert!(rt; desk.cells() == [0; 9].as_slice());
    Ok(())
}
