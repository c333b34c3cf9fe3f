// Games in lent memory: what opening refuses, calls in bytes, and whole games.
ghost use Rattle.std.specs.Prelude.{◌≡◌, ◌-◌, ◌^◌, min, length, ⊤};

use hexboard::Size;
use history::Game;
use session::{Closed, Parts, Sink, call, memory_for, open, play};
use std::alloc::{AllocError, Global};
use std::test::Fail;
use wire::Refusal;

// What opening a board n wide in this memory is refused for, with the memory as it was.
fn closed(n: u16, memory: &mut [u8]) -> Result<Refusal, Fail> {
    // Not by `err()`, which the borrow checker does not cover where the `Ok` that it drops holds
    // several `&mut`.
    let Err(Closed { why, memory }) = open(n, memory) else {
        return Err(Fail::new("opened"));
    };
    if memory.is_empty() || memory.iter().any(|byte| *byte != 7) {
        return Err(Fail::new("the memory is not as it was"));
    }
    Ok(why)
}

#[test]
fn memory_too_small(rt: HostRuntime) -> Result<(), Fail> {
    let size = Size::new(3).unwrap();
    assert!(rt; memory_for(size) == 1566);
    let mut memory = [7; 1565];
    for (n, why) in [
        (0, Refusal::BadSize),
        (20, Refusal::BadSize),
        (3, Refusal::SmallMemory),
    ] {
        assert!(rt; closed(n, &mut memory)? == why);
    }
    Ok(())
}

// Copies of the bytes of the parts that keep the game: of its stones, of its moves, and of its
// groups with their borders.
fn kept_in(heap: Global, parts: &Parts<'_>) -> Result<[Vec<u8>; 4], AllocError> {
    Ok([
        parts.stones.to_vec(heap)?,
        parts.log.to_vec(heap)?,
        parts.parents.to_vec(heap)?,
        parts.borders.to_vec(heap)?,
    ])
}

// On a board of one cell a move wins, and the way is written behind its head. A call that cannot be
// read is refused as that, though the game is over, and leaves every byte as it was; so does the
// move that is taken back.
#[test]
fn one_cell_in_bytes(rt: HostRuntime) -> Result<(), Fail> {
    let heap = rt.alloc();
    let size = Size::new(1).unwrap();
    let mut memory = [7; 1518];
    let mut answer = [9; 10];
    let parts = open(1, &mut memory)?;
    let empty = kept_in(heap, &parts)?;
    let (game, parts, _) = call(Game::new(size), parts, &[0, 0, 0], &mut answer);
    assert!(rt; answer == [1, 0, 0, 9, 9, 9, 9, 9, 9, 9]);
    let won = kept_in(heap, &parts)?;
    let (game, parts, _) = call(game, parts, &[0, 0, 0, 0], &mut answer);
    assert!(rt; answer == [0, 1, 0, 3, 0, 9, 9, 9, 9, 9]);
    assert!(rt; kept_in(heap, &parts)? == won);
    let (game, parts, written) = call(game, parts, &[2], &mut answer);
    assert!(rt; written == Some(7));
    assert!(rt; answer == [2, 1, 0, 1, 0, 0, 0, 9, 9, 9]);
    let (_game, parts, _) = call(game, parts, &[1], &mut answer);
    assert!(rt; kept_in(heap, &parts)? == empty);
    Ok(())
}

// An answer that has no room for every answer serves no call.
#[test]
fn no_room_for_an_answer(rt: HostRuntime) -> Result<(), Fail> {
    let size = Size::new(1).unwrap();
    let mut memory = [7; 1518];
    let mut short = [9; 9];
    let parts = open(1, &mut memory)?;
    let (game, parts, written) = call(Game::new(size), parts, &[0, 0, 0], &mut short);
    assert!(rt; written == None && short == [9; 9]);
    assert!(rt; game.count() == 0 && parts.stones.first() == Some(&0));
    Ok(())
}

// Counts the answers that it hears.
#[derive(Drop)]
struct Count {
    answers: u64,
}

impl Sink for Count {
    ghost heard = { λ count answers. count.answers ≡ min (length answers) (2 ^ 64 - 1) };

    fn hear(&mut self, _answer: &[u8]) {
        self.answers = self.answers.saturating_add(1);
    }
}

// Compares the answers that it hears with `ANSWERS`.
#[derive(Drop)]
struct Script {
    heard: usize,
    surprised: bool,
}

impl Sink for Script {
    ghost heard = { λ _ _. ⊤ };

    fn hear(&mut self, answer: &[u8]) {
        match ANSWERS.get(self.heard) {
            Some(awaited) if *awaited == answer => self.heard += 1,
            _ => self.surprised = true,
        }
    }
}

// A game on 2 by 2 that side 1 wins, with bytes that are no call, and one after the end.
static CALLS: [&[u8]; 8] = [
    &[0, 1, 0],
    &[3],
    &[0, 2],
    &[0, 2, 0],
    &[0, 3, 0],
    &[2],
    &[0, 0, 0],
    &[1],
];

static ANSWERS: [&[u8]; 8] = [
    &[1, 0, 0],
    &[4],
    &[0, 1, 0, 2, 0],
    &[1, 1, 0],
    &[1, 2, 0],
    &[2, 1, 0, 2, 0, 1, 0, 3, 0],
    &[0, 4, 0, 0, 0],
    &[1, 2, 0],
];

#[test]
fn a_whole_game(rt: HostRuntime) -> Result<(), Fail> {
    let mut memory = [7; 1536];
    let mut script = Script {
        heard: 0,
        surprised: false,
    };
    play(2, &mut memory, &CALLS, &mut script)?;
    assert!(rt; script.heard == 8 && !script.surprised);
    let mut count = Count { answers: 0 };
    play(1, &mut memory, &CALLS, &mut count)?;
    assert!(rt; count.answers == 8);
    Ok(())
}

#[test]
fn no_board_and_nothing_heard(rt: HostRuntime) -> Result<(), Fail> {
    let mut memory = [7; 1535];
    for (n, why) in [
        (0, Refusal::BadSize),
        (20, Refusal::BadSize),
        (2, Refusal::SmallMemory),
    ] {
        let mut count = Count { answers: 0 };
        let Err(closed) = play(n, &mut memory, &CALLS, &mut count) else {
            return Err(Fail::new("opened"));
        };
        assert!(rt; closed.why == why && count.answers == 0);
    }
    Ok(())
}
