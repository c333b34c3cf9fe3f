// Moves made and taken back. The lent memory is a function of the list of moves, byte for byte.
ghost use Rattle.std.specs.Prelude.{◌≡◌, ◌*◌, ◌%◌, ◌==◌, if◌then◌else◌};
ghost use Rattle.hexboard.specs.Games as games;
ghost use Rattle.hexboard.specs.Sides.{number};
ghost use Rattle.history.specs.Holds.{won_by, Long, lent, formal, Holds, Settled};

use crate::game::Game;
use groups::Groups;
use hexboard::{Side, Size};
use wire::Refusal;

/// Puts a stone of the side to move on a cell, unless there is no such cell, the game is over, or
/// the cell is not empty.
pub fn make_move(
    game: Game,
    cell: u16,
    stones: &mut [u8],
    log: &mut [u8],
    parents: &mut [u8],
    borders: &mut [u8],
) -> Result<Game, Refusal>
    requires { Holds game (lent stones.old log.old parents.old borders.old) }
    ensures { Settled game (lent stones.old log.old parents.old borders.old) (games.moves cell)
        (λ _. game.count) (lent stones.new log.new parents.new borders.new) result }
{
    let Some(&standing) = stones.get(usize::from(cell)) else {
        return Err(Refusal::NoCell);
    };
    let None = game.winner else {
        return Err(Refusal::Over);
    };
    let 0 = standing else {
        return Err(Refusal::Taken);
    };
    let side = game.turn();
    Groups { parents, borders }.place(game.size, stones, side, cell);
    stones[usize::from(cell)] = u8::from(side);
    let _ = hexboard::set_word(log, game.count, cell);
    Ok(Game {
        size: game.size,
        count: game.count + 1,
        winner: groups::touches_both(borders, cell).then_some(side),
    })
}

/// Takes the last move back, unless there is none.
pub fn take_back(
    game: Game,
    stones: &mut [u8],
    log: &mut [u8],
    parents: &mut [u8],
    borders: &mut [u8],
) -> Result<Game, Refusal>
    requires { Holds game (lent stones.old log.old parents.old borders.old) }
    ensures { Settled game (lent stones.old log.old parents.old borders.old) games.back
        (λ h. h.count) (lent stones.new log.new parents.new borders.new) result }
{
    let Some(last) = game.count.checked_sub(1) else {
        return Err(Refusal::NoMove);
    };
    let cell = hexboard::word(log, last).unwrap();
    Groups { parents, borders }.lift(game.size, cell);
    let _ = hexboard::lift(stones, cell);
    let _ = hexboard::set_word(log, last, 0);
    Ok(Game {
        size: game.size,
        count: last,
        winner: None,
    })
}

/// A new game in memory that holds anything. The parts have a byte for each cell, and two where
/// they hold numbers.
pub fn start(
    size: Size,
    stones: &mut [u8],
    log: &mut [u8],
    parents: &mut [u8],
    borders: &mut [u8],
) -> Game
    requires { Long (size.n * size.n) (lent stones.old log.old parents.old borders.old) }
    ensures holds { Holds result (lent stones.new log.new parents.new borders.new) }
    ensures new { formal result
        (lent stones.new log.new parents.new borders.new) ≡ games.new_game size.n }
    ensures size { result.size ≡ size }
    ensures fresh { (result.count ≡ 0) × (won_by result.winner ≡ 0) }
{
    hexboard::clear(stones);
    log.fill(0);
    Groups { parents, borders }.clear(size);
    Game::new(size)
}

impl Game {
    /// A game without moves. Memory that was made ready for the size holds it.
    pub fn new(size: Size) -> Game
        ensures size { result.size ≡ size }
        ensures count { result.count ≡ 0 }
        ensures nobody { won_by result.winner ≡ 0 }
    {
        Game {
            size,
            count: 0,
            winner: None,
        }
    }

    /// How large the board is.
    pub fn size(self) -> Size
        ensures { result ≡ self.size }
    {
        self.size
    }

    /// How many moves were made.
    pub fn count(self) -> u16
        ensures { result ≡ self.count }
    {
        self.count
    }

    /// Who has won.
    pub fn winner(self) -> Option<Side>
        ensures { result ≡ self.winner }
    {
        self.winner
    }

    /// The side that moves next: side 1 after an even number of moves.
    pub fn turn(self) -> Side
        ensures { number result ≡ (if self.count % 2 == 0 then 1 else 2) }
    {
        if self.count % 2 == 0 {
            Side::One
        } else {
            Side::Two
        }
    }
}
