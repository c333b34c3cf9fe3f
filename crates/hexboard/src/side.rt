// The two sides of a game.
ghost use Rattle.std.specs.Prelude.{◌≡◌, ℕ, ◌++◌, Some, codes, decimal};
ghost use Rattle.hexboard.specs.Board.{other};
ghost use Rattle.hexboard.specs.Sides.{number, side_numbered};

use std::error::Error;
use std::fmt;

/// Side 1 connects the top row and the bottom row and moves first; side 2 connects the left column
/// and the right column.
#[derive(Clone, Copy, PartialEq, Eq, Debug)]
pub enum Side {
    One,
    Two,
}

impl Side {
    /// The side that plays against this one.
    pub fn opponent(self) -> Side
        ensures { number result ≡ other (number self) }
    {
        match self {
            Side::One => Side::Two,
            Side::Two => Side::One,
        }
    }
}

// 1 or 2, as a cell holds it.
impl From<Side> for u8 {
    ghost from_gives = { λ side n. n ≡ number side };

    fn from(side: Side) -> u8 {
        match side {
            Side::One => 1,
            Side::Two => 2,
        }
    }
}

/// A number that no side has.
#[derive(Clone, Copy, PartialEq, Eq, Debug)]
pub struct NoSide(pub u8);

impl TryFrom<u8> for Side {
    type Error = NoSide;

    ghost try_from_gives = { λ n r. r ≡ side_numbered n };

    fn try_from(number: u8) -> Result<Side, NoSide> {
        match number {
            1 => Ok(Side::One),
            2 => Ok(Side::Two),
            _ => Err(NoSide(number)),
        }
    }
}

impl fmt::Display for NoSide {
    ghost output = { λ e. Some (codes "no side has number " ++ decimal e.0) };

    fn fmt<W: fmt::Write>(&self, f: &mut fmt::Formatter<W>) -> fmt::Result {
        write!(f, "no side has number {}", self.0)
    }
}

impl Error for NoSide {}
