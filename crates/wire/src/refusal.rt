// Why a call, or opening, is refused.
ghost use Rattle.std.specs.Prelude.{◌≡◌, ℕ, Some};
ghost use Rattle.wire.specs.Numbers.{reason, ByReason};
ghost use Rattle.wire.specs.Answers.{refused_line, unknown_line};

use std::error::Error;
use std::fmt;

/// The reasons, in the order in which they are checked.
#[derive(Clone, Copy, PartialEq, Eq, Debug)]
pub enum Refusal {
    // The call cannot be read; at this byte, the first that does not fit.
    Unreadable(u16),
    // The cell is not there.
    NoCell,
    // At opening: the size is out of range.
    BadSize,
    // At opening: the memory is smaller than is asked for.
    SmallMemory,
    // A move when the game is over.
    Over,
    // The cell is not empty.
    Taken,
    // There is no move to take back.
    NoMove,
}

// The number of the reason, and the place beside it: of the first byte that does not fit, or which
// of two reasons with one number.
impl From<Refusal> for (u16, u16) {
    ghost from_gives = { λ why pair. (pair.0 ≡ (reason why).number)
        × (pair.1 ≡ (reason why).place) };

    fn from(why: Refusal) -> (u16, u16) {
        match why {
            Refusal::Unreadable(byte) => (1, byte),
            Refusal::NoCell => (2, 0),
            Refusal::BadSize => (3, 0),
            Refusal::SmallMemory => (3, 1),
            Refusal::Over => (4, 0),
            Refusal::Taken => (5, 0),
            Refusal::NoMove => (6, 0),
        }
    }
}

/// A number and a place that no refusal has.
#[derive(Clone, Copy, PartialEq, Eq, Debug)]
pub struct NoRefusal {
    pub number: u16,
    pub place: u16,
}

// The refusal of a number and a place.
impl TryFrom<(u16, u16)> for Refusal {
    type Error = NoRefusal;

    ghost try_from_gives = { ByReason };

    fn try_from((number, place): (u16, u16)) -> Result<Refusal, NoRefusal> {
        match (number, place) {
            (1, byte) => Ok(Refusal::Unreadable(byte)),
            (2, 0) => Ok(Refusal::NoCell),
            (3, 0) => Ok(Refusal::BadSize),
            (3, 1) => Ok(Refusal::SmallMemory),
            (4, 0) => Ok(Refusal::Over),
            (5, 0) => Ok(Refusal::Taken),
            (6, 0) => Ok(Refusal::NoMove),
            _ => Err(NoRefusal { number, place }),
        }
    }
}

impl fmt::Display for NoRefusal {
    ghost output = { λ e. Some (unknown_line e.number e.place) };

    fn fmt<W: fmt::Write>(&self, f: &mut fmt::Formatter<W>) -> fmt::Result {
        write!(
            f,
            "no refusal has number {} and place {}",
            self.number, self.place
        )
    }
}

impl Error for NoRefusal {}

// The line that an answer of a refusal is, without its end.
impl fmt::Display for Refusal {
    ghost output = { λ why. Some (refused_line (reason why).number (reason why).place) };

    fn fmt<W: fmt::Write>(&self, f: &mut fmt::Formatter<W>) -> fmt::Result {
        let (number, place) = (*self).into();
        write!(f, "refused {number} at {place}")
    }
}

impl Error for Refusal {}
