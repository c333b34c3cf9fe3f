// What lines are answered by, as values.
ghost use Rattle.std.specs.Prelude.{ℕ, ◌↔◌, List, IsTrue, Some};
ghost use Rattle.driver.specs.Served.{reply_line};
ghost use Rattle.driver.specs.Leading.{IsRefusal, LeadsOn};
ghost use Rattle.driver.specs.Tables.{reply_in, reply_of};

use std::fmt;
use text::Line;
use wire::{Answer, Call};

/// What a line is answered by. `W` is how the cells of a way are held: as their number, or as
/// bytes, two a cell, low byte first.
#[derive(Clone, Copy, PartialEq, Eq, Debug)]
pub enum Told<W> {
    /// A board of this size is open, with no stone on it.
    Opened(u16),
    Answer(Answer<W>),
}

/// The line that tells it, without its end.
impl fmt::Display for Told<&[u8]> {
    ghost output = { λ told. Some (reply_line (reply_of told)) };

    fn fmt<W: fmt::Write>(&self, f: &mut fmt::Formatter<W>) -> fmt::Result {
        match *self {
            Told::Opened(n) => write!(f, "{}", Line::Board(n)),
            Told::Answer(answer) => write!(f, "{answer}"),
        }
    }
}

/// What became of a line: what it asks for, or the place at which it is refused; and what it is
/// answered by.
#[derive(Clone, Copy, PartialEq, Eq, Debug)]
pub struct Served<W> {
    pub asked: Result<Line, u16>,
    pub told: Told<W>,
}

impl Served<u16> {
    /// Whether the line was refused, and so changed nothing.
    pub fn is_refused(self) -> bool
        ensures { (way : List ℕ) → (IsTrue result ↔ IsRefusal (reply_in way self.told)) }
    {
        matches!(self.told, Told::Answer(Answer::Refused(_)))
    }

    /// Whether the line opened a board or changed the one there was.
    pub fn leads_on(self) -> bool
        ensures { (way : List ℕ) → (IsTrue result ↔ LeadsOn self.asked (reply_in way self.told)) }
    {
        match self.asked {
            Ok(Line::Board(_) | Line::Call(Call::Move(_) | Call::Back)) => !self.is_refused(),
            Ok(Line::Call(Call::Who | Call::CanForce)) | Err(_) => false,
        }
    }
}
