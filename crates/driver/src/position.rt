// A position, as it is drawn.
ghost use Rattle.std.specs.Prelude.{Some};
ghost use Rattle.driver.specs.Drawn.{position_lines};

use std::fmt;
use text::{Drawing, Outcome};

/// A board, and who has won, to be written as lines, each with its end.
#[derive(Clone, Copy)]
pub struct Position<'a> {
    pub(crate) board: Drawing<'a>,
    pub(crate) outcome: Outcome,
}

impl fmt::Display for Position<'_> {
    ghost output = { λ position. Some (position_lines position) };

    fn fmt<W: fmt::Write>(&self, f: &mut fmt::Formatter<W>) -> fmt::Result {
        let Position { board, outcome } = *self;
        writeln!(f, "{board}{outcome}")
    }
}
