// Positions of an end of a game as sets of bits, each with a place of its own, and a table of two
// bits for each place.
#![tactic(auto)]

ghost use Rattle.ranking.specs.Positions.{EachBelow, NoneShared, TellsFree};

mod positions;
mod sets;
mod table;

pub use positions::Ranking;
pub use sets::{Cells, lowest, one};
pub use table::{clear, get, put};

/// Each position's place lies below `total`, no two positions share one, and it tells how many
/// cells are free. A law of the definitions alone: there is nothing to run.
pub fn positions_have_places()
    ensures below { EachBelow }
    ensures once { NoneShared }
    ensures free { TellsFree }
{}
