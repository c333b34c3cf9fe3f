// The end of a game: its empty cells are numbered, and the links of both sides prepared from the
// groups on the board; the search looks through it; and what it finds is answered: whether the side
// to move can force that it connects, and by which move.
#![tactic(auto)]

mod grouped;
mod links;
mod preparation;
mod search;
mod verdict;
mod winner;

pub use grouped::Grouped;
pub use search::Effort;
pub use verdict::{Verdict, can_force, table_bytes};
