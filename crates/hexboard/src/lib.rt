// Boards of six-sided cells, in code: the sides, the sizes a board can have, the geometry, stones
// on lent bytes, and numbers of two bytes.
#![tactic(auto)]

mod geometry;
mod side;
mod size;
mod stones;
mod words;

pub use geometry::{Neighbours, borders, directions, neighbour};
pub use side::{NoSide, Side};
pub use size::Size;
pub use stones::{Unplaced, clear, lift, place, stone};
pub use words::{Words, set_word, word};
