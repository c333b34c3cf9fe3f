// Games in lent memory: moves made and taken back.
#![tactic(auto)]

mod game;
mod laws;
mod moves;

pub use game::Game;
pub use laws::{moves_tell_every_byte, winner_has_connected};
pub use moves::{make_move, start, take_back};
