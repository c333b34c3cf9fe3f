// Lines that ask, read and written, a board as text, and the line that says who has won.
#![tactic(auto)]

mod drawing;
mod laws;
mod reading;

pub use drawing::{Drawing, Outcome};
pub use laws::{lines_are_read_back, lines_ask_one_thing, rows_are_laid_out};
pub use reading::{Line, read_line};
