// Serves a desk line by line: what is read, what is called, and what is told. The programs share
// it.
#![tactic(auto)]

mod input;
mod limits;
mod line;
mod listener;
mod position;
mod printing;
mod serve;
mod table;
mod times;
mod told;

pub use input::Input;
pub use limits::Limits;
pub use line::{LONGEST_LINE, LineBuffer, next_line};
pub use listener::Listener;
pub use position::Position;
pub use printing::{Answers, Positions, Refusals};
pub use serve::{answer_bytes, serve_lines};
pub use table::Table;
pub use times::{Kind, Tally, Times};
pub use told::{Served, Told};
