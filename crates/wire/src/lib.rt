// Calls and answers, refusals among them, as values and as bytes, and the line of an answer.
#![tactic(auto)]

mod answer;
mod call;
mod front;
pub mod laws;
mod refusal;

pub use answer::{Answer, Unwritten, count_cells, read_answer, write_answer, write_way_head};
pub use call::{Call, read_call, write_call};
pub use refusal::{NoRefusal, Refusal};
