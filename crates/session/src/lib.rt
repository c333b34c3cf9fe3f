// The desk: games in lent memory or in memory of their own, and what they answer to calls.
#![tactic(auto)]

mod bytes;
mod desk;
mod lent;
mod reply;
mod serve;
mod unopened;

pub use desk::Desk;
pub use lent::{Closed, Parts, Sink, call, memory_for, open, play};
pub use reply::{Reply, with_way};
pub use unopened::Unopened;
