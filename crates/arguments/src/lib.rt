// What a program is asked by its arguments, and what --help tells of it.
#![tactic(auto)]

mod flags;
mod help;

pub use flags::{Asked, Flag, read_arguments};
pub use help::Help;
