// Answers calls as they come, on boards of every size that a desk has: for a person at a terminal
// or for a file.
#![tactic(auto)]

use arguments::Flag;
use driver::Limits;
use hexboard::Size;
use programs::{Program, answer_input};

const HELP: &str =
    "desk: reads calls from standard input, a line each, and answers each with a line, at once

Usage: desk [--show] [--times] [--help]
  --show     after each board, move and back that is taken: the board, with the cells of the way
             of the side that has won marked A for side 1 and B for side 2, and who has won
  --times    at the end, on standard error: how long serving the lines took, for each kind of line
";

fn main(rt: HostRuntime) -> anyhow::Result<()> {
    let program = Program {
        name: "desk",
        help: HELP,
        limits: Limits {
            largest: Size::new(Size::MAX).unwrap(),
            ends: 16,
        },
        flags: &[Flag::Show, Flag::Times],
    };
    answer_input(&rt, program)
}
