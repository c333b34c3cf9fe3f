// Shows the board that calls leave, a line each, at the end of the input.
#![tactic(auto)]

use driver::Limits;
use hexboard::Size;
use programs::{Program, show_board};

const HELP: &str =
    "show: reads calls from standard input, a line each, and prints the board that they leave and who has won

A line that is refused is told on standard error, with its number, and the next one is read.

Usage: show [--help]
";

fn main(rt: HostRuntime) -> anyhow::Result<()> {
    let program = Program {
        name: "show",
        help: HELP,
        limits: Limits {
            largest: Size::new(7).unwrap(),
            ends: 10,
        },
        flags: &[],
    };
    show_board(&rt, program)
}
