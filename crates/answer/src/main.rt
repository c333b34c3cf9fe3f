// Answers calls, a line each, as they come: for a person at a terminal or for a file.
#![tactic(auto)]

use driver::Limits;
use hexboard::Size;
use programs::{Program, answer_input};

const HELP: &str =
    "answer: reads calls from standard input, a line each, and answers each with a line, at once

Usage: answer [--help]
";

fn main(rt: HostRuntime) -> anyhow::Result<()> {
    let program = Program {
        name: "answer",
        help: HELP,
        limits: Limits {
            largest: Size::new(7).unwrap(),
            ends: 10,
        },
        flags: &[],
    };
    answer_input(&rt, program)
}
