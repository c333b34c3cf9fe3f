// What the programs share: standard input, served line by line as their arguments ask.
#![tactic(auto)]

mod timed;

ghost use Rattle.std.specs.Prelude.{◌≡◌};
ghost use Rattle.std.specs.IoError.{error_kind};

use anyhow::anyhow;
use arguments::{Asked, Flag, Help, read_arguments};
use driver::{Answers, Limits, Listener, Positions, Refusals, Table, serve_lines};
use std::alloc::Global;
use std::io::{BufReader, BufWriter, ErrorKind};
use std::{env, io, mem};
use timed::Timed;

/// A program: its name, what --help tells of it alone, how far it goes, and the flags that it takes
/// besides --help.
#[derive(Clone, Copy)]
pub struct Program {
    pub name: &'static str,
    pub help: &'static str,
    pub limits: Limits,
    pub flags: &'static [Flag],
}

impl Program {
    // What --help tells.
    fn told(self) -> Help
        ensures about { result.about ≡ self.help }
        ensures largest { result.largest ≡ self.limits.largest.n }
        ensures ends { result.ends ≡ self.limits.ends }
    {
        let Limits { largest, ends } = self.limits;
        Help {
            about: self.help,
            largest: largest.width(),
            ends,
        }
    }

    // What the arguments ask for; or none if that is --help.
    fn asked(self, rt: &HostRuntime) -> anyhow::Result<Option<Asked>> {
        let arguments: Vec<String> = env::args(rt)?.skip(1).collect(rt.alloc())?;
        let name = self.name;
        read_arguments(arguments.as_slice(), self.flags).map_err(|argument| {
            anyhow!("no such argument: {argument}; {name} --help tells what there is")
        })
    }
}

/// Answers each line of standard input by a line on standard output, as the arguments ask.
pub fn answer_input(rt: &HostRuntime, program: Program) -> anyhow::Result<()> {
    let Some(Asked { show, times }) = program.asked(rt)? else {
        return Ok(rt.print(&program.told())?);
    };
    let out = BufWriter::new(rt.alloc(), rt.stdout())?;
    if show {
        listen(rt, program.limits, Positions::new(out), times)
    } else {
        listen(rt, program.limits, Answers::new(out), times)
    }
}

// A table with no board on it; or that there is no memory, in words of our own.
fn new_table(heap: Global, limits: Limits) -> anyhow::Result<Table> {
    Table::new(heap, limits).map_err(|_| anyhow!("there is no memory"))
}

// Serves standard input, and tells how long that took, if times are asked for.
fn listen<L: Listener + Drop>(
    rt: &HostRuntime,
    limits: Limits,
    listener: L,
    times: bool,
) -> anyhow::Result<()> {
    let heap = rt.alloc();
    let mut table = new_table(heap, limits)?;
    let mut input = BufReader::new(heap, rt.stdin())?;
    if times {
        let mut timed = Timed::new(rt, listener);
        let served = serve_lines(&mut table, &mut input, &mut timed);
        let times = timed.times();
        close(timed, served).map_err(unbuffered)?;
        Ok(rt.eprint(&times)?)
    } else {
        let mut listener = listener;
        let served = serve_lines(&mut table, &mut input, &mut listener);
        Ok(close(listener, served).map_err(unbuffered)?)
    }
}

// Lets go of a listener. One whose output has failed is kept from trying once more to write what it
// still holds, as a buffer does where it is let go.
fn close<L: Drop>(listener: L, served: io::Result<()>) -> io::Result<()>
    ensures { result ≡ served }
{
    if served.is_err() {
        mem::forget(listener);
    }
    served
}

// An error of serving, as the user is told of it. An output that takes nothing is told of in the
// words of a write without a buffer, since a user knows of none; any other error as it is.
fn unbuffered(error: io::Error) -> io::Error
    ensures kind { error_kind result ≡ error_kind error }
    ensures others { (error_kind error ≡ ErrorKind.WriteZero → ⊥) → result ≡ error }
{
    match error.kind() {
        ErrorKind::WriteZero => {
            io::Error::new(ErrorKind::WriteZero, "failed to write whole buffer")
        }
        _ => error,
    }
}

/// Serves each line of standard input, tells what is refused on standard error, and at the end
/// prints the position on standard output.
pub fn show_board(rt: &HostRuntime, program: Program) -> anyhow::Result<()> {
    if program.asked(rt)?.is_none() {
        return Ok(rt.print(&program.told())?);
    }
    let heap = rt.alloc();
    let mut table = new_table(heap, program.limits)?;
    let mut input = BufReader::new(heap, rt.stdin())?;
    // Through a buffer, so that a line is written whole.
    let mut refusals = Refusals::new(BufWriter::new(heap, rt.stderr())?);
    let served = serve_lines(&mut table, &mut input, &mut refusals);
    close(refusals, served).map_err(unbuffered)?;
    match table.position(0) {
        Some(position) => Ok(rt.print(&position)?),
        None => Ok(eprintln!(rt; "no board was opened")?),
    }
}
