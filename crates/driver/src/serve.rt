// Serves whole inputs.
ghost use Rattle.std.specs.Prelude.{◌≡◌, IfOk, MatchResult};
ghost use Rattle.driver.specs.Exchanged.{ServedAll, CutOff};
ghost use Rattle.driver.specs.Printed.{AnswersAll};
ghost use Rattle.driver.specs.Tables.{game_on, limits_of};

use crate::input::Input;
use crate::limits::Limits;
use crate::line::{LineBuffer, next_line};
use crate::listener::Listener;
use crate::printing::Answers;
use crate::table::Table;
use std::alloc::Global;
use std::io;
use std::io::ErrorKind;

/// Serves each line of an input up to its end, and gives what became of it to the listener before
/// the next one is read. It fails where the input or the listener does. Nothing is allocated.
pub fn serve_lines<R: Input, L: Listener>(
    table: &mut Table,
    input: &mut R,
    listener: &mut L,
) -> io::Result<()>
    ensures served { MatchResult result
        (λ _. ServedAll (limits_of table.old) (R.remaining input.old)
        (game_on table.old) (game_on table.new) (L.heard listener.old) (L.heard listener.new))
        (λ _. CutOff L.heard L.fails (limits_of table.old) R.can_break (R.remaining input.old)
        (game_on table.old) listener.old (game_on table.new) listener.new) }
    ensures limits { limits_of table.new ≡ limits_of table.old }
{
    let mut line = LineBuffer::new();
    for _ in 0..u64::MAX {
        if !next_line(input, &mut line)? {
            return Ok(());
        }
        listener.begin();
        let served = table.serve(&line);
        listener.hear(served, table)?;
    }
    Err(io::Error::from(ErrorKind::FileTooLarge))
}

/// Answers each line of these bytes, as a program does that draws no positions: what it writes.
pub fn answer_bytes(heap: Global, limits: Limits, input: &[u8]) -> io::Result<Vec<u8>>
    ensures { IfOk result (λ out. AnswersAll limits input.now out.items) }
{
    let mut table = Table::new(heap, limits)?;
    let mut answers = Answers::new(Vec::new(heap));
    let mut left = input;
    serve_lines(&mut table, &mut left, &mut answers)?;
    Ok(answers.into_inner())
}
