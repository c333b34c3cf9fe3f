// A game in memory that its caller lends: opening cuts the memory into parts once, and every call
// works on the parts.
ghost use Rattle.std.specs.Prelude.{◌≡◌, ℕ, ◌+◌, ◌*◌, ◌<◌, ◌≤◌, List, [], ◌∷◌, ◌++◌, length};
ghost use Rattle.std.specs.Prelude.{MatchResult};
ghost use Rattle.hexboard.specs.Games as games;
ghost use Rattle.history.specs.Holds.{formal, Holds};
ghost use Rattle.session.specs.Serving.{Room};
ghost use Rattle.session.specs.Calling.{Called};
ghost use Rattle.session.specs.Lending.{memory_in, New, NotOpened};
ghost use Rattle.session.specs.Runs.{Hears, Plays, PlaysSuffice, rows_of};
ghost use Rattle.session.specs.Sizes.{asked, within};

use crate::bytes::show;
use crate::reply::Reply;
use crate::serve::serve;
use hexboard::Size;
use history::Game;
use thiserror::Error;
use wire::Refusal;

/// The parts of the lent memory, one behind the other: a byte for each stone; two for each move;
/// two for each cell's parent in its group, and one for the borders of its group; and scratch for
/// the searches.
#[derive(Drop)]
pub struct Parts<'a> {
    pub stones: &'a mut [u8],
    pub log: &'a mut [u8],
    pub parents: &'a mut [u8],
    pub borders: &'a mut [u8],
    pub scratch: &'a mut [u8],
}

/// Why a game was not opened, and the memory, which is as it was.
#[derive(Debug, Drop, Error)]
#[error("{why}")]
pub struct Closed<'a> {
    pub why: Refusal,
    pub memory: &'a mut [u8],
}

/// How many bytes a game on a board of this size asks for.
pub fn memory_for(size: Size) -> usize
    ensures value { result ≡ asked size.n }
    ensures bound { result ≤ within size.n }
{
    6 * usize::from(size.cells()) + endgame::table_bytes(size)
}

/// A new game on a board n wide and n tall, n from 1 to 19, in memory that holds anything. The
/// parts hold it, and `Game::new` gives it by value.
pub fn open(n: u16, memory: &mut [u8]) -> Result<Parts<'_>, Closed<'_>>
    ensures { MatchResult result
        (λ p. New n (memory_in p) (length p.scratch.now))
        (λ e. (e.memory.now ≡ memory.old) × NotOpened n (length memory.old) e.why) }
{
    let Some(size) = Size::new(n) else {
        return Err(Closed {
            why: Refusal::BadSize,
            memory,
        });
    };
    let Some(_) = memory.len().checked_sub(memory_for(size)) else {
        return Err(Closed {
            why: Refusal::SmallMemory,
            memory,
        });
    };
    let cells = usize::from(size.cells());
    let (stones, rest) = memory.split_at_mut(cells);
    let (log, rest) = rest.split_at_mut(2 * cells);
    let (parents, rest) = rest.split_at_mut(2 * cells);
    let (borders, scratch) = rest.split_at_mut(cells);
    let _ = history::start(size, stones, log, parents, borders);
    Ok(Parts {
        stones,
        log,
        parents,
        borders,
        scratch,
    })
}

/// Takes a call by the rules or turns it away, and writes the answer's bytes to the front of
/// `answer`: how many they are. None if `answer` has no room for every answer, two bytes for each
/// cell of the board and 8 more; then nothing changes.
/// The parts come and go by value.
pub fn call<'a>(
    game: Game,
    parts: Parts<'a>,
    bytes: &[u8],
    answer: &mut [u8],
) -> (Game, Parts<'a>, Option<usize>)
    requires holds { Holds game (memory_in parts) }
    requires room { Room game.size.n (length parts.scratch.now) (2 * (game.size.n * game.size.n)) }
    ensures called { Called game
        (memory_in parts.entry) parts.entry.scratch.now bytes.now answer.old result.0
        (memory_in result.1) result.1.scratch.now answer.new result.2 }
    ensures holds { Holds result.0 (memory_in result.1) }
    ensures room { Room result.0.size.n (length result.1.scratch.now)
        (2 * (result.0.size.n * result.0.size.n)) }
{
    let cells = usize::from(game.size().cells());
    // No refusal: there is no room to write one.
    if answer.len() < 2 * cells + 8 {
        return (game, parts, None);
    }
    let call = match wire::read_call(bytes) {
        Ok(call) => call,
        Err(why) => {
            let size = show(Reply::Refused(why), answer);
            return (game, parts, Some(size));
        }
    };
    let Parts {
        stones,
        log,
        parents,
        borders,
        scratch,
    } = parts;
    let (next, reply) = serve(
        game,
        call,
        stones,
        log,
        parents,
        borders,
        scratch,
        &mut answer[5..],
    );
    let parts = Parts {
        stones,
        log,
        parents,
        borders,
        scratch,
    };
    (next, parts, Some(show(reply, answer)))
}

/// Where the bytes of answers go.
pub trait Sink {
    // it was given these answers, each a row of bytes, the oldest first. A relation, since a sink
    // need not keep all that it is given: one that counts agrees with every list of so many answers
    ghost heard: { Self → List (List ℕ) → Type 0 };

    /// Takes the bytes of one more answer.
    fn hear(&mut self, answer: &[u8])
        ensures { (answers : List (List ℕ)) → heard self.old answers →
            heard self.new (answers ++ answer.now ∷ []) };
}

// Serves the calls in their order, and gives the bytes of each answer to the sink.
fn serve_all<S: Sink>(mut game: Game, mut parts: Parts<'_>, calls: &[&[u8]], sink: &mut S)
    requires holds { Holds game (memory_in parts) }
    requires room { Room game.size.n (length parts.scratch.now) (2 * (game.size.n * game.size.n)) }
    ensures { (last : games.Game)
        × Hears (formal game (memory_in parts.entry)) (rows_of calls.now) last
        (S.Sink.heard sink.old) (S.Sink.heard sink.new) }
{
    // Room for every answer on the largest board: two bytes for each of its cells and 8 more.
    let mut answer = [0; 730];
    for bytes in calls {
        let (next, left, written) = call(game, parts, bytes, &mut answer);
        game = next;
        parts = left;
        sink.hear(&answer[..written.unwrap()]);
    }
}

/// A whole game: a new board n wide and n tall, in memory that holds anything, and calls in bytes.
/// Each is answered, and the sink hears the answers' bytes. If no board is opened it hears nothing.
pub fn play<'a, S: Sink>(
    n: u16,
    memory: &'a mut [u8],
    calls: &[&[u8]],
    sink: &mut S,
) -> Result<(), Closed<'a>>
    ensures plays { MatchResult result
        (λ _. Plays n (rows_of calls.now) (S.Sink.heard sink.old) (S.Sink.heard sink.new))
        (λ e. (e.memory.now ≡ memory.old) × NotOpened n (length memory.old) e.why
        × (sink.new ≡ sink.old)) }
    ensures promise { PlaysSuffice }
{
    let parts = open(n, memory)?;
    let size = Size::new(n).unwrap();
    serve_all(Game::new(size), parts, calls, sink);
    Ok(())
}
