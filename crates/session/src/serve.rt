// A call on a game in lent memory: each is answered right by the rules for the games before and
// after it.
ghost use Rattle.std.specs.Prelude.{◌≡◌, ℕ, ◌*◌, ◌≤◌, List, length, take, drop, ◌≢◌};
ghost use Rattle.hexboard.specs.Board.{Board};
ghost use Rattle.hexboard.specs.Games as games;
ghost use Rattle.hexboard.specs.Words.{words};
ghost use Rattle.history.specs.Holds.{lent, formal, Holds};
ghost use Rattle.wire.specs.declared.answer.Answer.TheVariants.{Refused};
ghost use Rattle.endgame.specs.Verdicts.{bytes_of_table};
ghost use Rattle.session.specs.Replies.{replied, way_cells, HasBytes};
ghost use Rattle.session.specs.Serving.{Room, beside, Told, Answered};
ghost use Rattle.session.specs.Short.{Short};
ghost use Rattle.session.specs.Told.{told_who, found_cells};

use crate::reply::Reply;
use endgame::{Grouped, Verdict};
use hexboard::Side;
use history::Game;
use wire::{Call, Refusal};

/// Serves a call. `scratch` holds anything, before and after; a way is written to the front of
/// `way`. The parts of the memory come one by one, as they go into `history`.
pub fn serve(
    game: Game,
    call: Call,
    stones: &mut [u8],
    log: &mut [u8],
    parents: &mut [u8],
    borders: &mut [u8],
    scratch: &mut [u8],
    way: &mut [u8],
) -> (Game, Reply)
    requires holds { Holds game (lent stones.old log.old parents.old borders.old) }
    // Asked here, by `who` and by `call`, and kept by no type: the parts are slices, lent one by
    // one (docs/DECISIONS.md, Memory).
    requires room { Room game.size.n (length scratch.old) (length way.old) }
    ensures { Answered game (lent stones.old log.old parents.old borders.old)
        (beside scratch.old way.old) call result.0 (lent stones.new log.new parents.new borders.new)
        (beside scratch.new way.new) result.1 }
{
    match call {
        Call::Move(cell) => {
            let number = game.count();
            match history::make_move(game, cell, stones, log, parents, borders) {
                Ok(next) => (next, Reply::Number(number)),
                Err(why) => (game, Reply::Refused(why)),
            }
        }
        Call::Back => match history::take_back(game, stones, log, parents, borders) {
            Ok(next) => (next, Reply::Number(next.count())),
            Err(why) => (game, Reply::Refused(why)),
        },
        Call::Who => match who(game, stones, scratch, way) {
            Some((side, cells)) => (game, Reply::Way(side, cells)),
            None => (game, Reply::Number(0)),
        },
        Call::CanForce => (game, can_force(game, stones, parents, borders, scratch)),
    }
}

/// Who has connected, and how: the side, and how many cells the way has that is written to the
/// front of `way`.
pub fn who(game: Game, stones: &[u8], scratch: &mut [u8], way: &mut [u8]) -> Option<(Side, u16)>
    requires room { Room game.size.n (length scratch.old) (length way.old) }
    requires long { length stones.now ≡ game.size.n * game.size.n }
    ensures right { (log parents borders : List ℕ) →
        Holds game (lent stones.now log parents borders) →
        Told game (lent stones.now log parents borders) games.who (told_who result way.new) }
    ensures short { (log parents borders : List ℕ) →
        Holds game (lent stones.now log parents borders) →
        Short (formal game (lent stones.now log parents borders)).board (told_who result way.new) }
    ensures counted { found_cells result ≡ length (words (take (2 * found_cells result) way.new)) }
    ensures fits { found_cells result ≤ game.size.n * game.size.n }
    ensures behind { drop (2 * found_cells result) way.new ≡ drop (2 * found_cells result) way.old }
{
    let side = game.winner()?;
    let size = game.size();
    let part = 2 * usize::from(size.cells());
    let (queue, rest) = scratch.split_at_mut(part);
    let from = &mut rest[0..part];
    let count = paths::find_way(size, side, stones, queue, from, way)?;
    Some((side, count))
}

// Whether the side to move can bring it about that it connects, and by which move.
fn can_force(game: Game, stones: &[u8], parents: &[u8], borders: &[u8], scratch: &mut [u8]) -> Reply
    requires holds { (log : List ℕ) × Holds game (lent stones.now log parents.now borders.now) }
    requires room { bytes_of_table game.size.n ≤ length scratch.old }
    ensures right { (log way : List ℕ) → Holds game (lent stones.now log parents.now borders.now) →
        Told game (lent stones.now log parents.now borders.now) games.can_force
        (replied result way) }
    ensures no_way { (b : Board) (way : List ℕ) → Short b (replied result way) }
    ensures bare { way_cells result ≡ 0 }
    ensures has_bytes { HasBytes result }
    ensures served { (why : Refusal) → result ≢ Refused why }
{
    let turn = game.turn();
    if let Some(side) = game.winner() {
        return if side == turn {
            Reply::Yes(None)
        } else {
            Reply::No
        };
    }
    let position = Grouped {
        size: game.size(),
        stones,
        parents,
        borders,
    };
    let (verdict, _) = endgame::can_force(&position, turn, scratch);
    match verdict {
        Verdict::Yes(cell) => Reply::Yes(Some(cell)),
        Verdict::No => Reply::No,
        Verdict::TooMany => Reply::TooMany,
    }
}
