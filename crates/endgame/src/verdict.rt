// Whether a side to move can force that it connects, and by which move, in a position with few
// empty cells.
ghost use Rattle.std.specs.Prelude.{◌≡◌, ◌<◌, ◌≤◌, length};
ghost use Rattle.hexboard.specs.Board.{empties};
ghost use Rattle.hexboard.specs.Sides.{number};
ghost use Rattle.endgame.specs.Verdicts.{bytes_of_table, IsSameBehind, Judges};
ghost use Rattle.endgame.specs.Efforts.{nothing_done};
ghost use Rattle.endgame.specs.Searches.{IsOnce};

use crate::grouped::Grouped;
use crate::search::{Effort, Found, Search};
use hexboard::{Side, Size};

/// Yes, by a move to this cell; no; or that too many cells are empty to look through the end.
#[derive(Clone, Copy, PartialEq, Eq, Debug)]
pub enum Verdict {
    Yes(u16),
    No,
    TooMany,
}

/// How many bytes of table are enough on a board of this size.
pub fn table_bytes(size: Size) -> usize
    ensures { result ≡ bytes_of_table size.n }
{
    if size.width() < 4 { 1512 } else { 2541445 }
}

/// Whether a side to move can force that it connects, in a position where nobody has connected; and
/// what was done to find out. More than 16 empty cells are too many: then nothing is done. The
/// table may hold anything before; afterwards it has the winners of the positions that were
/// searched, and behind the bytes that positions of this end take it is as it was.
pub fn can_force(position: &Grouped, side: Side, table: &mut [u8]) -> (Verdict, Effort)
    requires { bytes_of_table position.now.size.n ≤ length table.old }
    ensures right { Judges position.now.size.n (number side)
        position.now.stones.now position.now.parents.now position.now.borders.now result.0 }
    ensures many { 16 < empties position.now.stones.now →
        (result ≡ (Verdict.TooMany, nothing_done)) × (table.new ≡ table.old) }
    ensures behind { IsSameBehind (empties position.now.stones.now) table.old table.new }
    ensures once { empties position.now.stones.now ≤ 16 →
        IsOnce (empties position.now.stones.now) result.1 table.new }
{
    let Some(cells) = position.number() else {
        return (Verdict::TooMany, Effort::none());
    };
    let mine = position.prepare(side, &cells);
    let theirs = position.prepare(side.opponent(), &cells);
    let mut search = Search::new(cells.len() as u32);
    // No more of the table is cleared than the positions take, four to a byte.
    let bytes = search.ranking.places().div_ceil(4);
    match search.look_through(&mut table[..bytes], &mine, &theirs) {
        Found::Won {
            step: Some(cell),
            ..
        } => (Verdict::Yes(cells[cell as usize]), search.effort),
        // No win is known without its step, since the table said nothing before.
        Found::Won { step: None, .. } => unreachable!(),
        Found::Lost { .. } => (Verdict::No, search.effort),
    }
}
