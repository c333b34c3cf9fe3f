// A way of a side: a row of its stones from its first border to its last, found by a breadth-first
// search in lent memory.
#![tactic(auto)]

mod frontier;
mod ground;
mod search;

ghost use Rattle.std.specs.Prelude.{ℕ, ◌*◌, ◌≤◌, length};
ghost use Rattle.hexboard.specs.Geometry.{laid};
ghost use Rattle.hexboard.specs.Sides.{number};
ghost use Rattle.paths.specs.Search.{Lent};
ghost use Rattle.paths.specs.Ways.{Answered};

use crate::frontier::Frontier;
use crate::ground::Ground;
use hexboard::{Side, Size, set_word};

/// Finds a shortest way of a side and writes its cells to `out`, two bytes a cell, low byte first:
/// the answer is how many there are. Where the side has not connected there is none, and `out` is
/// left as it was. `queue` and `from` are scratch, two bytes a cell each. The parts come one by
/// one, as they lie in the caller's memory; `Ground` and `Frontier` are made of them here.
pub fn find_way(
    size: Size,
    side: Side,
    cells: &[u8],
    queue: &mut [u8],
    from: &mut [u8],
    out: &mut [u8],
) -> Option<u16>
    requires lent { Lent size.n cells.now queue.old from.old }
    requires room { 2 * (size.n * size.n) ≤ length out.old }
    ensures { Answered (laid size.n cells.now) (number side) out.old out.new result }
{
    let ground = Ground { size, side, cells };
    let mut frontier = Frontier {
        queue,
        from,
        count: 0,
    };
    let mut cell = search::search(&ground, &mut frontier)?;
    let mut count = 1;
    let _ = set_word(out, 0, cell);
    while !ground.is_last(cell) {
        cell = frontier.parent(cell).unwrap();
        let _ = set_word(out, count, cell);
        count += 1;
    }
    Some(count)
}
