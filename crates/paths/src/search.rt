// The search for a way, from the last border of a side back to its first.
ghost use Rattle.std.specs.Prelude.{◌≡◌, ◌&&◌, ◌==◌, slice_index, MatchOption};
ghost use Rattle.hexboard.specs.Board.{Connects};
ghost use Rattle.hexboard.specs.Geometry.{laid};
ghost use Rattle.hexboard.specs.Sides.{number};
ghost use Rattle.hexboard.specs.Words.{words};
ghost use Rattle.paths.specs.Grounds.{ground_of, HasRoom};
ghost use Rattle.paths.specs.Search.{Met, Sowing};

use crate::frontier::Frontier;
use crate::ground::Ground;
use hexboard::Neighbours;

// Whether a cell is to be listed: a stone of the side stands there, and it is not reached yet.
fn is_fresh(ground: &Ground, frontier: &Frontier, cell: u16) -> bool
    ensures { result ≡ ((ground_of ground.now).own cell
        && slice_index (words frontier.now.from.now) cell == 0) }
{
    ground.is_own(cell) && frontier.parent(cell).is_none()
}

// Lists the side's stones at its last border, and forgets what was listed. Stops at a stone that is
// at its first border as well.
fn sow(ground: &Ground, frontier: &mut Frontier) -> Option<u16>
    requires { HasRoom frontier.old ground.now.size.n }
    ensures sown { Sowing (ground_of ground.now) (words frontier.new.queue.now)
        (words frontier.new.from.now) frontier.new.count result }
    ensures room { HasRoom frontier.new ground.now.size.n }
{
    frontier.from.fill(0);
    frontier.count = 0;
    for cell in 0..ground.size.cells() {
        if !ground.is_source(cell) {
            continue;
        }
        frontier.enlist(cell, cell);
        if ground.is_first(cell) {
            return Some(cell);
        }
    }
    None
}

/// A stone of the side at its first border, from which `from` leads to the last by a shortest way.
/// None if the side has not connected.
pub fn search(ground: &Ground, frontier: &mut Frontier) -> Option<u16>
    requires { HasRoom frontier.old ground.now.size.n }
    ensures met { MatchOption result (Connects (laid ground.now.size.n ground.now.cells.now)
        (number ground.now.side) →
        ⊥) (Met (ground_of ground.now) (words frontier.new.queue.now)
        (words frontier.new.from.now)) }
    ensures room { HasRoom frontier.new ground.now.size.n }
{
    if let Some(cell) = sow(ground, frontier) {
        return Some(cell);
    }
    let mut found = None;
    // The queue grows while it is read, so it is read by place: an iterator would hold it lent.
    let mut head = 0;
    'search: while let Some(cell) = frontier.listed(head) {
        for next in Neighbours::of(ground.size, cell) {
            if !is_fresh(ground, frontier, next) {
                continue;
            }
            frontier.enlist(next, cell);
            if ground.is_first(next) {
                found = Some(next);
                break 'search;
            }
        }
        head += 1;
    }
    found
}
