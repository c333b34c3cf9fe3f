// What a search knows in lent memory, two bytes a cell: which cells it has reached, in which order,
// and from where.
ghost use Rattle.std.specs.Prelude.{◌≡◌, ℕ, ◌+◌, ◌^◌, ◌<◌, ◌≤◌, ◌↔◌, length, IsSome, IfSome};
ghost use Rattle.std.specs.Prelude.{MatchOption, slice_index, slice_set};
ghost use Rattle.hexboard.specs.Words.{words};
ghost use Rattle.paths.specs.Search.{Reached, parent};

use hexboard::{set_word, word};

/// The queue has the cells reached, `count` of them, in their order. Lent bytes hold no `Option`:
/// for each cell `from` has one more than the cell from which it was reached, and 0 if it was not;
/// a source, from which the search starts, is listed as reached from itself. The search asks
/// for room for each cell of the board.
#[derive(Drop)]
pub struct Frontier<'a> {
    pub queue: &'a mut [u8],
    pub from: &'a mut [u8],
    pub count: u16,
}

impl Frontier<'_> {
    ghost use Rattle.paths.specs.Grounds.{HasRoom};

    /// The cell at a place of the queue, where there is one.
    pub fn listed(&self, place: u16) -> Option<u16>
        requires { self.now.count ≤ length (words self.now.queue.now) }
        ensures { MatchOption result (self.now.count ≤ place)
            (λ cell. (place < self.now.count) × (cell ≡ slice_index
            (words self.now.queue.now) place)) }
    {
        if place < self.count {
            word(self.queue, place)
        } else {
            None
        }
    }

    /// The cell from which a cell was reached, if it was: a source from itself.
    pub fn parent(&self, cell: u16) -> Option<u16>
        ensures reached { IsSome result ↔ Reached (words self.now.from.now) cell }
        ensures parent { IfSome result (λ before. before ≡ parent (words self.now.from.now) cell) }
    {
        word(self.from, cell)?.checked_sub(1)
    }

    /// Lists a cell as reached from another, or a source as reached from itself.
    pub fn enlist(&mut self, cell: u16, parent: u16)
        requires fits { parent + 1 < 2 ^ 16 }
        requires few { self.old.count + 1 < 2 ^ 16 }
        ensures listed { words self.new.queue.now ≡ slice_set
            (words self.old.queue.now) self.old.count cell }
        ensures reached { words self.new.from.now ≡ slice_set (words self.old.from.now) cell
            (parent + 1) }
        ensures count { self.new.count ≡ self.old.count + 1 }
        ensures room { (n : ℕ) → HasRoom self.old n → HasRoom self.new n }
    {
        let _ = set_word(self.queue, self.count, cell);
        let _ = set_word(self.from, cell, parent + 1);
        self.count += 1;
    }
}
