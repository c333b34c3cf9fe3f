// Sets of cells as the bits of numbers.
ghost use Rattle.std.specs.Prelude.{◌≡◌, ℕ, ◌^◌, ◌<◌};
ghost use Rattle.std.specs.Iterator.{YieldsFirst, item_count};
ghost use Rattle.ranking.specs.Sets.{bit, members};

use std::marker::Model;

/// The lowest cell of a set that is not empty.
pub fn lowest(set: u64) -> u32
    requires { 0 < set }
    ensures within { bit result set ≡ 1 }
    ensures first { (k : ℕ) → k < result → bit k set ≡ 0 }
    ensures small { result < 64 }
{
    set.trailing_zeros()
}

/// The set of one cell.
pub fn one(cell: u32) -> u64
    requires { cell < 64 }
    ensures { result ≡ 2 ^ cell }
{
    1 << cell
}

/// What is left of a set whose cells are taken out one after the other, the lowest first: seen as
/// the list of those cells.
#[derive(Drop)]
pub struct Cells {
    rest: u64,
}

impl Model for Cells {
    ghost use Rattle.std.specs.Prelude.{ℕ, List};
    ghost use Rattle.ranking.specs.Sets.{members};

    ghost Value = { List ℕ };

    ghost view = { λ cells. members cells.rest };
}

impl Cells {
    /// The cells of a set.
    pub fn of(set: u64) -> Cells
        ensures { result ≡ members set }
    {
        Cells { rest: set }
    }
}

impl Iterator for Cells {
    type Item = u32;

    ghost next_gives = { YieldsFirst (λ rest. rest) };

    ghost remaining = { item_count (λ rest. rest) };

    fn next(&mut self) -> Option<u32> {
        if self.rest == 0 {
            return None;
        }
        let cell = lowest(self.rest);
        self.rest -= one(cell);
        Some(cell)
    }
}
