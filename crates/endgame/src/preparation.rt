// How the stones of a side tie the empty cells together, found from the side's groups.
ghost use Rattle.std.specs.Prelude.{◌≡◌, ◌%◌, ◌^◌, ◌<◌, ◌==◌, length, bit_or, slice_index};
ghost use Rattle.std.specs.Prelude.{if◌then◌else◌};
ghost use Rattle.hexboard.specs.Sides.{number};
ghost use Rattle.endgame.specs.Gathering.{enter, entered_all, gathered, near_at, borders_at};
ghost use Rattle.endgame.specs.Grouped.{board, parents};
ghost use Rattle.endgame.specs.Prepared.{ArePrepared};

use crate::grouped::Grouped;
use crate::links::Links;
use arrayvec::ArrayVec;
use hexboard::{Neighbours, Side};
use ranking::one;

// What lies around an empty cell: the empty cells next to it, directly or through stones of the
// side, and the borders that it touches, itself or through stones, as two bits: 1 for the first, 2
// for the last, as the memory of the groups has them.
#[derive(Clone, Copy)]
struct Around {
    near: u64,
    borders: u8,
}

impl Grouped<'_> {
    // What the side's stones make of the empty cells.
    pub(crate) fn prepare(&self, side: Side, cells: &ArrayVec<u16, 16>) -> Links
        ensures { ArePrepared self.now.size.n (number side) self.now.stones.now
            self.now.parents.now self.now.borders.now cells.now.items result }
    {
        let sets = self.gather(side, cells);
        let mut near = [0; 16];
        let mut first = 0;
        let mut last = 0;
        for (k, cell) in cells.iter().enumerate() {
            let it = self.look_around(side, &sets, *cell);
            near[k] = it.near;
            first = add_if(first, k as u32, it.borders);
            last = add_if(last, k as u32, it.borders / 2);
        }
        Links { near, first, last }
    }

    // The empty cells gathered by what they touch: at the root of a group of the side, the set of
    // those next to the group; at an empty cell, the set of that cell alone.
    fn gather(&self, side: Side, cells: &ArrayVec<u16, 16>) -> [u64; 361]
        ensures { result
            ≡ gathered (board self.now) (number side) (parents self.now) cells.now.items
            (length cells.now.items) }
    {
        let mut sets = [0; 361];
        for (k, cell) in cells.iter().enumerate() {
            self.enter_all(side, *cell, k as u32, &mut sets);
        }
        sets
    }

    // Puts the k-th empty cell into its own set, and into those of the groups of the side next to
    // it.
    fn enter_all(&self, side: Side, cell: u16, k: u32, sets: &mut [u64])
        requires { k < 64 }
        ensures { sets.new ≡ entered_all (board self.now) (number side)
            (parents self.now) k cell sets.old }
    {
        enter(sets, cell, k);
        for near in Neighbours::of(self.size, cell) {
            if hexboard::stone(self.stones, near) == Some(side) {
                enter(sets, groups::root(self.parents, near), k);
            }
        }
    }

    // What lies around an empty cell: what its neighbours' roots have, unless they are stones of
    // the other side.
    fn look_around(&self, side: Side, sets: &[u64], cell: u16) -> Around
        ensures near { result.near ≡ near_at (board self.now) (number side)
            (parents self.now) sets.now cell }
        ensures borders { result.borders
            ≡ borders_at (board self.now) (number side) (parents self.now) self.now.borders.now cell }
    {
        let mut all = Around {
            near: 0,
            borders: hexboard::borders(self.size, side, cell),
        };
        for near in Neighbours::of(self.size, cell) {
            if hexboard::stone(self.stones, near) != Some(side.opponent()) {
                let root = groups::root(self.parents, near);
                all.near |= read(sets, root);
                all.borders |= groups::touched(self.borders, root);
            }
        }
        all
    }
}

// Puts the k-th empty cell into the set at a place; nothing where there is no such place.
fn enter(sets: &mut [u64], place: u16, k: u32)
    requires { k < 64 }
    ensures { sets.new ≡ enter k place sets.old }
{
    let at = usize::from(place);
    if at < sets.len() {
        sets[at] |= one(k);
    }
}

// The set at a place; none where there is no such place.
fn read(sets: &[u64], place: u16) -> u64
    ensures { result ≡ slice_index sets.now place }
{
    sets.get(usize::from(place)).copied().unwrap_or(0)
}

// The set with the k-th cell in it, if the lowest of the bits is set.
fn add_if(set: u64, k: u32, bits: u8) -> u64
    requires { k < 64 }
    ensures { result ≡ (if bits % 2 == 1 then bit_or set (2 ^ k) else set) }
{
    if bits % 2 == 1 { set | one(k) } else { set }
}
