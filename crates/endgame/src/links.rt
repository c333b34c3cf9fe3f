// What a side's stones make of the empty cells, and floods over those.
ghost use Rattle.std.specs.Prelude.{◌≡◌, ℕ, ◌^◌, ◌<◌, ◌≤◌};
ghost use Rattle.endgame.specs.Floods.{Flood, Completions, common, Weighs};

use ranking::{lowest, one};

/// The empty cells of a position, at most 16, are numbered. `near` has for each the set of those
/// that are next to it, directly or through stones of the side; `first` and `last` are the sets of
/// those at the side's first and last border, directly or through stones.
#[derive(Drop)]
pub struct Links {
    pub near: [u64; 16],
    pub first: u64,
    pub last: u64,
}

impl Links {
    // The cells that the flood from a set of cells touches: those, and what is near a touched
    // stone.
    fn flood(&self, from: u64, stones: u64) -> u64
        requires { stones < 2 ^ 16 }
        ensures { Flood self.now.near from stones result }
    {
        let mut touched = from;
        let mut rest = stones;
        // What is touched grows on the way.
        while touched & rest > 0 {
            let k = lowest(touched & rest);
            rest -= one(k);
            touched |= self.near[k as usize];
        }
        touched
    }

    /// The free cells on which a stone joins the side's borders.
    pub fn completions(&self, stones: u64, free: u64) -> u64
        requires { stones < 2 ^ 16 }
        ensures { Completions self.now stones free result }
    {
        free & self.flood(self.first, stones) & self.flood(self.last, stones)
    }

    /// How well a stone on a cell would be linked: the free cells that it reaches through the
    /// side's stones laid since, and two more for each border of the side that it reaches.
    pub fn weight(&self, cell: u32, stones: u64, free: u64) -> u32
        requires inside { cell < 16 }
        requires few { stones < 2 ^ 16 }
        ensures value { Weighs self.now cell stones free result }
        ensures small { result ≤ 68 }
    {
        let reached = self.flood(self.near[cell as usize], stones);
        let group = (reached & stones) | one(cell);
        (reached & free).count_ones() + 2 * meets(group, self.first) + 2 * meets(group, self.last)
    }
}

// 1 if the sets have a cell in common, else 0.
fn meets(one: u64, other: u64) -> u32
    ensures { result ≡ common one other }
{
    u32::from(one & other > 0)
}
