// The place of a position among all that can arise in an end of a game.
ghost use Rattle.std.specs.Prelude.{◌≡◌, ℕ, ◌+◌, ◌/◌, ◌%◌, ◌<◌, ◌≤◌};
ghost use Rattle.ranking.specs.Positions.{Position, choose, count, before, place, total};
ghost use Rattle.ranking.specs.Triangle.{Rows, Starts};

// How many stones of the side to move, and of the other.
#[derive(Clone, Copy)]
struct Stones {
    mine: u32,
    theirs: u32,
}

// Rows 0 to 16 of Pascal's triangle, each with columns 0 to 16.
#[derive(Drop)]
struct Triangle {
    rows: [[u32; 17]; 17],
    ghost filled: { Rows 17 rows },
}

impl Triangle {
    fn new() -> Triangle {
        let mut rows = [[0; 17]; 17];
        rows[0][0] = 1;
        // Each number is the sum of two of the row above.
        for n in 1..17 {
            rows[n][0] = 1;
            for k in 1..17 {
                rows[n][k] = rows[n - 1][k - 1] + rows[n - 1][k];
            }
        }
        Triangle { rows }
    }

    // How many sets of k of n things there are.
    fn choose(&self, n: u32, k: u32) -> u32
        requires { (n ≤ 16) × (k ≤ 16) }
        ensures { result ≡ choose n k }
    {
        self.rows[n as usize][k as usize]
    }

    // How many ways there are to lay so many stones on k cells.
    fn ways(&self, k: u32, stones: Stones) -> usize
        requires { (k ≤ 16) × (stones.mine + stones.theirs ≤ 16) }
        ensures { result ≡ count k stones.mine stones.theirs }
    {
        let all = stones.mine + stones.theirs;
        self.choose(k, all) as usize * self.choose(all, stones.mine) as usize
    }

    // How many of the ways to lay so many stones on k + 1 cells come before those that have `first`
    // on the first cell.
    #[tactic(auto, using(std::proofs::lemmas::Bool::Decides::nat_tests), unfolding(crate::specs::Positions::before))]
    fn before(&self, k: u32, first: Stones, stones: Stones) -> usize
        requires { (k < 16) × ((stones.mine + stones.theirs ≤ 16)
            × (first.theirs ≤ stones.theirs)) }
        ensures { result ≡ before k first.mine first.theirs stones.mine stones.theirs }
    {
        if first.mine == 1 {
            self.ways(k, stones)
        } else if first.theirs == 1 {
            let behind = Stones {
                theirs: stones.theirs - 1,
                ..stones
            };
            self.ways(k + 1, stones) - self.ways(k, behind)
        } else {
            0
        }
    }
}

/// What the places of positions are reckoned from, for ends with so many cells: Pascal's triangle,
/// and how many positions have fewer stones.
#[derive(Drop)]
pub struct Ranking {
    pub cells: u32,
    triangle: Triangle,
    starts: [usize; 18],
    ghost few: { cells ≤ 16 },
    ghost begins: { Starts cells 18 starts },
}

impl Ranking {
    /// For ends with so many cells.
    pub fn new(cells: u32) -> Ranking
        requires { cells ≤ 16 }
        ensures { result.cells ≡ cells }
    {
        let triangle = Triangle::new();
        let mut starts = [0; 18];
        for m in 0..17 {
            let all = m as u32;
            let stones = Stones {
                mine: all / 2,
                theirs: (all + 1) / 2,
            };
            starts[m + 1] = starts[m] + triangle.ways(cells, stones);
        }
        Ranking {
            cells,
            triangle,
            starts,
        }
    }

    /// How many positions there are.
    pub fn places(&self) -> usize
        ensures value { result ≡ total self.now.cells }
        ensures most { result ≤ 10165779 }
    {
        self.starts[self.cells as usize + 1]
    }

    /// The place of a position: of the stones of the side to move, and those of the other.
    pub fn place(&self, mine: u64, theirs: u64) -> usize
        requires { Position self.now.cells mine theirs }
        ensures { result ≡ place self.now.cells mine theirs }
    {
        let mut left = Stones {
            mine: mine.count_ones(),
            theirs: theirs.count_ones(),
        };
        let mut place = self.starts[(left.mine + left.theirs) as usize];
        let mut x = mine;
        let mut y = theirs;
        for k in (0..self.cells).rev() {
            let first = Stones {
                mine: (x % 2) as u32,
                theirs: (y % 2) as u32,
            };
            place += self.triangle.before(k, first, left);
            left.mine -= first.mine;
            left.theirs -= first.theirs;
            x /= 2;
            y /= 2;
        }
        place
    }
}
