// The sizes that a board can have at the desk.
ghost use Rattle.std.specs.Prelude.{◌≡◌, ℕ, ◌*◌, ◌<◌, ◌≤◌, MatchOption};

/// A board is n wide and n tall, n from 1 to 19.
#[derive(Clone, Copy, PartialEq, Eq, Debug)]
pub struct Size {
    n: u16,
    ghost some: { 0 < n },
    ghost few: { n ≤ 19 },
}

impl Size {
    /// How many cells the largest board has in a row.
    pub const MAX: u16 = 19;

    /// The size, or none if n is out of range.
    pub fn new(n: u16) -> Option<Size>
        ensures { MatchOption result ((0 < n → n ≤ 19 → ⊥)) (λ s. s.n ≡ n) }
    {
        if n == 0 || n > Self::MAX {
            return None;
        }
        Some(Size { n })
    }

    /// How many cells a row has, and a column.
    pub fn width(self) -> u16
        ensures value { result ≡ self.n }
        ensures some { 0 < result }
        ensures few { result ≤ 19 }
    {
        self.n
    }

    /// How many cells the board has.
    pub fn cells(self) -> u16
        ensures value { result ≡ self.n * self.n }
        ensures some { 0 < result }
        ensures few { result ≤ 361 }
    {
        let n = self.width();
        n * n
    }
}
