// A game by value: what is known of it beside the lent memory.
ghost use Rattle.std.specs.Prelude.{◌≡◌, ℕ, ◌*◌, ◌≤◌};

use hexboard::{Side, Size};

/// How large the board is, how many moves were made, and who has won.
#[derive(Clone, Copy)]
pub struct Game {
    pub(crate) size: Size,
    pub(crate) count: u16,
    pub(crate) winner: Option<Side>,
    ghost few: { count ≤ size.n * size.n },
}
