// Who wins a position, as an entry of the table says it.
ghost use Rattle.std.specs.Prelude.{◌≡◌};
ghost use Rattle.endgame.specs.Winners.{entry_of, Reads};

/// The side to move, or the other.
#[derive(Clone, Copy)]
pub enum Winner {
    Mover,
    Other,
}

impl Winner {
    /// The winner that an entry tells, if it tells one.
    pub fn of_entry(entry: u8) -> Option<Winner>
        ensures { Reads entry result }
    {
        match entry {
            1 => Some(Winner::Mover),
            2 => Some(Winner::Other),
            _ => None,
        }
    }
}

impl From<Winner> for u8 {
    ghost from_gives = { λ winner entry. entry ≡ entry_of winner };

    fn from(winner: Winner) -> u8 {
        match winner {
            Winner::Mover => 1,
            Winner::Other => 2,
        }
    }
}
