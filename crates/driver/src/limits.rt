// How far a program goes: the largest board, and the longest end that it looks through.
ghost use Rattle.std.specs.Prelude.{◌↔◌, IsTrue};
ghost use Rattle.session.specs.Desks.{desk_game};
ghost use Rattle.driver.specs.Served.{IsBeyond};

use hexboard::Size;
use session::Desk;
use wire::Call;

/// The largest board that a program serves, and the most empty cells of an end that it looks
/// through. No desk looks through an end of more than 16 empty cells.
#[derive(Clone, Copy)]
pub struct Limits {
    pub largest: Size,
    pub ends: u16,
}

impl Limits {
    // Whether the call asks to look through an end that is too long.
    pub(crate) fn is_beyond(self, desk: &Desk, call: Call) -> bool
        ensures { IsTrue result ↔ IsBeyond self (desk_game desk.now) call }
    {
        call == Call::CanForce && self.ends < desk.empty_cells() && desk.winner().is_none()
    }
}
