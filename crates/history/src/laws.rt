// What holds of every list of moves, each law as the contract of a function. There is nothing to
// run.
ghost use Rattle.history.specs.Laws.{MovesTell, BackToTheByte, WinnerConnects, NobodyConnects};

/// The moves tell every byte of the memory.
pub fn moves_tell_every_byte()
    ensures told { MovesTell }
    ensures back { BackToTheByte }
{}

/// Who has won, by the byte of the last stone, is who has connected.
pub fn winner_has_connected()
    ensures side { WinnerConnects }
    ensures nobody { NobodyConnects }
{}
