// Laws of calls, answers and their bytes: each is the contract of a function, and holds since that
// is proved.
ghost use Rattle.wire.specs.Laws.{CallComesBack, OneCall, AnswerComesBack, OneAnswer, RoomEnough};
ghost use Rattle.wire.specs.Laws.{CellsComeBack};

/// A call that is written is read again.
pub fn call_comes_back()
    ensures { CallComesBack }
{}

/// Two calls have the same bytes only if they are the same.
pub fn one_call()
    ensures { OneCall }
{}

/// An answer that is written is read again.
pub fn answer_comes_back()
    ensures { AnswerComesBack }
{}

/// Two answers have the same bytes exactly when they tell the same.
pub fn one_answer()
    ensures { OneAnswer }
{}

/// Two bytes for each cell of a board and 8 more have room for every answer on it.
pub fn room_enough()
    ensures { RoomEnough }
{}

/// Cells that are written are read again, and bytes that are read are written again.
pub fn cells_come_back()
    ensures { CellsComeBack }
{}
