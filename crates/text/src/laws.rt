// The laws of reading and writing text, each the contract of a function that does nothing.
ghost use Rattle.text.specs.Boards.{RowsLaidOut};
ghost use Rattle.text.specs.Readings.{OneThing, OneAnswer, ReadBack};

/// A line asks for one thing only, and where it ceases to fit is one place only.
pub fn lines_ask_one_thing()
    ensures thing { OneThing }
    ensures answer { OneAnswer }
{}

/// What is written is read again.
pub fn lines_are_read_back()
    ensures { ReadBack }
{}

/// Each cell of a board stands where its row and its column say.
pub fn rows_are_laid_out()
    ensures { RowsLaidOut }
{}
