// The search: who wins a position of an end, within which cells, and by which move.
ghost use Rattle.std.specs.Prelude.{◌≡◌, ℕ, ◌+◌, ◌-◌, ◌*◌, ◌/◌, ◌^◌, ◌<◌, ◌≤◌, length};
ghost use Rattle.ranking.specs.Sets.{bit, Within};
ghost use Rattle.ranking.specs.Positions.{place, total};
ghost use Rattle.ranking.specs.Table.{entry, Put};
ghost use Rattle.endgame.specs.Ends.{Node, Tells, KeepsFinding, position_after};
ghost use Rattle.endgame.specs.Efforts.{nothing_done, one_more_searched};
ghost use Rattle.endgame.specs.Searches.{entries, moves, Accounts, SearchesOnce};
ghost use Rattle.endgame.specs.Searched.{TellsWinner};
ghost use Rattle.endgame.specs.Winners.{entry_of};
ghost use Rattle.endgame.specs.Findings.{carrier_of, StepsInto, NamesStep, TellsKnown};
ghost use Rattle.endgame.specs.Replies.{Replied};
ghost use Rattle.endgame.specs.Choices.{WeighsBoth, FirstHeaviest};

use crate::links::Links;
use crate::winner::Winner;
use ranking::{Cells, Ranking, get, lowest, one, put};

/// The stones laid since the end began, of the side to move and of the other, and the free cells.
#[derive(Clone, Copy)]
pub struct Position {
    pub mine: u64,
    pub theirs: u64,
    pub free: u64,
}

impl Position {
    // The position after a move of the side to move: then the other is to move.
    fn after(self, step: u32) -> Position
        requires fits { (self.mine < 2 ^ 16) × (step < 16) }
        requires free { 2 ^ step ≤ self.free }
        ensures { result ≡ position_after self (2 ^ step) }
    {
        Position {
            mine: self.theirs,
            theirs: self.mine + one(step),
            free: self.free - one(step),
        }
    }
}

/// Whether the side to move wins or loses; and the cells that this rests on, its carrier: even if
/// all the other free cells go to the loser, it stands. The step is the cell of a winning move, if
/// one is known.
#[derive(Clone, Copy)]
pub enum Found {
    Won { carrier: u64, step: Option<u32> },
    Lost { carrier: u64 },
}

// What the table tells of the position at a place, if it has an entry: who wins, within all the
// cells that are free.
fn known(table: &[u8], place: usize, free: u64) -> Option<Found>
    requires { place / 4 < length table.now }
    ensures { TellsKnown (entry table.now place) free result }
{
    Some(match Winner::of_entry(get(table, place))? {
        Winner::Mover => Found::Won {
            carrier: free,
            step: None,
        },
        Winner::Other => Found::Lost { carrier: free },
    })
}

/// The cells that must be tried, and those of the threats that show the others to be lost.
#[derive(Clone, Copy)]
pub struct Cut {
    pub must: u64,
    pub lost: u64,
}

// Where the other side threatens nothing every free cell must be tried; where it threatens to
// connect on one cell, that cell; where on two, none helps.
fn replies(threats: u64, free: u64) -> Cut
    requires { Within threats free }
    ensures { Replied threats free result }
{
    let mut cells = Cells::of(threats);
    let Some(threat) = cells.next() else {
        return Cut {
            must: free,
            lost: 0,
        };
    };
    let first = one(threat);
    let Some(another) = cells.next() else {
        return Cut {
            must: first,
            lost: first,
        };
    };
    Cut {
        must: 0,
        lost: first | one(another),
    }
}

// The cells that an end can have.
const CELLS: u64 = 0xffff;

// Of the cells that must be tried, the first of those that are linked best for both sides together.
// Only stones on cells of an end weigh. Which cell it is decides how soon the answer is found, and
// which of several winning moves is named, and never whether there is one.
fn best(mine: &Links, theirs: &Links, at: Position, must: u64) -> u32
    requires some { 0 < must }
    requires fits { must < 2 ^ 16 }
    ensures { FirstHeaviest (WeighsBoth mine.now theirs.now at) must result }
{
    let own = at.mine & CELLS;
    let others = at.theirs & CELLS;
    let mut best = lowest(must);
    let mut most = 0;
    // With this loop the ends of random-5 take 20.2 ms, with an iterator over Cells 20.7.
    let mut rest = must;
    while rest > 0 {
        let k = lowest(rest);
        rest -= one(k);
        let linked = mine.weight(k, own, at.free) + theirs.weight(k, others, at.free);
        if linked > most {
            most = linked;
            best = k;
        }
    }
    best
}

/// What was done to answer a question: how many positions were searched, and how many times one was
/// looked at.
#[derive(Clone, Copy, PartialEq, Eq, Debug)]
pub struct Effort {
    pub searched: u64,
    pub looks: u64,
}

/// A search through an end: what the places of its positions are reckoned from, and what was done
/// so far.
#[derive(Drop)]
pub struct Search {
    pub ranking: Ranking,
    pub effort: Effort,
}

impl Effort {
    // Nothing was done.
    pub(crate) fn none() -> Effort
        ensures { result ≡ nothing_done }
    {
        Effort {
            searched: 0,
            looks: 0,
        }
    }
}

impl Search {
    /// For ends with so many cells, with nothing done yet.
    pub fn new(cells: u32) -> Search
        requires { cells ≤ 16 }
        ensures cells { result.ranking.cells ≡ cells }
        ensures effort { result.effort ≡ nothing_done }
    {
        Search {
            ranking: Ranking::new(cells),
            effort: Effort::none(),
        }
    }

    /// Who wins from the beginning of the end, with all its cells free. Nothing was done before.
    pub fn look_through(&mut self, table: &mut [u8], mine: &Links, theirs: &Links) -> Found
        requires new { self.old.effort ≡ nothing_done }
        requires room { total self.old.ranking.cells ≤ 4 * length table.old }
        ensures stepped { StepsInto result (2 ^ self.old.ranking.cells - 1) }
        ensures named { NamesStep result }
        ensures told { TellsWinner self.old.ranking.cells mine.now theirs.now result }
        ensures searched { self.new.effort.searched ≡ entries self.old.ranking.cells table.new }
        ensures looks { self.new.effort.looks ≤ 1 + moves self.old.ranking.cells table.new }
    {
        ranking::clear(table);
        let start = Position {
            mine: 0,
            theirs: 0,
            free: one(self.ranking.cells) - 1,
        };
        self.solve(table, mine, theirs, start)
    }

    /// Who wins a position: a look at it. A cell that connects at once is taken; else, where the
    /// other threatens to connect on two cells, nothing helps, and where on one, it is stopped. A
    /// position that is not decided so is searched once: what is found goes into the table. After a
    /// move that loses only the cells of the winner's carrier are tried, since any other move would
    /// leave that win as it is.
    ///
    /// The parameters stand apart: two of them change places with every move, so a struct of them
    /// would be made anew for each. Lent so, the search took longer, 20.3 ms and not 19.9 for the
    /// ends of random-5.
    pub fn solve(&mut self, table: &mut [u8], mine: &Links, theirs: &Links, at: Position) -> Found
        requires node { Node self.old.ranking.cells at.mine at.theirs at.free }
        requires room { total self.old.ranking.cells ≤ 4 * length table.old }
        requires accounts { Accounts self.old.ranking.cells at self.old.effort table.old }
        ensures within { Within (carrier_of result) at.free }
        ensures stepped { StepsInto result at.free }
        ensures named { entry table.old (place self.old.ranking.cells at.mine at.theirs) ≡ 0 →
            NamesStep result }
        ensures tells { Tells self.old.ranking.cells mine.now theirs.now at
            table.old table.new result }
        ensures kept { KeepsFinding self.old.ranking.cells mine.now theirs.now at table.new result }
        ensures once { SearchesOnce self.old.ranking.cells mine.now theirs.now at
            self.old.effort self.new.effort table.old table.new }
        ensures same { self.new.ranking ≡ self.old.ranking }
    {
        self.effort.looks += 1;
        if let Some(step) = Cells::of(mine.completions(at.mine, at.free)).next() {
            return Found::Won {
                carrier: one(step),
                step: Some(step),
            };
        }
        let cut = replies(theirs.completions(at.theirs, at.free), at.free);
        if cut.must == 0 {
            return Found::Lost { carrier: cut.lost };
        }
        let place = self.ranking.place(at.mine, at.theirs);
        if let Some(found) = known(table, place, at.free) {
            return found;
        }
        let mut must = cut.must;
        let mut lost = cut.lost;
        // Each answer takes the cell that was tried out of the set, and others.
        while must > 0 {
            let step = best(mine, theirs, at, must);
            match self.solve(table, theirs, mine, at.after(step)) {
                Found::Won { carrier, .. } => {
                    must &= carrier;
                    lost |= carrier;
                }
                Found::Lost { carrier } => {
                    self.enter(table, place, Winner::Mover);
                    return Found::Won {
                        carrier: carrier | one(step),
                        step: Some(step),
                    };
                }
            }
        }
        self.enter(table, place, Winner::Other);
        Found::Lost { carrier: lost }
    }

    // Enters who wins the position at a place, and counts that it has been searched.
    fn enter(&mut self, table: &mut [u8], place: usize, winner: Winner)
        requires inside { place / 4 < length table.old }
        requires room { self.old.effort.searched < 2 ^ 32 }
        ensures written { Put table.old table.new place (entry_of winner) }
        ensures counted { self.new
            ≡ record self.old { effort = one_more_searched self.old.effort } }
    {
        put(table, place, winner.into());
        self.effort.searched += 1;
    }
}
