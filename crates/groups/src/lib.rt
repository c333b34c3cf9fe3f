// Groups of stones that hang together, joined as stones come, in lent memory, with the borders they
// touch.
#![tactic(auto)]

ghost use Rattle.std.specs.Prelude.{◌≡◌, ℕ, ◌*◌, ◌%◌, [], length, ◌==◌, slice_index, slice_set};
ghost use Rattle.hexboard.specs.Geometry.{laid};
ghost use Rattle.hexboard.specs.Sides.{number};
ghost use Rattle.hexboard.specs.Words.{words};
ghost use Rattle.groups.specs.Forest.{held, parent, root, join, place, lift};
ghost use Rattle.groups.specs.Stones.{forest_of};
ghost use Rattle.groups.specs.Lent.{before, after, RestKept};
ghost use Rattle.groups.specs.Meaning.{Together, Joined, KeptOnce, OneMore, OneFewer, TellsWinner};

use hexboard::{Neighbours, Side, Size};

/// The groups of a board in lent memory, for stones of either side in any order. Each stone has a
/// parent in its group, a later stone, or is the group's root: its last stone, which is its own
/// parent. `parents` holds two bytes for each cell, low byte first. `borders` holds a byte for each
/// cell, whose bits at a root say which borders the group touches: 1 for the first, 2 for the last.
/// Bits, since the bytes of lent memory are fixed. It is passed by value: a proof then knows what
/// its references lead to afterwards, which it does not for a `&mut` of such a struct.
#[derive(Drop)]
pub struct Groups<'a> {
    pub parents: &'a mut [u8],
    pub borders: &'a mut [u8],
}

impl Groups<'_> {
    /// Makes the memory that of a board without stones. Cell by cell, as in `lift`: a parent is a
    /// number of two bytes, which `set_word` writes by its place.
    pub fn clear(self, size: Size)
        requires parents_long { length self.parents.now ≡ size.n * size.n * 2 }
        requires borders_long { length self.borders.now ≡ size.n * size.n }
        ensures bare { after self.exit ≡ forest_of size.n [] }
        ensures told { KeptOnce }
    {
        let Groups { parents, borders } = self;
        borders.fill(0);
        for each in 0..size.cells() {
            let _ = hexboard::set_word(parents, each, each);
        }
    }

    /// A stone of a side comes to an empty cell, and takes in the groups of its side next to it.
    /// `cells` may hold the stone already or not.
    pub fn place(self, size: Size, cells: &[u8], side: Side, cell: u16)
        ensures value { after self.exit
            ≡ place (laid size.n cells.now) (number side) cell (before self.entry) }
        ensures grows { OneMore size.n cells.now (number side) cell
            (before self.entry) (after self.exit) }
        ensures behind { RestKept self.entry self.exit }
    {
        let Groups { parents, borders } = self;
        write(borders, cell, hexboard::borders(size, side, cell));
        for near in Neighbours::of(size, cell) {
            if hexboard::stone(cells, near) == Some(side) {
                let top = root(parents, near);
                Groups { parents, borders }.join(top, cell);
            }
        }
    }

    /// The last stone is taken out: the groups that it took in are apart again, and every byte is
    /// as it was before it came.
    pub fn lift(self, size: Size, cell: u16)
        ensures value { after self.exit ≡ lift (size.n * size.n) cell (before self.entry) }
        ensures back { OneFewer size.n cell (before self.entry) (after self.exit) }
        ensures behind { RestKept self.entry self.exit }
    {
        let Groups { parents, borders } = self;
        write(borders, cell, 0);
        for below in 0..size.cells() {
            if parent(parents, below) == cell {
                let _ = hexboard::set_word(parents, below, below);
            }
        }
    }

    // The group of a root hangs from a cell now, which touches what either touched.
    fn join(self, top: u16, cell: u16)
        ensures value { after self.exit ≡ join top cell (before self.entry) }
        ensures behind { RestKept self.entry self.exit }
    {
        let Groups { parents, borders } = self;
        let bits = touched(borders, cell) | touched(borders, top);
        write(borders, cell, bits);
        let _ = hexboard::set_word(parents, top, cell);
    }
}

/// The root of a cell's group.
pub fn root(parents: &[u8], cell: u16) -> u16
    ensures value { result ≡ root (words parents.now) cell }
    ensures together { Together }
{
    let mut at = cell;
    // No way up has more steps than there are cells.
    for _ in 0..parents.len() / 2 {
        let above = parent(parents, at);
        if above == at {
            return at;
        }
        at = above;
    }
    at
}

/// Whether the group of a root touches both its borders. After a stone on a board where nobody had
/// connected, the byte of that stone tells whether its side has connected.
pub fn touches_both(borders: &[u8], cell: u16) -> bool
    ensures value { result ≡ (slice_index borders.now cell % 4 == 3) }
    ensures joined { Joined }
    ensures decides { TellsWinner borders.now cell result }
{
    touched(borders, cell) % 4 == 3
}

/// The borders that the group of a root touches, as two bits: 1 for the first, 2 for the last.
pub fn touched(borders: &[u8], group: u16) -> u8
    ensures { result ≡ slice_index borders.now group }
{
    borders.get(usize::from(group)).copied().unwrap_or(0)
}

// The parent of a cell. A cell that is not there is its own.
fn parent(parents: &[u8], cell: u16) -> u16
    ensures { result ≡ parent (words parents.now) cell }
{
    hexboard::word(parents, cell).unwrap_or(cell)
}

// Writes the byte of a cell; nothing for a cell that is not there.
fn write(borders: &mut [u8], cell: u16, bits: u8)
    ensures { borders.new ≡ slice_set borders.old cell bits }
{
    let at = usize::from(cell);
    if at < borders.len() {
        borders[at] = bits;
    }
}
