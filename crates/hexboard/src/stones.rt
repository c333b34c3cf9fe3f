// Stones on a board in lent bytes, one byte to a cell: 0 for an empty cell, else the number of the
// side whose stone stands there.
ghost use Rattle.std.specs.Prelude.{◌≡◌, ℕ, ◌+◌, ◌*◌, ◌<◌, length, Ok, slice_set};
ghost use Rattle.hexboard.specs.Board.{empty, empties, all_cells};
ghost use Rattle.hexboard.specs.Geometry.{laid};
ghost use Rattle.hexboard.specs.Promise.{Good};
ghost use Rattle.hexboard.specs.Sides.{number};
ghost use Rattle.hexboard.specs.Stones.{stone_at, placing, placed};

use crate::side::Side;

/// Why a stone was not put on a cell.
#[derive(Clone, Copy, PartialEq, Eq, Debug)]
pub enum Unplaced {
    NoCell,
    Taken,
}

/// The side whose stone stands on a cell. A byte that is neither 1 nor 2 is no stone, and a cell
/// that is not there has none.
pub fn stone(cells: &[u8], cell: u16) -> Option<Side>
    ensures value { result ≡ stone_at cells.now cell }
{
    let byte = cells.get(usize::from(cell))?;
    Side::try_from(*byte).ok()
}

/// Puts a stone on an empty cell. A cell that is not there or not empty is refused, and then
/// nothing changes.
pub fn place(cells: &mut [u8], side: Side, cell: u16) -> Result<(), Unplaced>
    ensures value { result ≡ placing cells.old cell }
    ensures after { cells.new ≡ placed cells.old (number side) cell }
    ensures good { (n : ℕ) → Good (laid n cells.old) → Good (laid n cells.new) }
    ensures fewer { result ≡ Ok tt → empties cells.new + 1 ≡ empties cells.old }
    ensures back { result ≡ Ok tt → slice_set cells.new cell 0 ≡ cells.old }
{
    let index = usize::from(cell);
    match cells.get(index) {
        None => Err(Unplaced::NoCell),
        Some(0) => {
            cells[index] = u8::from(side);
            Ok(())
        }
        Some(_) => Err(Unplaced::Taken),
    }
}

/// Takes off what stands on a cell, and says which stone that was.
pub fn lift(cells: &mut [u8], cell: u16) -> Option<Side>
    ensures value { result ≡ stone_at cells.old cell }
    ensures after { cells.new ≡ slice_set cells.old cell 0 }
    ensures good { (n : ℕ) → Good (laid n cells.old) → Good (laid n cells.new) }
{
    let index = usize::from(cell);
    let byte = *cells.get(index)?;
    cells[index] = 0;
    Side::try_from(byte).ok()
}

/// Takes all stones off.
pub fn clear(cells: &mut [u8])
    ensures after { cells.new ≡ all_cells (length cells.old) }
    ensures board { (n : ℕ) → length cells.old ≡ n * n → laid n cells.new ≡ empty n }
    ensures good { (n : ℕ) → 0 < n → length cells.old ≡ n * n → Good (laid n cells.new) }
{
    cells.fill(0);
}
