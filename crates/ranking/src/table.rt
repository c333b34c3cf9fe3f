// A table of numbers below 4 in lent memory, four to a byte. What a number says is for whoever
// writes it.
ghost use Rattle.std.specs.Prelude.{◌≡◌, ℕ, ◌/◌, ◌<◌, length};
ghost use Rattle.ranking.specs.Table.{entry, Put};

/// Zero at every place.
pub fn clear(table: &mut [u8])
    ensures { (i : ℕ) → entry table.new i ≡ 0 }
{
    table.fill(0);
}

/// What stands at a place.
#[tactic(auto, using(crate::proofs::Entries::read), unfolding(crate::specs::Table::entry))]
pub fn get(table: &[u8], place: usize) -> u8
    requires { place / 4 < length table.now }
    ensures { result ≡ entry table.now place }
{
    (table[place / 4] >> (2 * (place % 4))) & 3
}

/// A number written to a place.
pub fn put(table: &mut [u8], place: usize, value: u8)
    requires inside { place / 4 < length table.old }
    requires small { value < 4 }
    ensures { Put table.old table.new place value }
{
    let shift = 2 * (place % 4);
    let byte = table[place / 4];
    let old = (byte >> shift) & 3;
    table[place / 4] = byte - (old << shift) + (value << shift);
}
