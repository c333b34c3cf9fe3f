// Numbers of two bytes each in lent bytes, low byte first.
ghost use Rattle.std.specs.Prelude.{◌≡◌, ℕ, ◌*◌, ◌<◌, None, length, drop, slice_set};
ghost use Rattle.std.specs.Iterator.{YieldsFirst, item_count};
ghost use Rattle.hexboard.specs.Words.{words, word_of, room_at};

use std::marker::Model;

/// The number at a place, where there is one.
pub fn word(bytes: &[u8], place: u16) -> Option<u16>
    ensures { result ≡ word_of bytes.now place }
{
    let (pairs, _) = bytes.as_chunks::<2>();
    let pair = pairs.get(usize::from(place))?;
    Some(u16::from_le_bytes(*pair))
}

/// The numbers, one after the other: seen as the list of those that are left.
#[derive(Drop)]
pub struct Words<'a> {
    rest: &'a [u8],
}

impl<'a> Model for Words<'a> {
    ghost use Rattle.std.specs.Prelude.{ℕ, List};
    ghost use Rattle.hexboard.specs.Words.{words};

    ghost Value = { List ℕ };

    ghost view = { λ it. words it.rest.now };
}

impl Words<'_> {
    /// The numbers that bytes give. A byte that is left over gives none.
    pub fn of(bytes: &[u8]) -> Words<'_>
        ensures { result ≡ words bytes.now }
    {
        Words { rest: bytes }
    }
}

impl Iterator for Words<'_> {
    type Item = u16;

    ghost next_gives = { YieldsFirst (λ rest. rest) };

    ghost remaining = { item_count (λ rest. rest) };

    fn next(&mut self) -> Option<u16> {
        let (pair, rest) = self.rest.split_first_chunk::<2>()?;
        self.rest = rest;
        Some(u16::from_le_bytes(*pair))
    }
}

/// Writes the number at a place, if there is one; if not, nothing changes.
pub fn set_word(bytes: &mut [u8], place: u16, value: u16) -> Option<()>
    ensures told { result ≡ room_at bytes.old place }
    ensures refused { result ≡ None → bytes.new ≡ bytes.old }
    ensures after { words bytes.new ≡ slice_set (words bytes.old) place value }
    ensures behind { (k : ℕ) → place < k → drop (2 * k) bytes.new ≡ drop (2 * k) bytes.old }
{
    let at = usize::from(place) * 2;
    if at + 2 > bytes.len() {
        return None;
    }
    bytes[at..at + 2].copy_from_slice(&value.to_le_bytes());
    Some(())
}
