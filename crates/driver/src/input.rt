// Where bytes come from.
ghost use Rattle.std.specs.Prelude.{◌≡◌, ℕ, List, Bool, true, false, IfSome, IfOk, OnErr, IsTrue};
ghost use Rattle.std.specs.Prelude.{length, [], Some};
ghost use Rattle.std.specs.Borrow.{sem};
ghost use Rattle.std.specs.Io.BufRead.{Rests, FillKeeps};
ghost use Rattle.std.specs.Io.{StartsWith};

use std::io;
use std::io::{BufRead, BufReader, Read};

/// Bytes that are read through a buffer.
pub trait Input: BufRead {
    // reading can fail
    ghost can_break: { Bool };

    /// The bytes that are at hand, of which there are none at the input's end alone.
    fn fill(&mut self) -> io::Result<&[u8]>
        ensures front { IfSome (Self.remaining self.old)
            (λ xs. IfOk result (λ s. StartsWith xs s.now)) }
        ensures end { IfSome (Self.remaining self.old)
            (λ xs. IfOk result (λ s. length s.now ≡ 0 → xs ≡ [])) }
        ensures* after_borrow { sem 𝓛 (Rests Self.row self.entry (λ new.
            FillKeeps (Self.remaining self.old) (Self.remaining new)
            (Self.consumable_len new) result)) }
        ensures broke { OnErr result (IsTrue can_break) };
}

impl<R: Read + Drop> Input for BufReader<R> {
    ghost can_break = { true };

    fn fill(&mut self) -> io::Result<&[u8]> {
        self.fill_buf()
    }
}

impl Input for &[u8] {
    ghost can_break = { false };

    fn fill(&mut self) -> io::Result<&[u8]> {
        self.fill_buf()
    }
}
