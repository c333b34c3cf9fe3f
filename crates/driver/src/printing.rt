// Listeners that write what they hear.
ghost use Rattle.std.specs.Prelude.{◌≡◌, ℕ, List, OnOk, IsSomeAnd, length, ⊤};
ghost use Rattle.std.specs.Io.KnownBytes.{Appends};
ghost use Rattle.driver.specs.Printed.{Written, PrintsAnswer, ShowsPosition, PrintsPosition};
ghost use Rattle.driver.specs.Printed.{PrintsRefusal, counted};
ghost use Rattle.driver.specs.Tables.{game_on, limits_of, exchange_at};

use crate::listener::Listener;
use crate::table::Table;
use crate::told::Served;
use std::io;
use std::io::Write;

/// Writes each answer, a line each, as soon as it is there.
#[derive(Drop)]
pub struct Answers<W> {
    out: W,
}

impl<W: Write> Answers<W> {
    /// Writes to `out`. What is written is promised from here on, if nothing was written before.
    pub fn new(out: W) -> Answers<W>
        ensures { result.out ≡ out }
    {
        Answers { out }
    }

    /// What was written to.
    pub fn into_inner(self) -> W
        ensures { result ≡ self.out }
    {
        self.out
    }
}

impl<W: Write> Listener for Answers<W> {
    ghost heard = { λ s all. IsSomeAnd (W.contents s.out) (Written PrintsAnswer 1 all) };

    // Any write can fail.
    ghost fails = { λ _ _. ⊤ };

    fn hear(&mut self, served: Served<u16>, table: &mut Table) -> io::Result<()> {
        let told = table.told(served.told);
        writeln!(self.out, "{told}")?;
        self.out.flush()
    }
}

/// Writes each answer, and behind it the position, if the line leads to one.
#[derive(Drop)]
pub struct Positions<W> {
    out: W,
}

impl<W: Write> Positions<W> {
    /// Writes to `out`. What is written is promised from here on, if nothing was written before.
    pub fn new(out: W) -> Positions<W>
        ensures { result.out ≡ out }
    {
        Positions { out }
    }

    // Writes the position, if the line leads to one.
    fn write_position(&mut self, served: Served<u16>, table: &mut Table) -> io::Result<()>
        ensures written { OnOk result ((drawing : List ℕ)
            × ShowsPosition (exchange_at table.old served) drawing
            × Appends (W.contents self.old.out) (W.contents self.new.out) drawing) }
        ensures kept { game_on table.new ≡ game_on table.old }
        ensures limits { limits_of table.new ≡ limits_of table.old }
    {
        if !served.leads_on() {
            return Ok(());
        }
        let way = table.find_way();
        match table.position(way) {
            Some(position) => write!(self.out, "{position}"),
            None => Ok(()),
        }
    }

    /// What was written to.
    pub fn into_inner(self) -> W
        ensures { result ≡ self.out }
    {
        self.out
    }
}

impl<W: Write> Listener for Positions<W> {
    ghost heard = { λ s all. IsSomeAnd (W.contents s.out) (Written PrintsPosition 1 all) };

    ghost fails = { λ _ _. ⊤ };

    fn hear(&mut self, served: Served<u16>, table: &mut Table) -> io::Result<()> {
        let told = table.told(served.told);
        writeln!(self.out, "{told}")?;
        // Before the position, so that the answer is there even where the drawing fails.
        self.out.flush()?;
        self.write_position(served, table)?;
        self.out.flush()
    }
}

/// Writes each refusal, a line each, behind the number of the line that is refused, as soon as it
/// is there.
#[derive(Drop)]
pub struct Refusals<W> {
    out: W,
    lines: u64,
}

impl<W: Write> Refusals<W> {
    /// Writes to `out`, before the first line. What is written is promised from here on, if nothing
    /// was written before.
    pub fn new(out: W) -> Refusals<W>
        ensures out { result.out ≡ out }
        ensures none { result.lines ≡ 0 }
    {
        Refusals { out, lines: 0 }
    }

    /// What was written to.
    pub fn into_inner(self) -> W
        ensures { result ≡ self.out }
    {
        self.out
    }
}

impl<W: Write> Listener for Refusals<W> {
    ghost heard = { λ s all. (s.lines ≡ counted (length all))
        × IsSomeAnd (W.contents s.out) (Written PrintsRefusal 1 all) };

    ghost fails = { λ _ _. ⊤ };

    fn hear(&mut self, served: Served<u16>, table: &mut Table) -> io::Result<()> {
        let number = self.lines.saturating_add(1);
        self.lines = number;
        if served.is_refused() {
            let told = table.told(served.told);
            writeln!(self.out, "line {number}: {told}")?;
            self.out.flush()?;
        }
        Ok(())
    }
}
