// How long lines take to be served.
ghost use Rattle.std.specs.Prelude.{⊤};

use driver::{Kind, Listener, Served, Table, Times};
use std::io;
use std::io::ErrorKind;
use std::time::Instant;

/// A listener that also notes how long serving each line took.
#[derive(Drop)]
pub struct Timed<'a, L> {
    rt: &'a HostRuntime,
    listener: L,
    start: Option<Instant>,
    times: Times,
}

impl<'a, L> Timed<'a, L> {
    /// Before the first line.
    pub fn new(rt: &'a HostRuntime, listener: L) -> Timed<'a, L> {
        Timed {
            rt,
            listener,
            start: None,
            times: Times::new(),
        }
    }

    /// The times of the lines so far.
    pub fn times(&self) -> Times {
        self.times
    }
}

impl<L: Listener> Listener for Timed<'_, L> {
    ghost heard = { λ s all. L.heard s.listener all };

    // The clock can fail, or the listener.
    ghost fails = { λ _ _. ⊤ };

    fn begin(&mut self) {
        self.listener.begin();
        self.start = Instant::now(self.rt).ok();
    }

    fn hear(&mut self, served: Served<u16>, table: &mut Table) -> io::Result<()> {
        let Some(start) = self.start else {
            return Err(io::Error::from(ErrorKind::Unsupported));
        };
        let took = start.elapsed(self.rt)?;
        if let Ok(line) = served.asked {
            self.times.note(Kind::from(line), took);
        }
        self.listener.hear(served, table)
    }
}
