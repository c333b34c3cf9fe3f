// A desk at which boards are opened and calls are served, as lines ask.
ghost use Rattle.std.specs.Prelude.{◌≡◌};
ghost use Rattle.session.specs.Desks.{largest_of};
ghost use Rattle.driver.specs.Served.{IsRead};

use crate::limits::Limits;
use crate::line::LONGEST_LINE;
use crate::position::Position;
use crate::told::{Served, Told};
use session::Desk;
use std::alloc::{AllocError, Global};
use text::{Drawing, Line, Outcome, read_line};
use wire::{Answer, Call, Refusal};

/// A desk, and whether a board is open on it: before the first line that opens one, no call is
/// served.
#[derive(Drop)]
pub struct Table {
    limits: Limits,
    desk: Desk,
    is_open: bool,
    ghost roomy: { largest_of desk ≡ limits.largest.n },
}

// What a line asks for, if it can be read and is not too long. Else the place of its first byte
// that does not fit, or is too much.
fn read(line: &[u8]) -> Result<Line, u16>
    ensures { IsRead line.now result }
{
    let kept = &line[..line.len().min(LONGEST_LINE)];
    match read_line(kept) {
        Ok(asked) if kept.len() == line.len() => Ok(asked),
        Ok(_) => Err(LONGEST_LINE as u16),
        Err(place) => Err(place as u16),
    }
}

impl Table {
    ghost use Rattle.std.specs.Prelude.{◌*◌, ◌%◌, None, Ok, IfOk, IfSome, IsSomeAnd, MatchOption, length};
    ghost use Rattle.std.specs.Prelude.{take};
    ghost use Rattle.hexboard.specs.Words.{words};
    ghost use Rattle.text.specs.declared.reading.Line.TheVariants as asks;
    ghost use Rattle.driver.specs.Drawn.{Draws, IsShortestWay, position_lines};
    ghost use Rattle.driver.specs.Served.{Serves};
    ghost use Rattle.driver.specs.Tables.{game_on, limits_of, way_of, reply_in, reply_of, shown_bytes};

    /// A table with no board on it. All memory that it will ever need is asked for here.
    pub fn new(heap: Global, limits: Limits) -> Result<Table, AllocError>
        ensures closed { IfOk result (λ t. game_on t ≡ None) }
        ensures limits { IfOk result (λ t. limits_of t ≡ limits) }
    {
        let desk = Desk::with_room(heap, limits.largest)?;
        Ok(Table {
            limits,
            desk,
            is_open: false,
        })
    }

    /// Serves a line, given without its end. A line that is longer than `LONGEST_LINE` is refused
    /// by its beginning.
    pub fn serve(&mut self, line: &[u8]) -> Served<u16>
        ensures read { IsRead line.now result.asked }
        ensures served { Serves (limits_of self.old) result.asked (game_on self.old)
            (reply_in (way_of self.new) result.told) (game_on self.new) }
        ensures limits { limits_of self.new ≡ limits_of self.old }
    {
        let asked = read(line);
        let told = match asked {
            Ok(Line::Board(n)) => self.open(n),
            Ok(Line::Call(call)) => self.call(call),
            Err(place) => Told::Answer(Answer::Refused(Refusal::Unreadable(place))),
        };
        Served { asked, told }
    }

    // Opens a board n wide and n tall.
    fn open(&mut self, n: u16) -> Told<u16>
        ensures served { Serves (limits_of self.old) (Ok (asks.Board n)) (game_on self.old)
            (reply_in (way_of self.new) result) (game_on self.new) }
        ensures limits { limits_of self.new ≡ limits_of self.old }
    {
        match self.desk.reopen(n) {
            Ok(()) => {
                self.is_open = true;
                Told::Opened(n)
            }
            // A board for which there is no room is larger than the program's.
            Err(_) => Told::Answer(Answer::Refused(Refusal::BadSize)),
        }
    }

    // Serves a call. Where no board is open, there is no call to read.
    fn call(&mut self, call: Call) -> Told<u16>
        ensures served { Serves (limits_of self.old) (Ok (asks.Call call)) (game_on self.old)
            (reply_in (way_of self.new) result) (game_on self.new) }
        ensures limits { limits_of self.new ≡ limits_of self.old }
    {
        if !self.is_open {
            return Told::Answer(Answer::Refused(Refusal::Unreadable(0)));
        }
        if self.limits.is_beyond(&self.desk, call) {
            return Told::Answer(Answer::TooMany);
        }
        Told::Answer(self.desk.serve(call))
    }

    /// The reply that a value is that this table told last, with its way, if it has one.
    pub fn told(&self, told: Told<u16>) -> Told<&[u8]>
        ensures value { reply_of result ≡ reply_in (way_of self.now) told }
        ensures whole { length (shown_bytes result) % 2 ≡ 0 }
    {
        match told {
            Told::Opened(n) => Told::Opened(n),
            Told::Answer(reply) => Told::Answer(self.desk.answer(reply)),
        }
    }

    /// Finds a shortest way of the side that has connected: how many cells it has, 0 if nobody has
    /// connected.
    pub fn find_way(&mut self) -> u16
        ensures kept { game_on self.new ≡ game_on self.old }
        ensures limits { limits_of self.new ≡ limits_of self.old }
        ensures way { IfSome (game_on self.old)
            (λ g. IsShortestWay g (words (take (2 * result) (way_of self.new)))) }
        ensures counted { result ≡ length (words (take (2 * result) (way_of self.new))) }
    {
        match self.desk.who() {
            Some((_, cells)) => cells,
            None => 0,
        }
    }

    /// The position on the board that is open, if one is, with as many cells marked of the way that
    /// was found last.
    pub fn position(&self, marked: u16) -> Option<Position<'_>>
        ensures { MatchOption result (game_on self.now ≡ None)
            (λ p. IsSomeAnd (game_on self.now) (λ g. Draws g
            (words (take (2 * marked) (way_of self.now))) (position_lines p))) }
    {
        if !self.is_open {
            return None;
        }
        let way = self.desk.way();
        let end = (2 * usize::from(marked)).min(way.len());
        Some(Position {
            board: Drawing {
                size: self.desk.size(),
                cells: self.desk.cells(),
                way: &way[..end],
            },
            outcome: Outcome(self.desk.winner()),
        })
    }
}
