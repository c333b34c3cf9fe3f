// A desk owns the memory of its games, and lends it to the functions that serve games in lent
// memory. Once made it never allocates.
ghost use Rattle.std.specs.Prelude.{◌≡◌, ℕ, ◌+◌, ◌-◌, ◌*◌, ◌%◌, ◌<◌, ◌≤◌, ◌++◌, length, take, drop};
ghost use Rattle.std.specs.Prelude.{replicate, IfOk};
ghost use Rattle.std.specs.Prelude.{vec_len, vec_capacity};
ghost use Rattle.hexboard.specs.Board.{empties};
ghost use Rattle.hexboard.specs.Games as games;
ghost use Rattle.hexboard.specs.Words.{words};
ghost use Rattle.session.specs.Sizes as lending;
ghost use Rattle.history.specs.Holds.{lent, won_by};
ghost use Rattle.history.specs.Played.{winner_of};
ghost use Rattle.session.specs.Keeps.{Roomy, HasRoom, Fair, Written, Grouped};
ghost use Rattle.session.specs.Replies.{replied, way_cells, way_bytes};
ghost use Rattle.session.specs.Short.{Short};
ghost use Rattle.session.specs.Told.{told, told_who, found_cells};
ghost use Rattle.wire.specs.Formal as formal;
ghost use Rattle.wire.specs.Formal.{asked};

use crate::reply::{Reply, with_way};
use crate::serve::{serve, who};
use crate::unopened::Unopened;
use hexboard::{Side, Size};
use history::Game;
use std::alloc::{AllocError, Global};
use wire::{Answer, Call, Refusal};

/// A game, and memory for it and for every board up to the largest that the desk was made for.
#[derive(Drop)]
pub struct Desk {
    // The board's size, the count of moves and the winner; stones, moves and groups are in memory,
    // as the moves made them.
    game: Game,
    largest: Size,
    stones: Vec<u8>,
    log: Vec<u8>,
    parents: Vec<u8>,
    borders: Vec<u8>,
    // Scratch of the searches, and the cells of the way that was found last, two bytes each.
    scratch: Vec<u8>,
    way: Vec<u8>,
    ghost within: { game.size.n ≤ largest.n },
    ghost roomy: { Roomy largest.n (vec_len scratch) (vec_len way) },
    ghost owned: { HasRoom largest.n
        (vec_capacity stones) (vec_capacity log) (vec_capacity parents) (vec_capacity borders)
        (vec_capacity scratch) (vec_capacity way) },
    ghost fair: { Fair game (lent stones.items log.items parents.items borders.items) },
    ghost written: { Written game (lent stones.items log.items parents.items borders.items) },
    ghost grouped: { Grouped game (lent stones.items log.items parents.items borders.items) },
}

// So many zeros in memory that has room for no more. Std promises that a vector has the room that
// is asked for, and not that it has no more: one with more is let go.
fn bytes(heap: Global, count: usize) -> Result<Vec<u8>, AllocError>
    ensures zeros { IfOk result (λ v. v.items ≡ replicate count 0) }
    ensures len { IfOk result (λ v. vec_len v ≡ count) }
    ensures capacity { IfOk result (λ v. vec_capacity v ≡ count) }
{
    let bytes = vec![in heap; 0; count]?;
    if bytes.capacity() > count {
        return Err(AllocError);
    }
    Ok(bytes)
}

// Makes a vector longer by zeros or shorter, within the room that it has.
fn set_len(bytes: &mut Vec<u8>, count: usize)
    requires { count ≤ vec_capacity bytes.old }
    ensures items { bytes.new.items ≡ take count bytes.old.items
        ++ replicate (count - vec_len bytes.old) 0 }
    ensures len { vec_len bytes.new ≡ count }
    ensures capacity { vec_capacity bytes.new ≡ vec_capacity bytes.old }
{
    bytes.truncate(count);
    // Std promises of `insert` that the vector stays in its memory, of `resize` only that the
    // memory does not shrink.
    for end in bytes.len()..count {
        bytes.insert(end, 0).unwrap();
    }
}

impl Desk {
    ghost use Rattle.session.specs.Desks.{desk_game, largest_of, bytes_owned, Outcome, IsNewDesk};
    ghost use Rattle.session.specs.Desks.{Opened, Reopens};

    /// A new game on a board n wide and n tall, n from 1 to 19, with room for that board alone. All
    /// memory that it will ever need is asked for here.
    pub fn open(heap: Global, n: u16) -> Result<Desk, Unopened>
        ensures { Opened n result }
    {
        let Some(size) = Size::new(n) else {
            return Err(Unopened::Refused(Refusal::BadSize));
        };
        Ok(Desk::with_room(heap, size)?)
    }

    /// A new game on a board of this size, with room for every board up to it. All memory that will
    /// ever be needed is asked for here.
    pub fn with_room(heap: Global, largest: Size) -> Result<Desk, AllocError>
        ensures { IfOk result (IsNewDesk largest.n) }
    {
        let cells = usize::from(largest.cells());
        let mut stones = bytes(heap, cells)?;
        let mut log = bytes(heap, cells * 2)?;
        let mut parents = bytes(heap, cells * 2)?;
        let mut borders = bytes(heap, cells)?;
        let scratch = bytes(heap, endgame::table_bytes(largest))?;
        let way = bytes(heap, cells * 2)?;
        let game = history::start(largest, &mut stones, &mut log, &mut parents, &mut borders);
        Ok(Desk {
            game,
            largest,
            stones,
            log,
            parents,
            borders,
            scratch,
            way,
        })
    }

    /// A new game on a board n wide and n tall, in the memory that the desk has. It is refused if n
    /// is not from 1 to 19, or the board is larger than the desk has room for; then the game goes
    /// on as it was.
    pub fn reopen(&mut self, n: u16) -> Result<(), Refusal>
        ensures { Reopens n self.old self.new result }
    {
        let Some(size) = Size::new(n) else {
            return Err(Refusal::BadSize);
        };
        let Some(_) = self.largest.width().checked_sub(n) else {
            return Err(Refusal::SmallMemory);
        };
        let cells = usize::from(size.cells());
        set_len(&mut self.stones, cells);
        set_len(&mut self.log, cells * 2);
        set_len(&mut self.parents, cells * 2);
        set_len(&mut self.borders, cells);
        self.game = history::start(
            size,
            &mut self.stones,
            &mut self.log,
            &mut self.parents,
            &mut self.borders,
        );
        Ok(())
    }

    /// The largest board that there is room for.
    pub fn largest(&self) -> Size
        ensures value { result.n ≡ largest_of self.now }
        ensures owned { bytes_owned self.now ≡ lending.asked result.n + 2 * (result.n * result.n) }
    {
        self.largest
    }

    /// Puts a stone of the side to move on a cell: the move's number, from 0.
    pub fn make_move(&mut self, cell: u16) -> Result<u16, Refusal>
        ensures right { games.Right (desk_game self.old) (games.moves cell) (told result)
            (desk_game self.new) }
        ensures way { self.new.way.items ≡ self.old.way.items }
        ensures room { largest_of self.new ≡ largest_of self.old }
    {
        let number = self.game.count();
        self.game = history::make_move(
            self.game,
            cell,
            &mut self.stones,
            &mut self.log,
            &mut self.parents,
            &mut self.borders,
        )?;
        Ok(number)
    }

    /// Takes the last move back: how many moves are left.
    pub fn take_back(&mut self) -> Result<u16, Refusal>
        ensures right { games.Right (desk_game self.old) games.back (told result)
            (desk_game self.new) }
        ensures way { self.new.way.items ≡ self.old.way.items }
        ensures room { largest_of self.new ≡ largest_of self.old }
    {
        self.game = history::take_back(
            self.game,
            &mut self.stones,
            &mut self.log,
            &mut self.parents,
            &mut self.borders,
        )?;
        Ok(self.game.count())
    }

    /// Who has connected, and how: the side, and how many cells its way has, a shortest. They then
    /// stand at the front of `way`.
    pub fn who(&mut self) -> Option<(Side, u16)>
        ensures right { games.Right (desk_game self.old) games.who
            (told_who result self.new.way.items) (desk_game self.new) }
        ensures short { Short (desk_game self.old).board (told_who result self.new.way.items) }
        ensures counted { found_cells result ≡ length
            (words (take (2 * found_cells result) self.new.way.items)) }
        ensures behind { drop (2 * found_cells result) self.new.way.items ≡ drop
            (2 * found_cells result) self.old.way.items }
        ensures room { largest_of self.new ≡ largest_of self.old }
    {
        who(self.game, &self.stones, &mut self.scratch, &mut self.way)
    }

    /// Serves a call. If the answer is a way, its cells then stand at the front of `way`.
    pub fn serve(&mut self, call: Call) -> Reply
        ensures right { games.Right (desk_game self.old) (asked call)
            (replied result self.new.way.items) (desk_game self.new) }
        ensures short { Short (desk_game self.old).board (replied result self.new.way.items) }
        ensures counted { way_cells result ≡ length
            (words (take (2 * way_cells result) self.new.way.items)) }
        ensures behind { drop (2 * way_cells result) self.new.way.items ≡ drop
            (2 * way_cells result) self.old.way.items }
        ensures room { largest_of self.new ≡ largest_of self.old }
    {
        let (game, reply) = serve(
            self.game,
            call,
            &mut self.stones,
            &mut self.log,
            &mut self.parents,
            &mut self.borders,
            &mut self.scratch,
            &mut self.way,
        );
        self.game = game;
        reply
    }

    /// The bytes that ways are written to, two a cell, low byte first. The way that was found last
    /// stands at the front, with as many cells as `who` or `serve` told.
    pub fn way(&self) -> &[u8]
        ensures { result.now ≡ self.now.way.items }
    {
        &self.way
    }

    /// The answer that a reply of this desk is, with the way that was found last if the reply tells
    /// one.
    pub fn answer(&self, reply: Reply) -> Answer<&[u8]>
        ensures value { formal.told result ≡ replied reply self.now.way.items }
        ensures bytes { way_bytes result ≡ take (2 * way_cells reply) self.now.way.items }
        ensures whole { length (way_bytes result) % 2 ≡ 0 }
    {
        with_way(reply, &self.way)
    }

    /// Who has won: the side that has connected, or nobody.
    pub fn winner(&self) -> Option<Side>
        ensures connected { Outcome (desk_game self.now) result }
        ensures by_moves { won_by result ≡ winner_of self.now.game.size.n
            (desk_game self.now).moves }
    {
        self.game.winner()
    }

    /// How many cells are empty.
    pub fn empty_cells(&self) -> u16
        ensures { result ≡ empties (desk_game self.now).board.cells }
    {
        let cells = self.game.size().cells();
        cells - self.game.count()
    }

    /// The size of the board.
    pub fn size(&self) -> Size
        ensures { result.n ≡ (desk_game self.now).board.wide }
    {
        self.game.size()
    }

    /// The stones, a byte for each cell: 0, 1 or 2.
    pub fn cells(&self) -> &[u8]
        ensures { result.now ≡ (desk_game self.now).board.cells }
    {
        &self.stones
    }
}
