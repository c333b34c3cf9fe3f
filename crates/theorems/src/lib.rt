// The theorems for boards of every size, each on the contract of a function: the statement, and
// what follows from it for somebody who plays. The functions have nothing to do; that they are
// proved is what they are for. `laying` has the laws of forcing for any game of laying stones,
// `pairs` those of answering in pairs, `rhombi` what holds of boards that need not be square, and
// `worked` games on a small board, answer by answer.
#![tactic(auto)]

mod laying;
mod pairs;
mod rhombi;
mod worked;

ghost use Rattle.std.specs.Prelude.{◌≡◌, ℕ, ◌<◌, true, ◌⊎◌, List, map};
ghost use Rattle.hexboard.specs.Board.{Board, is_way, Connects, empty, empties, other};
ghost use Rattle.hexboard.specs.Games.{Forces};
ghost use Rattle.hexboard.specs.Promise.{Good, across, Turned};
ghost use Rattle.hexboard.specs.Promise.{NeverBoth, NeverNeither, FirstWins, OneOfBoth, NeverALoss};
ghost use Rattle.hexboard.specs.Promise.{TurnedOver};

pub use laying::{
    better_is_no_loss, mover_can_force, one_can_force, renamed_alike, squares_are_lawful,
};
pub use pairs::answering_in_pairs;
pub use rhombi::{
    first_wins_exactly_on_squares, partners_pair_off, rhombi_are_lawful, shorter_way_wins,
    squares_are_rhombi,
};
pub use worked::{
    nobody_has_connected, rules_settle, search_decides, side_one_connects_after_two_taken_back,
};

/// On no board do both sides connect: who has connected need not look whether the other has.
pub fn never_both()
    ensures theorem { NeverBoth }
    ensures alone { (b : Board) (s : ℕ) → Good b → (s ≡ 1) ⊎ (s ≡ 2) → Connects b s →
        Connects b (other s) → ⊥ }
{}

/// On a board without empty cells one side connects: who has not has lost.
pub fn never_neither()
    ensures theorem { NeverNeither }
    ensures lost { (b : Board) (s : ℕ) → Good b → (s ≡ 1) ⊎ (s ≡ 2) → empties b.cells ≡ 0 →
        (Connects b s → ⊥) → Connects b (other s) }
{}

/// On an empty board the side to move, whichever it is, can force that it connects: the other
/// cannot.
pub fn first_wins()
    ensures theorem { FirstWins }
    ensures mover { (n s : ℕ) → 0 < n → (s ≡ 1) ⊎ (s ≡ 2) → Forces s (empty n) s }
    ensures second { (n s : ℕ) → 0 < n → (s ≡ 1) ⊎ (s ≡ 2) → Forces (other s) (empty n) s → ⊥ }
{}

/// In every position exactly one of the two can force that it connects: if a side cannot, the other
/// can. By `Forces` play goes on after the other side has connected, which changes nothing: then it
/// cannot be forced any more, as `beaten` says.
pub fn one_of_both()
    ensures theorem { OneOfBoth }
    ensures decided { (b : Board) (s t : ℕ) → Good b → (s ≡ 1) ⊎ (s ≡ 2) → (t ≡ 1) ⊎ (t ≡ 2) →
        (Forces s b t → ⊥) → Forces (other s) b t }
    ensures beaten { (b : Board) (s t : ℕ) → Good b → (s ≡ 1) ⊎ (s ≡ 2) → Connects b (other s) →
        Forces s b t → ⊥ }
{}

/// A stone more is never a loss, nor is having the move.
pub fn never_a_loss()
    ensures theorem { NeverALoss }
    ensures turn { (b : Board) (s : ℕ) → (s ≡ 1) ⊎ (s ≡ 2) → Forces s b (other s) → Forces s b s }
{}

/// With rows and columns exchanged, and the sides, each has what the other had: what it can force,
/// and its ways, each cell across.
pub fn turned_over()
    ensures theorem { TurnedOver }
    ensures ways { (b c : Board) (s : ℕ) (w : List ℕ) → Good b → Turned b c → (s ≡ 1) ⊎ (s ≡ 2) →
        is_way b s w ≡ true → is_way c (other s) (map (across b.wide) w) ≡ true }
{}
