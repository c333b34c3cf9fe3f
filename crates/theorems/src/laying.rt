// What a side can force in any game of laying stones, whatever its board looks like: laws for all
// lawful rules, each on the contract of a function, and that the board of six-sided cells is
// lawful.

ghost use Rattle.std.specs.Prelude.{ℕ, ◌<◌, ◌↔◌, List};
ghost use Rattle.hexboard.specs.Board.{Board};
ghost use Rattle.hexboard.specs.Games.{Forces};
ghost use Rattle.hexboard.specs.Geometry.{laid};
ghost use Rattle.hexboard.specs.Laying.{Rules, CanForce, IsPosition, KeepsWins, IsLawful};
ghost use Rattle.hexboard.specs.Laying.{Exchanges, square_rules};
ghost use Rattle.hexboard.specs.Promise.{Good, across};
ghost use Rattle.theorems.specs.Forcing.{BetterIsNoLoss, StoneIsNoLoss, MoveIsNoLoss};
ghost use Rattle.theorems.specs.Forcing.{FullIsOver, OneCanForce, BeatenForcesNothing};
ghost use Rattle.theorems.specs.Forcing.{ForcesRenamed, MoverCanForce, FirstCanForce};

/// In a game that keeps wins, what is better for a side is never a loss.
pub fn better_is_no_loss()
    ensures theorem { (g : Rules) → KeepsWins g → BetterIsNoLoss g }
    ensures stone { (g : Rules) → KeepsWins g → StoneIsNoLoss g }
    ensures turn { (g : Rules) → KeepsWins g → MoveIsNoLoss g }
{}

/// In every position exactly one of the two can force that it wins. Against a side that has won the
/// other can force nothing, and with no cell empty nothing is left to be forced.
pub fn one_can_force()
    ensures theorem { (g : Rules) → IsLawful g → OneCanForce g }
    ensures beaten { (g : Rules) → IsLawful g → BeatenForcesNothing g }
    ensures full { (g : Rules) → FullIsOver g }
{}

/// With the cells renamed and the sides exchanged, each side can force what the other could.
pub fn renamed_alike()
    ensures theorem { (g h : Rules) (f back : ℕ → ℕ) → Exchanges g h f back → ForcesRenamed g h f }
{}

/// In a game that is itself with the sides exchanged, whoever is to move can force that it wins: on
/// the empty board, and in every position that is the same for both sides.
pub fn mover_can_force()
    ensures theorem { (g : Rules) (f back : ℕ → ℕ) →
        IsLawful g → Exchanges g g f back → MoverCanForce g f }
    ensures first { (g : Rules) (f back : ℕ → ℕ) →
        IsLawful g → Exchanges g g f back → FirstCanForce g }
{}

/// The board of six-sided cells is a lawful game, and itself with the sides exchanged. Its boards
/// are the game's positions, and what a side can force on a board is what it can force in the game.
pub fn squares_are_lawful()
    ensures lawful { (n : ℕ) → 0 < n → IsLawful (square_rules n) }
    ensures turned { (n : ℕ) → 0 < n →
        Exchanges (square_rules n) (square_rules n) (across n) (across n) }
    ensures positions { (n : ℕ) (cells : List ℕ) → 0 < n →
        (Good (laid n cells) ↔ IsPosition (square_rules n) cells) }
    ensures forcing { (b : Board) (s t : ℕ) →
        (Forces s b t ↔ CanForce (square_rules b.wide) s b.cells t) }
{}
