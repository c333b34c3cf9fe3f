// Answering in pairs, in any game of laying stones: each law on the contract of a function.

ghost use Rattle.std.specs.Prelude.{ℕ, List};
ghost use Rattle.hexboard.specs.Board.{other};
ghost use Rattle.hexboard.specs.Laying.{IsSide, Rules, CanForce, IsPosition};
ghost use Rattle.theorems.specs.Pairs.{IsPairing, HasOneOrNone, IsEnough, WinsAnswering};
ghost use Rattle.theorems.specs.Pairs.{IsAnswered};

/// Where one cell of each pair is enough, a side can force that it wins from every position in
/// which it has one cell of each pair where not both are empty, whoever is to move. If so far each
/// move has been answered in its pair, to go on answering so is a way to win. This needs no law of
/// the game.
pub fn answering_in_pairs()
    ensures theorem { (g : Rules) (s t : ℕ) (partner : ℕ → ℕ) (b : List ℕ) →
        IsSide s → IsSide t → IsPosition g b → IsPairing g.count partner →
        HasOneOrNone s partner b → IsEnough g s partner b → CanForce g s b t }
    ensures answering { (g : Rules) (s : ℕ) (partner : ℕ → ℕ) (b : List ℕ) →
        IsSide s → IsPosition g b → IsPairing g.count partner →
        IsAnswered s partner b → IsEnough g s partner b → WinsAnswering g s partner b }
    ensures forcing { (g : Rules) (s : ℕ) (answer : ℕ → ℕ) (b : List ℕ) →
        WinsAnswering g s answer b → CanForce g s b (other s) }
{}
