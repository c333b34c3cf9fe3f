// Boards w wide and t tall, for every w and t of at least 1: they are lawful games, squares are
// among them, and on all others the side with the shorter way wins, whoever begins. Each theorem is
// on the contract of a function.

ghost use Rattle.std.specs.Prelude.{◌≡◌, ℕ, ◌*◌, ◌<◌, [], ◌∷◌, map, replicate};
ghost use Rattle.hexboard.specs.Laying.{IsSide, CanForce, IsLawful, Exchanges};
ghost use Rattle.hexboard.specs.Shapes.{IsFair, shape_rules, rhombus, turned};
ghost use Rattle.theorems.specs.Forcing.{OneCanForce, StoneIsNoLoss, MoveIsNoLoss};
ghost use Rattle.theorems.specs.Rhombi.{SquaresAreRhombi};
ghost use Rattle.theorems.specs.Shorter.{partner, PartnersPairOff, PartnersAreEnough};
ghost use Rattle.theorems.specs.Shorter.{PartnersCanForce, PartnersAnswer};
ghost use Rattle.theorems.specs.Shorter.{ShorterCanForce, FirstExactlyOnSquares};

/// On every board both sides never connect, and with no cell empty one does. So exactly one of the
/// two can force that it connects, a stone more is never a loss, and to be to move is none. Turned
/// over, a board is the one with width and height exchanged, and the sides.
pub fn rhombi_are_lawful()
    ensures theorem { (w t : ℕ) → 0 < w → 0 < t → IsLawful (shape_rules (rhombus w t)) }
    ensures fair { (w t : ℕ) → IsFair (rhombus w t) }
    ensures one { (w t : ℕ) → 0 < w → 0 < t → OneCanForce (shape_rules (rhombus w t)) }
    ensures stone { (w t : ℕ) → StoneIsNoLoss (shape_rules (rhombus w t)) }
    ensures turn { (w t : ℕ) → MoveIsNoLoss (shape_rules (rhombus w t)) }
    ensures over { (w t : ℕ) → Exchanges (shape_rules (rhombus w t)) (shape_rules (rhombus t w))
        (turned w t) (turned t w) }
{}

/// A board n wide and n tall is the board w wide and t tall with w and t both n.
pub fn squares_are_rhombi()
    ensures { SquaresAreRhombi }
{}

/// The partners of the cells are a pairing. On the board five wide and three tall:
///
///     a b c c .
///      d e e b .
///       f f d a .
pub fn partners_pair_off()
    ensures theorem { PartnersPairOff }
    ensures drawn { map (partner 5 3)
        (0 ∷ 1 ∷ 2 ∷ 3 ∷ 4 ∷ 5 ∷ 6 ∷ 7 ∷ 8 ∷ 9 ∷ 10 ∷ 11 ∷ 12 ∷ 13 ∷ 14 ∷ [])
        ≡ (13 ∷ 8 ∷ 3 ∷ 2 ∷ 4 ∷ 12 ∷ 7 ∷ 6 ∷ 1 ∷ 9 ∷ 11 ∷ 10 ∷ 5 ∷ 0 ∷ 14 ∷ []) }
{}

/// On a board that is not square the side with the shorter way can force that it connects, also if
/// the other begins; so the other cannot. It can from every position in which it has one cell of
/// each pair of partners where not both are empty. If width and height differ by one, it wins by
/// answering each move on the partner of its cell.
pub fn shorter_way_wins()
    ensures theorem { ShorterCanForce }
    ensures wide { (w t s : ℕ) → 0 < t → t < w → IsSide s →
        CanForce (shape_rules (rhombus w t)) 1 (replicate (w * t) 0) s }
    ensures tall { (w t s : ℕ) → 0 < w → w < t → IsSide s →
        CanForce (shape_rules (rhombus w t)) 2 (replicate (w * t) 0) s }
    ensures enough { PartnersAreEnough }
    ensures held { PartnersCanForce }
    ensures answering { PartnersAnswer }
{}

/// Whoever begins can force that it connects on squares, and on no other board. On the board one
/// wide and two tall side 1 has to join top and bottom, and loses though it begins.
pub fn first_wins_exactly_on_squares()
    ensures theorem { FirstExactlyOnSquares }
    ensures one_by_two { CanForce (shape_rules (rhombus 1 2)) 1 (replicate 2 0) 1 → ⊥ }
    ensures second { CanForce (shape_rules (rhombus 1 2)) 2 (replicate 2 0) 1 }
{}
