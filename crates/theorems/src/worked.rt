// What the rules settle, the search for a way, and games worked by hand on the board three wide,
// each the contract of a function. The functions have nothing to do; that they are proved is what
// they are for.
ghost use Rattle.std.specs.Prelude.{ℕ, ◌≢◌, ◌↔◌, [], ◌∷◌, ◌++◌, map, IsTrue};
ghost use Rattle.hexboard.specs.Board.{Board, Connects};
ghost use Rattle.hexboard.specs.Games.{moves, back, who, refused, number, way};
ghost use Rattle.theorems.specs.Search.{finds_way};
ghost use Rattle.theorems.specs.Settled.{RulesSettle};
ghost use Rattle.theorems.specs.Worked.{AreOnlyRight, EndsInShortest};

/// The rules leave no choice of an answer but which way of a side is shown, and what is said of
/// forcing.
pub fn rules_settle()
    ensures { RulesSettle }
{}

/// On a board of any size the search finds a way of a side exactly when there is one.
pub fn search_decides()
    ensures { (b : Board) (s : ℕ) → s ≢ 0 → (IsTrue (finds_way b s) ↔ Connects b s) }
{}

/// Seven moves after which nobody has connected: side 1 has no stone in the top row, and side 2's
/// only one in the right column has none of its own beside it.
///
///     2 . 2
///      2 1 1
///       1 . 1
pub fn nobody_has_connected()
    ensures { AreOnlyRight 3 (map moves (4 ∷ 0 ∷ 8 ∷ 2 ∷ 6 ∷ 3 ∷ 5 ∷ []) ++ who ∷ [])
        (map number (0 ∷ 1 ∷ 2 ∷ 3 ∷ 4 ∷ 5 ∷ 6 ∷ 0 ∷ [])) }
{}

/// Then side 2 connects from the left column to the right column, and no move is made any more. Two
/// moves are taken back, and side 1 moves to that cell itself: it leads from the top row to the
/// bottom row, down and to the left.
///
///     2 2 2        2 1 2
///      2 1 1        2 1 .
///       1 . 1        1 . 1
pub fn side_one_connects_after_two_taken_back()
    ensures { EndsInShortest 3
        (map moves (4 ∷ 0 ∷ 8 ∷ 2 ∷ 6 ∷ 3 ∷ 5 ∷ []) ++ who ∷ moves 1 ∷ who ∷ moves 7
        ∷ back ∷ back ∷ moves 1 ∷ [])
        (map number (0 ∷ 1 ∷ 2 ∷ 3 ∷ 4 ∷ 5 ∷ 6 ∷ 0 ∷ 7 ∷ []) ++ way 2 (0 ∷ 1 ∷ 2 ∷ []) ∷ refused 4 0
        ∷ number 7 ∷ number 6 ∷ number 6 ∷ [])
        1 (1 ∷ 4 ∷ 6 ∷ []) }
{}
