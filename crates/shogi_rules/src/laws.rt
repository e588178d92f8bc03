//! What a player knows of the definitions that the other contracts cite.
//!
//! A law is a function that does nothing: its contract is the law.

ghost use Rattle.std.specs.Prelude.{◌≡◌, ℕ, ◌+◌, ◌<◌, ◌≤◌, ◌↔◌, List, [], ◌∷◌, Option, Some, slice_get, length};
ghost use Rattle.shogi_board.specs.Cells.{Cells, at, piece};
ghost use Rattle.shogi_board.specs.Pieces.{opponent};
ghost use Rattle.shogi_board.specs.Placed.{Placed};
ghost use Rattle.shogi_board.specs.Sound.{IsSound};
ghost use Rattle.shogi_board.specs.Reach.{Attack, Reach, InCheck};
ghost use Rattle.shogi_board.specs.Totals.{total};
ghost use Rattle.shogi_board.specs.declared.color.Color.{Color};
ghost use Rattle.shogi_board.specs.declared.kind.Kind.{Kind};
ghost use Rattle.shogi_board.specs.declared.kind.Kind.TheVariants.{King, Pawn, Lance, Knight};
ghost use Rattle.shogi_board.specs.declared.square.Square.{Square};
ghost use Rattle.shogi_board.specs.After.{after};
ghost use Rattle.shogi_rules.specs.Evasions.{MovesFrom, StopsCheck};
ghost use Rattle.shogi_board.specs.Kinds.{rank_for, last_rank};
ghost use Rattle.shogi_board.specs.Legal.{FitsBoard, HasPiece, Keeps, ReachesTarget, Legal, target};
ghost use Rattle.shogi_rules.specs.Order.{IsFirstLegal};
ghost use Rattle.shogi_rules.specs.Play.{Answers};
ghost use Rattle.shogi_rules.specs.Positions.{Played, Over, position_after, IsGame, now_of, all_of};
ghost use Rattle.shogi_rules.specs.Repetition.{times, IsNth};
ghost use Rattle.shogi_rules.specs.Rules.{Kept};
ghost use Rattle.shogi_board.specs.Rules.{all_rules, IsFirstBroken};
ghost use Rattle.shogi_rules.specs.Verdicts.{Stands};
ghost use Rattle.shogi_rules.specs.declared.line.PlayFault.{PlayFault};
ghost use Rattle.shogi_rules.specs.declared.line.Verdict.{Verdict};
ghost use Rattle.shogi_board.specs.declared.moves.Move.{Move};
ghost use Rattle.shogi_board.specs.declared.rule.Rule.{Rule};

pub use shogi_board::laws::ordered_rules;

/// In a sound position no walk of an own piece that reaches its target lands on the enemy king.
pub fn king_never_taken()
    ensures never { (p : Placed) (from to : Square) (kind : Kind) → IsSound p
        → HasPiece p (Move.Walk from to kind) → ReachesTarget p (Move.Walk from to kind)
        → at p.material.board to ≡ piece (opponent p.side) King → ⊥ }
{}

/// A pawn, a lance and a knight reach no square exactly if they are beyond the last rank of their
/// kind, whatever else is on the board.
pub fn last_ranks()
    ensures pawn { (cells : Cells) (color : Color) (a : Square) → at cells a ≡ piece color Pawn
        → (rank_for color a < last_rank Pawn) ↔ ((b : Square) → Reach cells a b → ⊥) }
    ensures lance { (cells : Cells) (color : Color) (a : Square) → at cells a ≡ piece color Lance
        → (rank_for color a < last_rank Lance) ↔ ((b : Square) → Reach cells a b → ⊥) }
    ensures knight { (cells : Cells) (color : Color) (a : Square) → at cells a ≡ piece color Knight
        → (rank_for color a < last_rank Knight) ↔ ((b : Square) → Reach cells a b → ⊥) }
{}

/// A legal move leads from a sound position to a sound one, and so does any that keeps the rules 3
/// to 10.
pub fn legal_move_keeps_soundness()
    ensures sound { (p : Placed) (m : Move) → IsSound p → Legal p m → IsSound (after p m) }
    ensures kept { (p : Placed) (m : Move) → IsSound p → Keeps p m → IsSound (after p m) }
{}

/// A game leads from a sound position to a sound one.
pub fn game_keeps_soundness()
    ensures sound { (start : Placed) (moves : List Move) → IsSound start → IsGame start moves
        → IsSound (position_after start moves) }
{}

/// A legal move adds no piece and takes none: of each kind, promoted pieces counted with their
/// unpromoted kind, there are as many on the board and in both hands as before.
pub fn pieces_stay()
    ensures totals { (p : Placed) (m : Move) (kind : Kind) → IsSound p → Legal p m
        → total (after p m).material kind ≡ total p.material kind }
{}

/// A legal move leaves its mover's king safe.
pub fn mover_not_in_check()
    ensures safe { (p : Placed) (m : Move) → Legal p m → InCheck (after p m).material.board p.side
        → ⊥ }
{}

/// In check, a move that keeps the rules 3 to 9, but neither moves the king nor captures the
/// checking piece nor puts one between, leaves the king where it is and attacked by that piece. So
/// no such move keeps rule 10.
pub fn only_evasions_end_check()
    ensures attacked { (p : Placed) (m : Move) (checker king : Square) → IsSound p → FitsBoard p m
        → at p.material.board king ≡ piece p.side King → Attack p.material.board p.side checker king
        → (MovesFrom king m → ⊥) → (StopsCheck checker king (target m) → ⊥)
        → (at (after p m).material.board king ≡ piece p.side King)
        × Attack (after p m).material.board p.side checker king }
    ensures refused { (p : Placed) (m : Move) (checker king : Square) → IsSound p → Keeps p m
        → at p.material.board king ≡ piece p.side King → Attack p.material.board p.side checker king
        → (MovesFrom king m → ⊥) → (StopsCheck checker king (target m) → ⊥) → ⊥ }
{}

/// After a move the other side is to move.
pub fn other_side_moves()
    ensures turn { (p : Placed) (m : Move) → (after p m).side ≡ opponent p.side }
{}

/// At most one rule is the first that a move breaks.
pub fn one_first_broken_rule()
    ensures once { (line : Played) (color : Color) (m : Move) (a b : Option Rule)
        → IsFirstBroken (Kept line color m) all_rules a
        → IsFirstBroken (Kept line color m) all_rules b → a ≡ b }
{}

/// Each move of a side has an answer: some rule, or none, is the first that it breaks.
pub fn some_first_broken_rule()
    ensures answer { (line : Played) (color : Color) (m : Move)
        → (answer : Option Rule) × IsFirstBroken (Kept line color m) all_rules answer }
{}

/// A move that is to be played has at most one answer, lack of memory aside.
pub fn one_answer()
    ensures once { (line : Played) (color : Color) (m : Move) (a b : Option PlayFault)
        → Answers line color m a → Answers line color m b → a ≡ b }
{}

/// A move that is to be played has an answer, lack of memory aside.
pub fn some_answer()
    ensures answer { (line : Played) (color : Color) (m : Move)
        → (answer : Option PlayFault) × Answers line color m answer }
{}

/// At most one move is the first legal one.
pub fn one_first_legal()
    ensures once { (p : Placed) (m n : Move) → IsFirstLegal p m → IsFirstLegal p n → m ≡ n }
{}

/// `times` counts the positions of a list that are equal to the given one.
pub fn times_counts_equal_positions()
    ensures none { (p : Placed) → times [] p ≡ 0 }
    ensures more { (ps : List Placed) (p q : Placed)
        → (times (p ∷ ps) q ≡ times ps q + 1) ↔ (p ≡ q) }
    ensures same { (ps : List Placed) (p q : Placed) → (p ≡ q → ⊥) → times (p ∷ ps) q ≡ times ps q }
{}

/// A position occurs for the n-th time at one place of a list.
pub fn nth_place_once()
    ensures once { (ps : List Placed) (p : Placed) (n i j : ℕ) → IsNth ps p n i → IsNth ps p n j
        → i ≡ j }
{}

/// No two verdicts hold together.
pub fn one_verdict()
    ensures once { (line : Played) (u v : Verdict) → Stands line u → Stands line v → u ≡ v }
{}

/// Each line has a verdict.
pub fn some_verdict()
    ensures verdict { (line : Played) → (verdict : Verdict) × Stands line verdict }
{}

/// The position that a line's moves lead to is the last of its positions.
pub fn now_stands_last()
    ensures last { (line : Played)
        → slice_get (all_of line) (length line.moves) ≡ Some (now_of line) }
    ensures all { (line : Played) → length (all_of line) ≡ length line.moves + 1 }
{}

/// Of a game's positions only the last can occur for the fourth time, and it does so at the last
/// place.
pub fn fourth_stands_last()
    ensures last { (line : Played) (p : Placed) → IsGame line.start line.moves
        → 4 ≤ times (all_of line) p → p ≡ now_of line }
    ensures place { (line : Played) → IsGame line.start line.moves
        → Over line
        → IsNth (all_of line) (now_of line) 4 (length line.moves) }
{}
