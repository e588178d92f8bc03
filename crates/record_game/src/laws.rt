//! Laws of the definitions that this crate's contracts cite. The functions take no arguments and
//! return nothing: their contracts are what is proved.

ghost use Rattle.std.specs.Prelude.{◌≤◌, ◌++◌, length, ◌≡◌, ◌⊎◌, ◌↔◌, ℕ, List, [], Ok, Result, drop, filter};
ghost use Rattle.record_game.specs.Closed.{ClosedAt};
ghost use Rattle.record_game.specs.Canon.{canon};
ghost use Rattle.record_game.specs.Game.{Game};
ghost use Rattle.record_game.specs.Items.{is_even, positions};
ghost use Rattle.record_game.specs.Limits.{IsGame};
ghost use Rattle.record_game.specs.LaidOut as starts;
ghost use Rattle.record_game.specs.Pieces.{joined, ReadsPieces};
ghost use Rattle.record_game.specs.Placings.{placings};
ghost use Rattle.record_game.specs.Rearranged.{IsRearranged, IsVersionFirst};
ghost use Rattle.record_game.specs.Refused.{Refused, TellsAlone, RefusedAlone};
ghost use Rattle.record_game.specs.Tells.{Tells, IsSpelt};
ghost use Rattle.record_game.specs.Union.{GiveStart, IsUnion, first_board, rest_given, with_rest_given};
ghost use Rattle.csa_cutting.specs.Cut.{TextUnit, IsCut};
ghost use Rattle.csa_text.specs.Saying.{Saying};
ghost use Rattle.csa_text.specs.Spelling.{Spells};
ghost use Rattle.shogi_board.specs.Layout.{Layout};
ghost use Rattle.shogi_board.specs.Setup.{position_of};
ghost use Rattle.shogi_board.specs.Totals.{IsWithinTotals};
ghost use Rattle.shogi_board.specs.declared.color.Color.{Color};
ghost use Rattle.std.specs.List.{AllByRecursion, AllZip, filter_map};
ghost use Rattle.record_game.specs.declared.fault.Refusal.{Refusal};
ghost use Rattle.record_game.specs.declared.fault.Why.{Why};

/// All bytes contain exactly one game or are refused in exactly one way, and never both.
pub fn told_once()
    ensures once { (source : List ℕ) → TellsAlone source ⊎ RefusedAlone source }
{}

/// The canonical text of a game contains that game.
pub fn canon_tells()
    ensures tells { (g : Game) → IsGame g → Tells (canon g) g }
{}

/// Two games have equal canonical texts exactly if they are equal.
pub fn canon_equal()
    ensures equal { (g h : Game) → IsGame g → IsGame h → ((canon g ≡ canon h) ↔ (g ≡ h)) }
{}

/// Bytes contain at most one game.
pub fn one_game()
    ensures once { (source : List ℕ) (g h : Game) → Tells source g → Tells source h → g ≡ h }
{}

/// If the items of two records differ only in a version, in where names and headers are, and in the
/// order of the headers, then both records contain the same game and have the same canonical text.
/// Comments are not items, so they may differ too.
pub fn headers_anywhere()
    ensures game { (source other : List ℕ) (g h : Game) (stated : Tells source g)
        (again : Tells other h)
        → IsRearranged stated.sayings again.sayings → g ≡ h }
    ensures text { (source other : List ℕ) (g h : Game) (stated : Tells source g)
        (again : Tells other h)
        → IsRearranged stated.sayings again.sayings → canon g ≡ canon h }
{}

/// A record stays accepted, with the same game, if its names and headers are moved. The version is
/// the first item if there is one.
pub fn moved_headers()
    ensures accepted { (source other : List ℕ) (g : Game) (stated : Tells source g)
        (statements : List TextUnit) (sayings : List Saying)
        → IsCut other statements → AllZip IsSpelt statements sayings
        → IsVersionFirst sayings → IsRearranged stated.sayings sayings → Tells other g }
{}

/// Bytes are refused in at most one way: at one statement, at one offset, for one reason.
pub fn one_refusal()
    ensures once { (source : List ℕ) (n m offset other : ℕ) (v w : Why) → Refused source n offset v
        → Refused source m other w
        → (m ≡ n) × (other ≡ offset) × (w ≡ v) }
{}

/// What position statements place one after another, with `PI` first if they contain it, is the
/// union of what each places. In the union their order does not matter, except that `PI` comes
/// first and the remaining pieces come last.
pub fn laid_out()
    ensures places { (sayings : List Saying) (laid : Layout) (side : Color)
        → AllByRecursion (λ s. (bytes : List ℕ) × Spells bytes s) sayings
        → filter is_even (drop 1 (positions sayings)) ≡ [] → starts.laid_out sayings ≡ Ok laid
        → GiveStart (positions sayings) (position_of laid side) }
{}

/// The union of what position statements place, with `PI` first if they contain it, can be placed
/// one after another, if no total is exceeded before the remaining pieces are given.
pub fn union_placed()
    ensures laid { (sayings : List Saying) (placed : Layout)
        → AllByRecursion (λ s. (bytes : List ℕ) × Spells bytes s) sayings
        → filter is_even (drop 1 (positions sayings)) ≡ []
        → IsUnion (first_board (positions sayings)) (placings (positions sayings)) placed
        → IsWithinTotals placed.material
        → starts.laid_out sayings
        ≡ Ok (with_rest_given (filter_map rest_given (placings (positions sayings))) placed) }
{}

/// If bytes are refused whatever follows them, the fault is that of a statement that they close,
/// and of the first closed one with a fault.
pub fn refused_when_closed()
    ensures closed { (source : List ℕ) (number offset : ℕ) (why : Why)
        → ((more : List ℕ) → Refused (source ++ more) number offset why)
        → ClosedAt source number offset why }
{}

/// However a record is cut into pieces, what is read is the same: the game, or the number, the
/// offset and the reason of the refusal. Memory is not considered.
pub fn cuttings_alike()
    ensures same { (pieces others : List (List ℕ)) (a b : Result Game Refusal)
        → joined pieces ≡ joined others → ReadsPieces pieces a → ReadsPieces others b → a ≡ b }
{}
