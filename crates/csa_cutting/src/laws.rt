//! Laws of the definitions that this crate's contracts cite. The functions take no arguments and
//! return nothing: their contracts are what is proved.

ghost use Rattle.std.specs.Prelude.{◌≡◌, ℕ, ◌+◌, ◌≤◌, ◌⊎◌, true, false, List, [], ◌∷◌, ◌++◌, ◌↔◌, drop, slice_range, Option, None, Some, Result, Ok, Err, IfOk, IfErr, IsErrOf};
ghost use Rattle.std.specs.Borrow.{Bor};
ghost use Rattle.csa_cutting.specs.Cut.{TextUnit, Units, IsCut, Statements, mark_length, statement_bytes, longest_statement};
ghost use Rattle.csa_cutting.specs.Cutting.{Cutting, ToCome, IfHandedOut, IsFirstStatement, IsHandedOut, IsTooLong, unit_between};
ghost use Rattle.csa_cutting.specs.Lines.{Lines};
ghost use Rattle.csa_cutting.specs.LineCutting.{LineCutting, BeginsTooLong, HasLongLine, LineAnswer, LineStep, LinesAfter, LastLine};
ghost use Rattle.csa_cutting.specs.ClosedStatements.{Closed};
ghost use Rattle.csa_cutting.specs.PieceCutting.{PieceCutting, fresh};
ghost use Rattle.csa_cutting.specs.PieceSteps.{AfterStep, AfterEnd, Last, IsTooLongAt, Stepped, Finished};
ghost use Rattle.csa_cutting.specs.TooLong.{FirstTooLong};
ghost use Rattle.csa_cutting.specs.WholeRun.{AreNumbered, AreStatementsOf, given, Answered, all_used, all_given, HandedOut, all_stated, LineAnswers, all_taken, line_given, all_lines};
ghost use Rattle.csa_cutting.specs.declared.cutter.CutFault.{CutFault};
ghost use Rattle.csa_cutting.specs.declared.line.LineFault.TheVariants.{TooLong};
ghost use Rattle.csa_cutting.specs.declared.cutter.Statement.{Statement};
ghost use Rattle.csa_cutting.specs.declared.piece.Cut.{Cut as Step};

/// At any offset, a text has exactly one list of units, comments among them, and exactly one list
/// of statements. So a source is cut in exactly one way.
pub fn cut_once()
    ensures units { (offset : ℕ) (text : List ℕ) → (units : List TextUnit) × Units offset text units
        × ((others : List TextUnit) → Units offset text others → others ≡ units) }
    ensures anywhere { (offset : ℕ) (text : List ℕ)
        → (statements : List TextUnit) × Statements offset text statements
        × ((others : List TextUnit) → Statements offset text others → others ≡ statements) }
    ensures source { (source : List ℕ) → (statements : List TextUnit) × IsCut source statements
        × ((others : List TextUnit) → IsCut source others → others ≡ statements) }
{}

/// If `IsFirstStatement` holds of two places, the unit between them is the first statement, and the
/// statements after it follow.
pub fn first_is_stated()
    ensures stated { (source : List ℕ) (from start end : ℕ) (others : List TextUnit)
        → IsFirstStatement source from start end
        → Statements end (drop end source) others
        → Statements from (drop from source) (unit_between source start end ∷ others) }
{}

/// Bytes have exactly one list of lines and one unfinished rest.
pub fn lines_once()
    ensures lines { (bytes : List ℕ)
        → (lines : List (List ℕ)) × (rest : List ℕ) × Lines bytes lines rest
        × ((others : List (List ℕ)) (other : List ℕ) → Lines bytes others other
        → (others ≡ lines) × (other ≡ rest)) }
{}

/// A source has exactly one list of closed statements.
pub fn closed_once()
    ensures closed { (source : List ℕ) → (closed : List TextUnit) × Closed source closed
        × ((others : List TextUnit) → Closed source others → others ≡ closed) }
{}

/// A source has at most one first statement that is too long.
pub fn too_long_once()
    ensures first { (source : List ℕ) (m n i j : ℕ) → FirstTooLong source m i
        → FirstTooLong source n j → (m ≡ n) × (i ≡ j) }
{}

/// The clauses `going`, `fault`, `place` and `after` of `PieceCutter::step` say together exactly
/// what `Stepped` says, which `pieces_run` is about.
pub fn step_whole()
    ensures stated { (old new : PieceCutting) (piece : List ℕ) (result : Result Step CutFault)
        → (IfOk result (λ _. old.refused ≡ None)
        × IfErr result (λ f. f.number ≡ old.number + 1)
        × IfErr result (λ f. IsTooLongAt old.refused old piece f.offset)
        × AfterStep old piece result new)
        ↔ Stepped old piece result new }
{}

/// The clauses `going`, `last`, `fault`, `place` and `after` of `PieceCutter::finish` say together
/// exactly what `Finished` says.
pub fn finish_whole()
    ensures stated { (old new : PieceCutting) (result : Result (Option Statement) CutFault)
        → (IfOk result (λ _. old.refused ≡ None)
        × IfOk result (λ last. Last old last)
        × IfErr result (λ f. f.number ≡ old.number + 1)
        × IfErr result (λ f. old.refused ≡ Some f.offset)
        × AfterEnd old result new)
        ↔ Finished old result new }
{}

/// The clauses `first`, `number`, `counted`, `bytes` and `limit` of `Cutter::next_statement` say
/// together exactly what `IsHandedOut` says, which `cutter_run` is about.
pub fn next_whole()
    ensures stated { (old new : Cutting) (result : Result (Option Statement) CutFault)
        → (IfHandedOut result (λ s. IsFirstStatement old.source old.at s.offset new.at)
        × IfHandedOut result (λ s. s.number ≡ old.number + 1)
        × IfHandedOut result (λ s. new.number ≡ s.number)
        × IfHandedOut result
        (λ s. s.bytes.now ≡ statement_bytes (slice_range old.source s.offset new.at))
        × IfHandedOut result (λ s. new.at ≤ s.offset + longest_statement))
        ↔ IfHandedOut result (λ s. IsHandedOut old new s.number s.offset s.bytes.now) }
{}

/// Over a whole run of steps, in any pieces, a new `PieceCutter` yields the closed statements of
/// the bytes that were used; with the one from `finish` these are all statements. Its `CutFault`
/// names the first statement that is too long, whatever follows the piece.
pub fn pieces_run()
    ensures so_far { (steps : List (List ℕ × Step)) (p : PieceCutting) → Answered fresh steps p
        → (closed : List TextUnit) × Closed (all_used steps) closed
        × AreNumbered 0 closed (all_given steps) }
    ensures finished { (steps : List (List ℕ × Step)) (last : Option Statement) (p q : PieceCutting)
        → Answered fresh steps p → Finished p (Ok last) q
        → AreStatementsOf (all_used steps) (all_given steps ++ given last) }
    ensures refused { (steps : List (List ℕ × Step)) (piece more : List ℕ) (fault : CutFault)
        (p q : PieceCutting)
        → Answered fresh steps p → Stepped p piece (Err fault) q
        → FirstTooLong ((all_used steps ++ piece) ++ more) fault.number fault.offset }
{}

/// Up to its end, a new `Cutter` yields the statements of its source, and its `CutFault` names the
/// first one that is too long.
pub fn cutter_run()
    ensures finished { (gave : List Statement) (c d : Cutting) → c.at ≡ mark_length c.source
        → c.number ≡ 0
        → HandedOut c gave d → ToCome d [] → AreStatementsOf c.source gave }
    ensures refused { (gave : List Statement) (c d : Cutting) (number offset : ℕ)
        → c.at ≡ mark_length c.source → c.number ≡ 0
        → HandedOut c gave d → IsTooLong d number offset → FirstTooLong c.source number offset }
{}

/// If all statements of a source have been yielded, none of them is too long.
pub fn never_both()
    ensures never { (source : List ℕ) (gave : List Statement) (number offset : ℕ)
        → AreStatementsOf source gave → FirstTooLong source number offset → ⊥ }
{}

/// Both cutters yield the statements of a source with the same numbers, offsets and bytes.
pub fn statements_alike()
    ensures alike { (source : List ℕ) (a b : List Statement) → AreStatementsOf source a
        → AreStatementsOf source b → all_stated a ≡ all_stated b }
{}

/// If a `LineCutter` step returns no fault, its clauses `long`, `lines` and `rests` say together
/// exactly two things: that the cutter had not failed, and what `LineAnswers`, which `lines_run` is
/// about, asks of one step.
pub fn line_step_whole()
    ensures stated { (old new : LineCutting) (piece : List ℕ) (answer : LineAnswer)
        → ((IsErrOf (Ok answer) TooLong
        ↔ ((old.failed ≡ true) ⊎ BeginsTooLong old.limit (old.held ++ piece)))
        × LineStep old.held piece answer
        × LinesAfter old piece (Ok answer) new)
        ↔ ((old.failed ≡ false) × LineAnswers old ((piece, answer) ∷ []) new) }
{}

/// Over a whole run of steps, in any pieces, a new `LineCutter` yields the lines of the bytes that
/// were used and holds their rest, and no line is over the limit. If it returns `TooLong`, the
/// bytes together with that piece have a line over the limit. With the line from `finish` these are
/// all lines of the bytes: the end of the bytes ends the last line as LF does.
pub fn lines_run()
    ensures lines { (steps : List (List ℕ × LineAnswer)) (old new : LineCutting)
        → old.held ≡ [] → LineAnswers old steps new
        → Lines (all_taken steps) (all_lines steps) new.held }
    ensures short { (steps : List (List ℕ × LineAnswer)) (old new : LineCutting)
        → old.held ≡ [] → LineAnswers old steps new → HasLongLine old.limit (all_taken steps) → ⊥ }
    ensures long { (steps : List (List ℕ × LineAnswer)) (old new : LineCutting) (piece : List ℕ)
        → old.held ≡ [] → LineAnswers old steps new → BeginsTooLong new.limit (new.held ++ piece)
        → HasLongLine old.limit (all_taken steps ++ piece) }
    ensures finished { (steps : List (List ℕ × LineAnswer)) (old new : LineCutting)
        (last : Option (Bor (List ℕ)))
        → old.held ≡ [] → LineAnswers old steps new → LastLine new.held last
        → Lines (all_taken steps ++ 10 ∷ []) (all_lines steps ++ line_given last) [] }
{}
