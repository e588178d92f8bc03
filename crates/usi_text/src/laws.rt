//! Laws of the definitions that this crate's contracts cite. The functions take no arguments and
//! return nothing: their contracts are what is proved.

ghost use Rattle.std.specs.Prelude.{◌≡◌, ◌≤◌, ◌⊎◌, ℕ, List, Option, None, length};
ghost use Rattle.shogi_board.specs.declared.color.Color.{Color};
ghost use Rattle.shogi_board.specs.declared.kind.Piece.{Piece};
ghost use Rattle.shogi_board.specs.declared.setup.SetupFault.{SetupFault};
ghost use Rattle.shogi_board.specs.declared.setup.SetupFault.TheVariants.{SecondKing, TooMany, OpponentInCheck};
ghost use Rattle.shogi_board.specs.Pieces.{opponent};
ghost use Rattle.shogi_board.specs.Placed.{Placed};
ghost use Rattle.shogi_board.specs.Reach.{InCheck};
ghost use Rattle.shogi_board.specs.Sound.{IsSound};
ghost use Rattle.shogi_board.specs.Totals.{IsWithinTotals};
ghost use Rattle.shogi_board.specs.declared.moves.Move.{Move};
ghost use Rattle.shogi_rules.specs.Positions.{IsGame, max_moves};
ghost use Rattle.usi_text.specs.declared.engine.EngineWord.{EngineWord};
ghost use Rattle.usi_text.specs.declared.fault.SfenFault.{SfenFault};
ghost use Rattle.usi_text.specs.declared.fault.SfenFault.TheVariants.{Start};
ghost use Rattle.usi_text.specs.declared.fault.UsiFault.{UsiFault};
ghost use Rattle.usi_text.specs.Boards.{SpellsBoard};
ghost use Rattle.usi_text.specs.Contents.{HasCells, HasPiles, IsWithinGame, FirstExcess, text_pieces};
ghost use Rattle.usi_text.specs.Engine.{LineSays, text_in};
ghost use Rattle.usi_text.specs.Hands.{Pile, SpellsHands};
ghost use Rattle.usi_text.specs.LineText.{LineText};
ghost use Rattle.usi_text.specs.Lines.{UsiLine, LineFault};
ghost use Rattle.usi_text.specs.Moves.{UsiMove};
ghost use Rattle.usi_text.specs.Sfen.{Sfen, FirstFault, Shape};
ghost use Rattle.usi_text.specs.SfenText.{sfen_text};
ghost use Rattle.usi_text.specs.Words.{words, nth_word};

/// Words are the SFEN of exactly one position, or they have exactly one first fault, and never
/// both.
pub fn sfen_once()
    ensures one { (ws : List (List ℕ)) (p q : Placed) → Sfen ws p → Sfen ws q → p ≡ q }
    ensures either { (ws : List (List ℕ)) (p : Placed) (fault : SfenFault) → Sfen ws p
        → FirstFault ws fault → ⊥ }
    ensures first { (ws : List (List ℕ)) (fault other : SfenFault) → FirstFault ws fault
        → FirstFault ws other → fault ≡ other }
    ensures some { (ws : List (List ℕ)) → ((p : Placed) → Sfen ws p → ⊥)
        → ((fault : SfenFault) → FirstFault ws fault → ⊥) → ⊥ }
{}

/// The pieces of an SFEN are refused only with SecondKing, TooMany or OpponentInCheck.
pub fn start_faults()
    ensures three { (ws : List (List ℕ)) (fault : SetupFault) → FirstFault ws (Start fault)
        → (fault ≡ SecondKing) ⊎ (fault ≡ TooMany) ⊎ (fault ≡ OpponentInCheck) }
{}

/// In the position of an SFEN each cell of the board's text is on its square.
pub fn board_stands()
    ensures cells { (ws : List (List ℕ)) (p : Placed) (cells : List (Option Piece))
        → Sfen ws p → SpellsBoard (nth_word ws 0) cells → HasCells p cells }
{}

/// In the position of an SFEN each hand has the pieces of that side's piles, and no others.
pub fn hands_held()
    ensures piles { (ws : List (List ℕ)) (p : Placed) (piles : List Pile)
        → Sfen ws p → SpellsHands (nth_word ws 2) piles → HasPiles p piles }
{}

/// A text of an SFEN's shape with the squares and hands of a sound position is an SFEN of it, and
/// the position of an SFEN is sound. If the king of the side not to move is attacked, that is the
/// first fault.
pub fn sfen_stands()
    ensures spells { (ws : List (List ℕ)) (p : Placed) (cells : List (Option Piece))
        (piles : List Pile) → Shape ws cells p.side piles → HasCells p cells → HasPiles p piles
        → IsSound p → Sfen ws p }
    ensures sound { (ws : List (List ℕ)) (p : Placed) → Sfen ws p → IsSound p }
    ensures check { (ws : List (List ℕ)) (p : Placed) (cells : List (Option Piece))
        (piles : List Pile) → Shape ws cells p.side piles → HasCells p cells → HasPiles p piles
        → IsWithinTotals p.material → InCheck p.material.board (opponent p.side)
        → FirstFault ws (Start OpponentInCheck) }
{}

/// A text of an SFEN's shape is refused with SecondKing or TooMany exactly if its pieces are more
/// than a game has, and then for the first piece that is too many.
pub fn first_excess()
    ensures refused { (ws : List (List ℕ)) (cells : List (Option Piece)) (side : Color)
        (piles : List Pile) (fault : SetupFault) → Shape ws cells side piles
        → FirstExcess (text_pieces cells piles) fault → FirstFault ws (Start fault) }
    ensures only { (ws : List (List ℕ)) (cells : List (Option Piece)) (side : Color)
        (piles : List Pile) (fault : SetupFault) → Shape ws cells side piles
        → FirstFault ws (Start fault)
        → (fault ≡ OpponentInCheck) ⊎ FirstExcess (text_pieces cells piles) fault }
    ensures some { (pieces : List Piece) → (IsWithinGame pieces → ⊥)
        → (fault : SetupFault) × FirstExcess pieces fault }
    ensures never_both { (pieces : List Piece) (fault : SetupFault) → IsWithinGame pieces
        → FirstExcess pieces fault → ⊥ }
{}

/// The SFEN that is written for a sound position is an SFEN of that position.
pub fn sfen_again()
    ensures again { (p : Placed) → IsSound p → Sfen (words (sfen_text p)) p }
{}

/// Words are the position line of exactly one start and list of moves, or they have exactly one
/// first fault, and never both.
pub fn line_once()
    ensures one { (ws : List (List ℕ)) (start other : Placed) (moves others : List Move)
        → UsiLine ws start moves → UsiLine ws other others → (start ≡ other) × (moves ≡ others) }
    ensures either { (ws : List (List ℕ)) (start : Placed) (moves : List Move) (fault : UsiFault)
        → UsiLine ws start moves → LineFault ws fault → ⊥ }
    ensures first { (ws : List (List ℕ)) (fault other : UsiFault)
        → LineFault ws fault → LineFault ws other → fault ≡ other }
    ensures some { (ws : List (List ℕ))
        → ((start : Placed) (moves : List Move) → UsiLine ws start moves → ⊥)
        → ((fault : UsiFault) → LineFault ws fault → ⊥) → ⊥ }
{}

/// The position line that is written for a start and legal moves from it is a position line of that
/// start and these moves.
pub fn line_again()
    ensures again { (start : Placed) (moves : List Move) (text : List ℕ) → IsSound start
        → IsGame start moves → length moves ≤ max_moves
        → LineText start moves text → UsiLine (words text) start moves }
{}

/// In one position a text is at most one move.
pub fn one_move()
    ensures one { (p : Placed) (text : List ℕ) (m n : Move) → UsiMove p text m → UsiMove p text n
        → m ≡ n }
{}

/// In one position a move has at most one text.
pub fn one_text()
    ensures one { (p : Placed) (text other : List ℕ) (m : Move) → UsiMove p text m
        → UsiMove p other m → text ≡ other }
{}

/// A start and moves have at most one written position line.
pub fn one_line_text()
    ensures one { (start : Placed) (moves : List Move) (text other : List ℕ)
        → LineText start moves text → LineText start moves other → text ≡ other }
{}

/// A line of an engine says at most one thing, and as `Best` it has at most one text.
pub fn one_engine_word()
    ensures text { (ws : List (List ℕ)) (word other : EngineWord) → LineSays ws word
        → LineSays ws other → text_in word ≡ text_in other }
    ensures word { (ws : List (List ℕ)) (word other : EngineWord) → text_in word ≡ None
        → LineSays ws word → LineSays ws other → other ≡ word }
{}
