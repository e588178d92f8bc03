ghost use Rattle.std.specs.Prelude.{◌≡◌, ◌==◌, MatchOption};
ghost use Rattle.csa_cutting.specs.Cut.{TextUnit, statement_bytes};
ghost use Rattle.csa_text.specs.Saying.{walked, saying_of};
ghost use Rattle.shogi_board.specs.declared.color.Color.{Color};
ghost use Rattle.shogi_board.specs.declared.moves.Move.{Move};
ghost use Rattle.session_lines.specs.MoveLines.{is_move_line, IsAlone, TellsMove};
ghost use Rattle.session_lines.specs.Texts.{without_last_spaces};

use csa_cutting::Cutter;
use csa_text::{Item, read_item};
use shogi_board::{Color, Move};

/// Whether the line begins with `+` or `-`, as lines of moves do in CSA V2.2 and in the CSA server
/// protocol.
pub fn is_move_line(line: &[u8]) -> bool
    ensures answer { result ≡ is_move_line line.now }
{
    match line.first() {
        Some(b) => *b == b'+' || *b == b'-',
        None => false,
    }
}

/// The side and the move that the line spells in CSA V2.2, or None. The line has this one
/// statement; a comment is no statement.
pub fn read_move_line(line: &[u8]) -> Option<(Color, Move)>
    ensures stated { MatchOption result
        ((color : Color) (m : Move) → TellsMove line.now color m → ⊥)
        (λ r. TellsMove line.now r.0 r.1) }
{
    let Some(statement) = only_statement(line) else {
        return None;
    };
    match read_item(statement) {
        Ok(item) => walked_of(item),
        Err(_) => None,
    }
}

/// The side and the move, if the item is a move; else None.
pub fn walked_of(item: Item<'_>) -> Option<(Color, Move)>
    ensures stated { MatchOption result
        ((color : Color) (m : Move) → saying_of item.entry ≡ walked color m → ⊥)
        (λ r. saying_of item.entry ≡ walked r.0 r.1) }
{
    match item {
        Item::Walked(color, mv) => Some((color, mv)),
        _ => None,
    }
}

// The bytes of the line's one statement. None if it has no statement, several, or one that is too
// long.
fn only_statement(line: &[u8]) -> Option<&[u8]>
    ensures { MatchOption result
        ((unit : TextUnit) → IsAlone line.now unit → ⊥)
        (λ bytes. (unit : TextUnit) × IsAlone line.now unit
        × (bytes.now ≡ statement_bytes unit.bytes)) }
{
    let mut cutter = Cutter::new(line);
    let statement = match cutter.next_statement() {
        Ok(Some(statement)) => statement,
        Ok(None) => return None,
        Err(_) => return None,
    };
    match cutter.next_statement() {
        Ok(Some(_)) => None,
        Ok(None) => Some(statement.bytes),
        Err(_) => None,
    }
}

fn is_space(b: u8) -> bool
    ensures { result ≡ (b == 32) }
{
    b == b' '
}

/// The line without the spaces at its end.
pub fn without_last_spaces(line: &[u8]) -> &[u8]
    ensures value { result.now ≡ without_last_spaces line.now }
{
    let mut end = line.len();
    while end > 0 && is_space(line[end - 1]) {
        end -= 1;
    }
    &line[..end]
}
