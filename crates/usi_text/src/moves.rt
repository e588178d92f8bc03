ghost use Rattle.std.specs.Prelude.{◌≡◌, ◌≤◌, ◌+◌, ◌++◌, MatchOption};
ghost use Rattle.arrayvec.specs.ArrayString.{array_string_len};
ghost use Rattle.shogi_board.specs.Legal.{Legal};
ghost use Rattle.shogi_board.specs.declared.moves.Move.{Move};
ghost use Rattle.usi_text.specs.Letters.{square_text};
ghost use Rattle.usi_text.specs.Moves.{UsiMove};

use crate::letters::{held_kind, letter, read_square};
use arrayvec::ArrayString;
use shogi_board::{Position, Square};
use shogi_rules::Move;

/// Reads a move of the USI protocol in a position, or returns `None` if the text is not a move
/// there.
///
/// A walk is two squares, that which the piece leaves and that which it goes to (`7g7f`). `+`
/// follows them if the piece promotes (`8h2b+`). A square is a digit 1 to 9 for the file and a
/// letter a to i for the rank. A drop is one of the letters P L N S G B R, `*` and the square
/// (`P*5e`).
///
/// The kind of a walk is that of the piece on the square that it leaves, or its promoted kind.
/// Returns `None` if that square is empty, or if `+` follows for a piece that has no promoted kind.
/// Does not ask whether the move is legal.
pub fn read_move(position: &Position, text: &[u8]) -> Option<Move>
    ensures stated { MatchOption result
        ((mv : Move) → UsiMove position.now text.now mv → ⊥)
        (λ mv. UsiMove position.now text.now mv) }
{
    match text {
        [kind, b'*', file, rank] => Some(Move::Put {
            to: read_square(*file, *rank)?,
            kind: held_kind(*kind)?,
        }),
        [a, b, c, d] => {
            let from = read_square(*a, *b)?;
            let to = read_square(*c, *d)?;
            let kind = position.piece_at(from)?.kind;
            Some(Move::Walk { from, to, kind })
        }
        [a, b, c, d, b'+'] => {
            let from = read_square(*a, *b)?;
            let to = read_square(*c, *d)?;
            let kind = position.piece_at(from)?.kind.promoted()?;
            Some(Move::Walk { from, to, kind })
        }
        _ => None,
    }
}

/// The USI text of a move that is legal for the side to move. In that position, `read_move` reads
/// it back as the same move.
pub fn move_text(position: &Position, mv: &Move) -> ArrayString<5>
    requires legal { Legal position.now mv.now }
    ensures again { UsiMove position.now result.bytes mv.now }
{
    let mut text = ArrayString::new();
    match *mv {
        Move::Walk { from, to, kind } => {
            push_square(&mut text, from);
            push_square(&mut text, to);
            if position
                .piece_at(from)
                .is_some_and(|piece| piece.kind != kind)
            {
                text.push('+');
            }
        }
        Move::Put { to, kind } => {
            text.push(letter(kind) as char);
            text.push('*');
            push_square(&mut text, to);
        }
    }
    text
}

fn push_square(text: &mut ArrayString<5>, square: Square)
    requires { array_string_len text.old + 2 ≤ 5 }
    ensures bytes { text.new.bytes ≡ text.old.bytes ++ square_text square }
    ensures len { array_string_len text.new ≡ array_string_len text.old + 2 }
{
    text.push((b'0' + square.file()) as char);
    text.push((b'a' - 1 + square.rank()) as char);
}
