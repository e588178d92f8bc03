ghost use Rattle.std.specs.Prelude.{◌≡◌, ◌<◌, ◌↔◌, IsTrue, None, false};
ghost use Rattle.shogi_board.specs.Cells.{piece};
ghost use Rattle.shogi_board.specs.Contents.{black_code, white_code};
ghost use Rattle.shogi_board.specs.KeySteps.{cell_number};
ghost use Rattle.shogi_board.specs.Same.{same_cell};
ghost use Rattle.shogi_board.specs.declared.color.Color.{Color};
ghost use Rattle.shogi_board.specs.declared.kind.Kind.TheVariants.{King, Pawn};

use crate::color::Color;
use crate::kind::{Kind, Piece};
use std::marker::Model;

// One byte for nothing or one of the 28 pieces.
#[derive(Clone, Copy, Debug, PartialEq, Eq, PartialOrd, Ord)]
pub(crate) enum Code {
    Empty,
    BlackPawn,
    BlackLance,
    BlackKnight,
    BlackSilver,
    BlackGold,
    BlackBishop,
    BlackRook,
    BlackKing,
    BlackProPawn,
    BlackProLance,
    BlackProKnight,
    BlackProSilver,
    BlackHorse,
    BlackDragon,
    WhitePawn,
    WhiteLance,
    WhiteKnight,
    WhiteSilver,
    WhiteGold,
    WhiteBishop,
    WhiteRook,
    WhiteKing,
    WhiteProPawn,
    WhiteProLance,
    WhiteProKnight,
    WhiteProSilver,
    WhiteHorse,
    WhiteDragon,
}

macro_rules! pieces {
    ($($kind:ident)*) => {
        [
            $(Piece { color: Color::Black, kind: Kind::$kind },)*
            $(Piece { color: Color::White, kind: Kind::$kind },)*
        ]
    };
}

// The pieces in the order of their codes.
static PIECES: [Piece; 28] = pieces![
    Pawn Lance Knight Silver Gold Bishop Rook King ProPawn ProLance ProKnight ProSilver Horse Dragon
];

// What is on a square, in one byte.
#[derive(Clone, Copy, Debug, PartialEq, Eq, PartialOrd, Ord)]
pub(crate) struct Cell {
    pub(crate) code: Code,
}

impl Model for Cell {
    ghost use Rattle.std.specs.Prelude.{Option};
    ghost use Rattle.shogi_board.specs.Contents.{code_of, code-back, piece_of};
    ghost use Rattle.shogi_board.specs.declared.kind.Piece.{Piece};

    ghost Value = { Option Piece };

    ghost view = { λ c. piece_of c.code };

    ghost inverse = { λ p. record { code = code_of p } };

    ghost inverse_ok = { λ c h i. record { code = code-back c.code i } };
}

impl Cell {
    pub(crate) fn of(piece: Option<Piece>) -> Cell
        ensures { result ≡ piece }
    {
        let code = match piece {
            Some(piece) => match piece.color {
                Color::Black => black(piece.kind),
                Color::White => white(piece.kind),
            },
            None => Code::Empty,
        };
        Cell { code }
    }

    // 0 for nothing, and from 1 on for the pieces, black's first and each side's by their kinds.
    #[inline(always)]
    pub(crate) fn number(self) -> u64
        ensures value { result ≡ cell_number self }
        ensures bound { result < 29 }
    {
        self.code as u64
    }

    #[inline(always)]
    fn is_empty(self) -> bool
        ensures { IsTrue result ↔ (self ≡ None) }
    {
        matches!(self.code, Code::Empty)
    }

    // Whether it holds that piece.
    #[inline(always)]
    pub(crate) fn is(self, color: Color, kind: Kind) -> bool
        ensures holds { IsTrue result ↔ (self ≡ piece color kind) }
        ensures same { result ≡ same_cell self (piece color kind) }
    {
        self == Cell::of(Some(Piece { color, kind }))
    }

    // Whether it is a king or an unpromoted pawn.
    #[inline(always)]
    pub(crate) fn is_landmark(self) -> bool
        ensures { result ≡ false → (color : Color)
            → (self ≡ piece color King → ⊥) × (self ≡ piece color Pawn → ⊥) }
    {
        matches!(
            self.code,
            Code::BlackKing | Code::WhiteKing | Code::BlackPawn | Code::WhitePawn
        )
    }

    // The piece on the square, if there is one.
    #[inline(always)]
    pub(crate) fn piece(self) -> Option<Piece>
        ensures { result ≡ self }
    {
        if self.is_empty() {
            return None;
        }
        Some(PIECES[self.code as usize - 1])
    }
}

fn black(kind: Kind) -> Code
    ensures { result ≡ black_code kind }
{
    match kind {
        Kind::Pawn => Code::BlackPawn,
        Kind::Lance => Code::BlackLance,
        Kind::Knight => Code::BlackKnight,
        Kind::Silver => Code::BlackSilver,
        Kind::Gold => Code::BlackGold,
        Kind::Bishop => Code::BlackBishop,
        Kind::Rook => Code::BlackRook,
        Kind::King => Code::BlackKing,
        Kind::ProPawn => Code::BlackProPawn,
        Kind::ProLance => Code::BlackProLance,
        Kind::ProKnight => Code::BlackProKnight,
        Kind::ProSilver => Code::BlackProSilver,
        Kind::Horse => Code::BlackHorse,
        Kind::Dragon => Code::BlackDragon,
    }
}

fn white(kind: Kind) -> Code
    ensures { result ≡ white_code kind }
{
    match kind {
        Kind::Pawn => Code::WhitePawn,
        Kind::Lance => Code::WhiteLance,
        Kind::Knight => Code::WhiteKnight,
        Kind::Silver => Code::WhiteSilver,
        Kind::Gold => Code::WhiteGold,
        Kind::Bishop => Code::WhiteBishop,
        Kind::Rook => Code::WhiteRook,
        Kind::King => Code::WhiteKing,
        Kind::ProPawn => Code::WhiteProPawn,
        Kind::ProLance => Code::WhiteProLance,
        Kind::ProKnight => Code::WhiteProKnight,
        Kind::ProSilver => Code::WhiteProSilver,
        Kind::Horse => Code::WhiteHorse,
        Kind::Dragon => Code::WhiteDragon,
    }
}
