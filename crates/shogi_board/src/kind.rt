ghost use Rattle.std.specs.Prelude.{◌≡◌, ◌<◌, ◌≤◌};
ghost use Rattle.shogi_board.specs.Pieces.{is_hand_kind, is_king, promoted, unpromoted, place_of};
ghost use Rattle.shogi_board.specs.Totals.{limit};

use crate::color::Color;

/// What a piece is: the eight unpromoted kinds, and the six promoted ones.
#[derive(Clone, Copy, Debug, PartialEq, Eq, PartialOrd, Ord)]
pub enum Kind {
    Pawn,
    Lance,
    Knight,
    Silver,
    Gold,
    Bishop,
    Rook,
    King,
    ProPawn,
    ProLance,
    ProKnight,
    ProSilver,
    Horse,
    Dragon,
}

impl Kind {
    // Whether a hand may hold it: each unpromoted kind but the king.
    pub(crate) fn is_hand_kind(self) -> bool
        ensures value { result ≡ is_hand_kind self }
    {
        matches!(
            self,
            Kind::Pawn
                | Kind::Lance
                | Kind::Knight
                | Kind::Silver
                | Kind::Gold
                | Kind::Bishop
                | Kind::Rook
        )
    }

    /// The kind that a piece of this kind promotes to, or None for the gold, the king and the
    /// promoted kinds.
    pub fn promoted(self) -> Option<Kind>
        ensures value { result ≡ promoted self }
    {
        match self {
            Kind::Pawn => Some(Kind::ProPawn),
            Kind::Lance => Some(Kind::ProLance),
            Kind::Knight => Some(Kind::ProKnight),
            Kind::Silver => Some(Kind::ProSilver),
            Kind::Bishop => Some(Kind::Horse),
            Kind::Rook => Some(Kind::Dragon),
            _ => None,
        }
    }

    // The kind that a promoted piece has in a hand; each other kind is its own.
    pub(crate) fn unpromoted(self) -> Kind
        ensures value { result ≡ unpromoted self }
    {
        match self {
            Kind::ProPawn => Kind::Pawn,
            Kind::ProLance => Kind::Lance,
            Kind::ProKnight => Kind::Knight,
            Kind::ProSilver => Kind::Silver,
            Kind::Horse => Kind::Bishop,
            Kind::Dragon => Kind::Rook,
            kind => kind,
        }
    }

    pub(crate) fn is_king(self) -> bool
        ensures { result ≡ is_king self }
    {
        matches!(self, Kind::King)
    }

    // How many pieces of its unpromoted kind a game has.
    pub(crate) fn limit(self) -> usize
        ensures value { result ≡ limit self }
        ensures bound { result ≤ 18 }
    {
        match self {
            Kind::Pawn | Kind::ProPawn => 18,
            Kind::Bishop | Kind::Rook | Kind::King | Kind::Horse | Kind::Dragon => 2,
            _ => 4,
        }
    }

    // The place of its unpromoted kind among the eight, the king last.
    pub(crate) fn place(self) -> usize
        ensures value { result ≡ place_of self }
        ensures bound { result < 8 }
    {
        match self {
            Kind::Pawn | Kind::ProPawn => 0,
            Kind::Lance | Kind::ProLance => 1,
            Kind::Knight | Kind::ProKnight => 2,
            Kind::Silver | Kind::ProSilver => 3,
            Kind::Gold => 4,
            Kind::Bishop | Kind::Horse => 5,
            Kind::Rook | Kind::Dragon => 6,
            Kind::King => 7,
        }
    }
}

/// A piece on the board: whose it is, and its kind.
#[derive(Clone, Copy, Debug, PartialEq, Eq, PartialOrd, Ord)]
pub struct Piece {
    pub color: Color,
    pub kind: Kind,
}
