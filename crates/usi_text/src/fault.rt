ghost use Rattle.std.specs.Prelude.{◌≡◌};
ghost use Rattle.usi_text.specs.declared.fault.SfenFault.TheVariants.{Start};
ghost use Rattle.usi_text.specs.declared.fault.UsiFault.TheVariants.{Sfen};

use shogi_board::SetupFault;
use shogi_rules::Rule;
use thiserror::Error;

/// Why a text is not an SFEN. Each fault prints as its number and name, such as `U1 BadBoard`.
#[derive(Clone, Copy, Debug, PartialEq, Eq, Error)]
pub enum SfenFault {
    /// The first word does not spell nine ranks of nine squares.
    #[error("U1 BadBoard")]
    BadBoard,
    /// The second word is neither `b` nor `w`.
    #[error("U2 BadSide")]
    BadSide,
    /// The third word is neither `-` nor letters of pieces with their counts.
    #[error("U3 BadHands")]
    BadHands,
    /// The fourth word is not all digits, or there is a fifth.
    #[error("U4 BadNumber")]
    BadNumber,
    /// The pieces cannot be placed so: SecondKing, TooMany or OpponentInCheck.
    #[error("{0}")]
    Start(SetupFault),
}

impl From<SetupFault> for SfenFault {
    ghost from_gives = { λ fault e. e ≡ Start fault };

    fn from(fault: SetupFault) -> SfenFault {
        SfenFault::Start(fault)
    }
}

/// Why a text is not a position line with playable moves.
#[derive(Clone, Copy, Debug, PartialEq, Eq, Error)]
pub enum UsiFault {
    /// It is neither `position startpos` nor `position sfen` with an SFEN, either alone or followed
    /// by `moves` and the moves.
    #[error("U5 BadLine")]
    BadLine,
    /// Its SFEN is refused.
    #[error("{0}")]
    Sfen(SfenFault),
    /// The word is not a move in the position that it would be played in. The field is the number
    /// of the move, counted from 1; it is not printed.
    #[error("U6 BadMoveText")]
    BadMoveText(usize),
    /// The move breaks this rule, and no earlier one in the order of the rules. The first field is
    /// the number of the move, counted from 1; it is not printed.
    #[error("{1}")]
    Broken(usize, Rule),
    /// The line already has 10,000 moves.
    #[error("G11 TooManyMoves")]
    TooManyMoves,
    /// An allocation failed.
    #[error("out of memory")]
    OutOfMemory,
}

impl From<SfenFault> for UsiFault {
    ghost from_gives = { λ fault e. e ≡ Sfen fault };

    fn from(fault: SfenFault) -> UsiFault {
        UsiFault::Sfen(fault)
    }
}
