ghost use Rattle.std.specs.Prelude.{◌≡◌};
ghost use Rattle.record_game.specs.PlayFaults.{why_of};
ghost use Rattle.record_game.specs.declared.fault.Why.TheVariants.{Text, Order, OutOfMemory};
ghost use Rattle.csa_text.specs.declared.fault.TextFault.TheVariants.{StatementTooLong};

use csa_cutting::CutFault;
use csa_text::TextFault;
use shogi_board::SetupFault;
use shogi_rules::{PlayFault, Rule};
use std::alloc::AllocError;
use thiserror::Error;

/// Why a statement does not fit after those before it. Each fault prints as its number and name,
/// such as `G8 RepeatedTurn`.
#[derive(Clone, Copy, Debug, PartialEq, Eq, Error)]
pub enum OrderFault {
    /// A version that is not the first statement.
    #[error("G1 VersionOutOfPlace")]
    VersionOutOfPlace,
    /// A second name of one side.
    #[error("G2 RepeatedName")]
    RepeatedName,
    /// A second header with the same key.
    #[error("G3 RepeatedHeader")]
    RepeatedHeader,
    /// A header after 64 others.
    #[error("G4 TooManyHeaders")]
    TooManyHeaders,
    /// `PI` together with another position statement, or a rank given twice.
    #[error("G5 MixedStart")]
    MixedStart,
    /// A position statement after the side to move.
    #[error("G6 PositionLate")]
    PositionLate,
    /// A move or an ending before the side to move.
    #[error("G7 MoveBeforeTurn")]
    MoveBeforeTurn,
    /// A second side to move.
    #[error("G8 RepeatedTurn")]
    RepeatedTurn,
    /// A time with no move or ending before it, or a second time for one.
    #[error("G9 LooseTime")]
    LooseTime,
    /// A position statement, a side to move, a move or an ending after an ending.
    #[error("G10 AfterEnding")]
    AfterEnding,
    /// A move after 10,000 others.
    #[error("G11 TooManyMoves")]
    TooManyMoves,
    /// The record ends without a side to move.
    #[error("G12 MissingTurn")]
    MissingTurn,
}

/// Why a record is refused.
#[derive(Clone, Copy, Debug, PartialEq, Eq, Error)]
pub enum Why {
    /// The statement is too long, or is no item of the grammar.
    #[error("{0}")]
    Text(TextFault),
    /// The item does not fit after those before it.
    #[error("{0}")]
    Order(OrderFault),
    /// A piece cannot be placed, or the side to move could take the enemy king.
    #[error("{0}")]
    Start(SetupFault),
    /// The move breaks this rule.
    #[error("{0}")]
    Rule(Rule),
    /// An allocation failed. No other fault was found up to this statement.
    #[error("out of memory")]
    OutOfMemory,
    /// The reader was refused before, at this statement.
    #[error("failed")]
    Failed,
}

impl From<TextFault> for Why {
    ghost from_gives = { λ fault why. why ≡ Text fault };

    fn from(fault: TextFault) -> Why {
        Why::Text(fault)
    }
}

impl From<OrderFault> for Why {
    ghost from_gives = { λ fault why. why ≡ Order fault };

    fn from(fault: OrderFault) -> Why {
        Why::Order(fault)
    }
}

impl From<PlayFault> for Why {
    ghost from_gives = { λ fault why. why ≡ why_of fault };

    fn from(fault: PlayFault) -> Why {
        match fault {
            PlayFault::TooManyMoves => Why::Order(OrderFault::TooManyMoves),
            PlayFault::Broken(rule) => Why::Rule(rule),
            PlayFault::OutOfMemory => Why::OutOfMemory,
        }
    }
}

impl From<AllocError> for Why {
    ghost from_gives = { λ _ why. why ≡ OutOfMemory };

    fn from(_e: AllocError) -> Why {
        Why::OutOfMemory
    }
}

impl From<shogi_board::OutOfMemory> for Why {
    ghost from_gives = { λ _ why. why ≡ OutOfMemory };

    fn from(_e: shogi_board::OutOfMemory) -> Why {
        Why::OutOfMemory
    }
}

/// The first statement of a record that has a fault, and which fault it has.
#[derive(Clone, Copy, Debug, PartialEq, Eq, Error)]
#[error("statement {number}, offset {offset}: {why}")]
pub struct Refusal {
    /// The number of the statement, counted from 1. At the end of the record it is one more than
    /// the number of its statements.
    pub number: u64,
    /// The offset of the statement's first byte, counted from 0. At the end of the record it is the
    /// length of the record in bytes.
    pub offset: u64,
    /// The fault.
    pub why: Why,
}

impl From<CutFault> for Refusal {
    ghost from_gives = { λ fault refusal. refusal
        ≡ record { number = fault.number; offset = fault.offset; why = Text StatementTooLong } };

    fn from(fault: CutFault) -> Refusal {
        Refusal {
            number: fault.number,
            offset: fault.offset,
            why: Why::Text(TextFault::StatementTooLong),
        }
    }
}
