//! The words of a fault, for the last line of a log. They are those in which the fault is printed;
//! what `thiserror` derives has no contract.

ghost use Rattle.std.specs.Prelude.{◌≡◌};
ghost use Rattle.session_commands.specs.FaultWords.{match_words, order_words, rule_words, session_words, setup_words, text_words, why_words};
ghost use Rattle.session_commands.specs.NoGame.{login_words};

use csa_text::TextFault;
use record_game::{OrderFault, Why};
use session_setup::{LoginFault, MatchFault};
use shogi_board::{Rule, SetupFault};
use shogi_session::SessionFault;

/// The words of a fault of a record.
pub fn why_words(why: Why) -> &'static str
    ensures { result.now ≡ why_words why }
{
    match why {
        Why::Text(fault) => text_words(fault),
        Why::Order(fault) => order_words(fault),
        Why::Start(fault) => setup_words(fault),
        Why::Rule(rule) => rule_words(rule),
        Why::OutOfMemory => "out of memory",
        Why::Failed => "failed",
    }
}

/// The words of a fault of a session.
pub fn session_words(fault: SessionFault) -> &'static str
    ensures { result.now ≡ session_words fault }
{
    match fault {
        SessionFault::LoginRefused => "B1 LoginRefused",
        SessionFault::Rejected => "B2 Rejected",
        SessionFault::BadSummary => "B3 BadSummary",
        SessionFault::BadServerMove(_) => "B4 BadServerMove",
        SessionFault::EngineGone => "B5 EngineGone",
        SessionFault::ServerGone => "B6 ServerGone",
        SessionFault::LineTooLong => "B7 LineTooLong",
    }
}

/// The words of a fault of a game.
pub fn match_words(fault: MatchFault) -> &'static str
    ensures { result.now ≡ match_words fault }
{
    match fault {
        MatchFault::Session(fault) => session_words(fault),
        MatchFault::Endless => "read fault",
        MatchFault::Write => "write fault",
        MatchFault::OutOfMemory => "out of memory",
    }
}

/// The words of a fault of a login.
pub fn login_words(fault: LoginFault) -> &'static str
    ensures { result.now ≡ login_words fault }
{
    match fault {
        LoginFault::BadName => "bad name",
        LoginFault::BadPassword => "bad password",
        LoginFault::Read => "read fault",
        LoginFault::OutOfMemory => "out of memory",
    }
}

fn rule_words(rule: Rule) -> &'static str
    ensures { result.now ≡ rule_words rule }
{
    match rule {
        Rule::WrongSide => "rule 1 WrongSide",
        Rule::RepetitionOver => "rule 2 RepetitionOver",
        Rule::NoPiece => "rule 3 NoPiece",
        Rule::WrongKind => "rule 4 WrongKind",
        Rule::Occupied => "rule 5 Occupied",
        Rule::CannotReach => "rule 6 CannotReach",
        Rule::BadPromotion => "rule 7 BadPromotion",
        Rule::MustPromote => "rule 8 MustPromote",
        Rule::DoubledPawn => "rule 9 DoubledPawn",
        Rule::LeavesKing => "rule 10 LeavesKing",
        Rule::PawnDropMate => "rule 11 PawnDropMate",
    }
}

fn text_words(fault: TextFault) -> &'static str
    ensures { result.now ≡ text_words fault }
{
    match fault {
        TextFault::StatementTooLong => "C1 StatementTooLong",
        TextFault::BadVersion => "C2 BadVersion",
        TextFault::BadHeader => "C3 BadHeader",
        TextFault::BadPosition => "C4 BadPosition",
        TextFault::BadMove => "C5 BadMove",
        TextFault::BadTime => "C6 BadTime",
        TextFault::UnknownEnding => "C7 UnknownEnding",
        TextFault::Unknown => "C8 Unknown",
    }
}

fn order_words(fault: OrderFault) -> &'static str
    ensures { result.now ≡ order_words fault }
{
    match fault {
        OrderFault::VersionOutOfPlace => "G1 VersionOutOfPlace",
        OrderFault::RepeatedName => "G2 RepeatedName",
        OrderFault::RepeatedHeader => "G3 RepeatedHeader",
        OrderFault::TooManyHeaders => "G4 TooManyHeaders",
        OrderFault::MixedStart => "G5 MixedStart",
        OrderFault::PositionLate => "G6 PositionLate",
        OrderFault::MoveBeforeTurn => "G7 MoveBeforeTurn",
        OrderFault::RepeatedTurn => "G8 RepeatedTurn",
        OrderFault::LooseTime => "G9 LooseTime",
        OrderFault::AfterEnding => "G10 AfterEnding",
        OrderFault::TooManyMoves => "G11 TooManyMoves",
        OrderFault::MissingTurn => "G12 MissingTurn",
    }
}

fn setup_words(fault: SetupFault) -> &'static str
    ensures { result.now ≡ setup_words fault }
{
    match fault {
        SetupFault::SquareTaken => "S1 SquareTaken",
        SetupFault::TooMany => "S2 TooMany",
        SetupFault::SecondKing => "S3 SecondKing",
        SetupFault::NotForHand => "S4 NotForHand",
        SetupFault::NotThere => "S5 NotThere",
        SetupFault::OpponentInCheck => "S6 OpponentInCheck",
        SetupFault::AfterRest => "S7 AfterRest",
    }
}
