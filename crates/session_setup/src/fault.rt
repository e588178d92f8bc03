//! Why a session did not reach its end.

ghost use Rattle.std.specs.Prelude.{◌≡◌, ◌≢◌};
ghost use Rattle.session_setup.specs.Faults.{cut_fault_of, talk_fault_of};
ghost use Rattle.session_setup.specs.declared.fault.MatchFault.TheVariants as game;
ghost use Rattle.session_setup.specs.declared.fault.PlayCommandFault.TheVariants as play;
ghost use Rattle.session_setup.specs.declared.fault.ServeFault.TheVariants as serve;
ghost use Rattle.session_setup.specs.declared.fault.TalkFault.TheVariants as talk;

use crate::plan_fault::PlanFault;
use bridge_table::SessionFault;
use csa_cutting::LineFault;
use record_commands::{ReadFault, WriteFault};
use shogi_board::OutOfMemory;
use std::alloc::AllocError;
use std::io::ErrorKind;
use thiserror::Error;

/// Why a machine did not answer all of its lines.
#[derive(Clone, Copy, Debug, PartialEq, Eq, Error)]
pub enum TalkFault {
    /// A line has more than 65,536 bytes.
    #[error("line too long")]
    LineTooLong,
    /// A read failed, or the end did not come. For `serve` also: there was no socket or no client.
    #[error("read fault")]
    Read,
    /// An answer could not be sent. For `serve` also: its port could not be printed.
    #[error("write fault")]
    Write,
    /// An allocation failed.
    #[error("out of memory")]
    OutOfMemory,
}

/// Why `serve` did not play its game to the end.
#[derive(Clone, Copy, Debug, PartialEq, Eq, Error)]
pub enum ServeFault {
    /// The client ended before the session was over.
    #[error("client gone")]
    ClientGone,
    /// There is no socket to listen on, the port could not be printed, or not all lines of the
    /// client were answered.
    #[error("{0}")]
    Talk(TalkFault),
}

/// Why `play` did not play a game to its end, or did not keep it.
#[derive(Clone, Copy, Debug, PartialEq, Eq, Error)]
pub enum MatchFault {
    /// The session failed.
    #[error("{0}")]
    Session(SessionFault),
    /// The session went on for 2^64 - 1 rounds.
    #[error("read fault")]
    Endless,
    /// The record could not be written, or the last line could not be printed.
    #[error("write fault")]
    Write,
    /// An allocation failed.
    #[error("out of memory")]
    OutOfMemory,
}

/// Why `play` has nothing to log in with.
#[derive(Clone, Copy, Debug, PartialEq, Eq, Error)]
pub enum LoginFault {
    /// The name is not 1 to 32 bytes from 0x21 to 0x7E.
    #[error("bad name")]
    BadName,
    /// The password is not 1 to 32 bytes from 0x21 to 0x7E.
    #[error("bad password")]
    BadPassword,
    /// The file with the password could not be read.
    #[error("read fault")]
    Read,
    /// An allocation failed.
    #[error("out of memory")]
    OutOfMemory,
}

/// Why `play` did not log in, or did not play a game to its end, or did not keep it.
#[derive(Clone, Copy, Debug, PartialEq, Eq, Error)]
pub enum PlayCommandFault {
    /// The plan cannot be carried out.
    #[error("{0}")]
    Plan(PlanFault),
    /// There is nothing to log in with.
    #[error("{0}")]
    Login(LoginFault),
    /// The game was not played to its end, or not kept.
    #[error("{0}")]
    Match(MatchFault),
}

/// `OutOfMemory` for an error of that kind, and otherwise the other fault.
pub fn memory_or(kind: ErrorKind, other: MatchFault) -> MatchFault
    ensures memory { kind ≡ ErrorKind.OutOfMemory → result ≡ MatchFault.OutOfMemory }
    ensures other { kind ≢ ErrorKind.OutOfMemory → result ≡ other }
{
    match kind {
        ErrorKind::OutOfMemory => MatchFault::OutOfMemory,
        _ => other,
    }
}

impl From<ReadFault> for TalkFault {
    ghost from_gives = { λ read fault. fault ≡ talk_fault_of read };

    fn from(fault: ReadFault) -> TalkFault {
        match fault {
            ReadFault::Failed => TalkFault::Read,
            ReadFault::OutOfMemory => TalkFault::OutOfMemory,
        }
    }
}

impl From<WriteFault> for TalkFault {
    ghost from_gives = { λ _ fault. fault ≡ talk.Write };

    fn from(_fault: WriteFault) -> TalkFault {
        TalkFault::Write
    }
}

impl From<LineFault> for TalkFault {
    ghost from_gives = { λ line fault. fault ≡ cut_fault_of line };

    fn from(fault: LineFault) -> TalkFault {
        match fault {
            LineFault::TooLong => TalkFault::LineTooLong,
            LineFault::OutOfMemory => TalkFault::OutOfMemory,
        }
    }
}

impl From<AllocError> for TalkFault {
    ghost from_gives = { λ _ fault. fault ≡ talk.OutOfMemory };

    fn from(_error: AllocError) -> TalkFault {
        TalkFault::OutOfMemory
    }
}

impl From<TalkFault> for ServeFault {
    ghost from_gives = { λ why fault. fault ≡ serve.Talk why };

    fn from(fault: TalkFault) -> ServeFault {
        ServeFault::Talk(fault)
    }
}

impl From<OutOfMemory> for ServeFault {
    ghost from_gives = { λ _ fault. fault ≡ serve.Talk talk.OutOfMemory };

    fn from(_error: OutOfMemory) -> ServeFault {
        ServeFault::Talk(TalkFault::OutOfMemory)
    }
}

impl From<WriteFault> for MatchFault {
    ghost from_gives = { λ _ fault. fault ≡ game.Write };

    fn from(_fault: WriteFault) -> MatchFault {
        MatchFault::Write
    }
}

impl From<OutOfMemory> for MatchFault {
    ghost from_gives = { λ _ fault. fault ≡ game.OutOfMemory };

    fn from(_error: OutOfMemory) -> MatchFault {
        MatchFault::OutOfMemory
    }
}

impl From<AllocError> for MatchFault {
    ghost from_gives = { λ _ fault. fault ≡ game.OutOfMemory };

    fn from(_error: AllocError) -> MatchFault {
        MatchFault::OutOfMemory
    }
}

impl From<PlanFault> for PlayCommandFault {
    ghost from_gives = { λ why fault. fault ≡ play.Plan why };

    fn from(fault: PlanFault) -> PlayCommandFault {
        PlayCommandFault::Plan(fault)
    }
}

impl From<LoginFault> for PlayCommandFault {
    ghost from_gives = { λ why fault. fault ≡ play.Login why };

    fn from(fault: LoginFault) -> PlayCommandFault {
        PlayCommandFault::Login(fault)
    }
}

impl From<MatchFault> for PlayCommandFault {
    ghost from_gives = { λ why fault. fault ≡ play.Match why };

    fn from(fault: MatchFault) -> PlayCommandFault {
        PlayCommandFault::Match(fault)
    }
}
