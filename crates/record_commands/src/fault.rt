//! Why bytes could not be read or written, and why a position line gave no record.

ghost use Rattle.std.specs.Prelude.{◌≡◌, ◌≢◌};
ghost use Rattle.std.specs.IoError.{error_kind};
ghost use Rattle.record_commands.specs.Faults.{IsLineFaultOf, flow_fault_of, line_fault_of};
ghost use Rattle.csa_record.specs.declared.flow.FlowFault.{FlowFault as Flow};
ghost use Rattle.record_commands.specs.declared.fault.PositionLineFault.TheVariants.{Write, OutOfMemory};

use csa_record::FlowFault;
use std::alloc::AllocError;
use std::io;
use std::io::ErrorKind;
use thiserror::Error;
use usi_text::UsiFault;

/// Why bytes could not be read.
#[derive(Clone, Copy, Debug, PartialEq, Eq, Error)]
pub enum ReadFault {
    /// A file could not be opened, or a read failed.
    #[error("read fault")]
    Failed,
    /// An allocation failed.
    #[error("out of memory")]
    OutOfMemory,
}

impl ReadFault {
    /// The fault of a read that failed with this error.
    pub fn of(error: &io::Error) -> ReadFault
        ensures memory { error_kind error.now ≡ ErrorKind.OutOfMemory
            → result ≡ ReadFault.OutOfMemory }
        ensures failed { error_kind error.now ≢ ErrorKind.OutOfMemory → result ≡ ReadFault.Failed }
    {
        match error.kind() {
            ErrorKind::OutOfMemory => ReadFault::OutOfMemory,
            _ => ReadFault::Failed,
        }
    }
}

/// Not all of the bytes were written, or the writer could not be flushed.
#[derive(Clone, Copy, Debug, PartialEq, Eq, Error)]
#[error("write fault")]
pub struct WriteFault;

/// Why a position line gave no record.
#[derive(Clone, Copy, Debug, PartialEq, Eq, Error)]
pub enum PositionLineFault {
    /// The line was refused.
    #[error("{0}")]
    Refused(UsiFault),
    /// A line has more than 65,536 bytes.
    #[error("line too long")]
    TooLong,
    /// The line could not be read.
    #[error("read fault")]
    Read,
    /// The record could not be written to standard output.
    #[error("write fault")]
    Write,
    /// An allocation failed.
    #[error("out of memory")]
    OutOfMemory,
}

impl From<ReadFault> for FlowFault {
    ghost from_gives = { λ read flow. flow ≡ flow_fault_of read };

    fn from(fault: ReadFault) -> FlowFault {
        match fault {
            ReadFault::Failed => FlowFault::ReadFault,
            ReadFault::OutOfMemory => FlowFault::OutOfMemory,
        }
    }
}

impl From<WriteFault> for FlowFault {
    ghost from_gives = { λ _ flow. flow ≡ Flow.WriteFault };

    fn from(_fault: WriteFault) -> FlowFault {
        FlowFault::WriteFault
    }
}

impl From<ReadFault> for PositionLineFault {
    ghost from_gives = { λ read fault. fault ≡ line_fault_of read };

    fn from(fault: ReadFault) -> PositionLineFault {
        match fault {
            ReadFault::Failed => PositionLineFault::Read,
            ReadFault::OutOfMemory => PositionLineFault::OutOfMemory,
        }
    }
}

impl From<WriteFault> for PositionLineFault {
    ghost from_gives = { λ _ fault. fault ≡ Write };

    fn from(_fault: WriteFault) -> PositionLineFault {
        PositionLineFault::Write
    }
}

impl From<UsiFault> for PositionLineFault {
    // a failed allocation does not refuse the line
    ghost from_gives = { IsLineFaultOf };

    fn from(fault: UsiFault) -> PositionLineFault {
        match fault {
            UsiFault::OutOfMemory => PositionLineFault::OutOfMemory,
            _ => PositionLineFault::Refused(fault),
        }
    }
}

impl From<shogi_board::OutOfMemory> for PositionLineFault {
    ghost from_gives = { λ _ fault. fault ≡ OutOfMemory };

    fn from(_error: shogi_board::OutOfMemory) -> PositionLineFault {
        PositionLineFault::OutOfMemory
    }
}

impl From<AllocError> for PositionLineFault {
    ghost from_gives = { λ _ fault. fault ≡ OutOfMemory };

    fn from(_error: AllocError) -> PositionLineFault {
        PositionLineFault::OutOfMemory
    }
}
