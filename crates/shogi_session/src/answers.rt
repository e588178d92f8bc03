ghost use Rattle.std.specs.Prelude.{◌≡◌, [], IfOk};
ghost use Rattle.bridge_table.specs.declared.event.Status.TheVariants.{Failed, Going};
ghost use Rattle.session_lines.specs.Texts.{ended_line};

use bridge_table::{Out, SessionFault, Status};
use session_lines::Lines;
use shogi_board::OutOfMemory;
use std::alloc::Global;

// No lines, and this status.
pub(crate) fn silent(alloc: Global, status: Status) -> Out
    ensures engine { result.to_engine ≡ [] }
    ensures server { result.to_server ≡ [] }
    ensures status { result.status ≡ status }
{
    Out {
        to_engine: Lines::new(alloc),
        to_server: Lines::new(alloc),
        status,
    }
}

// No lines; the session goes on.
pub(crate) fn no_lines(alloc: Global) -> Out
    ensures engine { result.to_engine ≡ [] }
    ensures server { result.to_server ≡ [] }
    ensures status { result.status ≡ Going }
{
    silent(alloc, Status::Going)
}

// No lines; the session has failed.
pub(crate) fn failed(alloc: Global, fault: SessionFault) -> Out
    ensures engine { result.to_engine ≡ [] }
    ensures server { result.to_server ≡ [] }
    ensures status { result.status ≡ Failed fault }
{
    silent(alloc, Status::Failed(fault))
}

// These lines to the engine.
pub(crate) fn to_engine(alloc: Global, lines: Lines) -> Out
    ensures engine { result.to_engine ≡ lines }
    ensures server { result.to_server ≡ [] }
    ensures status { result.status ≡ Going }
{
    Out {
        to_engine: lines,
        to_server: Lines::new(alloc),
        status: Status::Going,
    }
}

// This line to the engine.
pub(crate) fn tell_engine(alloc: Global, line: &[u8]) -> Result<Out, OutOfMemory>
    ensures engine { IfOk result (λ out. out.to_engine ≡ ended_line line.now) }
    ensures server { IfOk result (λ out. out.to_server ≡ []) }
    ensures status { IfOk result (λ out. out.status ≡ Going) }
{
    let lines = Lines::one(alloc, line)?;
    Ok(to_engine(alloc, lines))
}

// This line to the server.
pub(crate) fn tell_server(alloc: Global, line: &[u8]) -> Result<Out, OutOfMemory>
    ensures engine { IfOk result (λ out. out.to_engine ≡ []) }
    ensures server { IfOk result (λ out. out.to_server ≡ ended_line line.now) }
    ensures status { IfOk result (λ out. out.status ≡ Going) }
{
    let lines = Lines::one(alloc, line)?;
    Ok(Out {
        to_engine: Lines::new(alloc),
        to_server: lines,
        status: Status::Going,
    })
}
