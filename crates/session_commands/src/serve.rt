//! A CSA server on localhost, which plays one game with one client.

ghost use Rattle.std.specs.Prelude.{◌≡◌, ◌≤◌, ◌++◌, ◌∷◌, [], Ok, Err, IfErr, IfOk, IsOk, IsErrOf, OnOk, string_bytes};
ghost use Rattle.session_setup.specs.declared.fault.ServeFault.{ServeFault};
ghost use Rattle.session_setup.specs.declared.fault.TalkFault.{TalkFault};
ghost use Rattle.session_commands.specs.declared.talk.MachineState.{MachineState};
ghost use Rattle.std.specs.Io.KnownBytes.{Appends};
ghost use Rattle.session_commands.specs.Door.{HasHosted, HasServed, IsUnprinted};
ghost use Rattle.session_commands.specs.Offering.{OffersGame};
ghost use Rattle.session_commands.specs.Ports.{port_line};
ghost use Rattle.session_commands.specs.Talks.{HasAnswered, Passing};
ghost use Rattle.shogi_session.specs.Hosting.{HostSession};
ghost use Rattle.shogi_rules.specs.Positions as positions;

use crate::door::{Door, LocalDoor};
use crate::talk::{self, Machine, MachineState};
use crate::wire::{Exchange, Wire};
use arrayvec::ArrayString;
use record_commands::streams;
use session_setup::{ServeFault, TalkFault};
use shogi_board::OutOfMemory;
use shogi_session::{Host, HostConfig};
use shogi_words::Service;
use std::alloc::{AllocError, Global};
use std::io::{self, Write};
use std::net::{Net, TcpListener, TcpStream};

/// Plays one game as a CSA server on localhost. Prints `listening` and the port, and answers each
/// line of the first client before the next one is read, until the session is over. Each move of
/// the client counts as 0 seconds.
///
/// Refuses `ClientGone` if the client ends before the session. With `Talk` it refuses `Read` if
/// there is no socket to listen on or a read fails, `LineTooLong` as soon as a line has more than
/// 65,536 bytes, `Write` if a line cannot be printed or sent, and `OutOfMemory`.
pub fn run<R: Net<Listener = TcpListener, Stream = TcpStream> + Print + AllocGlobal>(
    rt: &R,
    service: Service,
) -> Result<(), ServeFault>
    requires moves { (1 ≤ service.max_moves) × (service.max_moves ≤ positions.max_moves) }
    ensures over { OnOk result
        ((before after : Passing) × (old new : HostSession) × OffersGame service old
        × HasAnswered ⟦<Exchange<TcpStream, TcpStream> as Wire>⟧.came
        ⟦<Exchange<TcpStream, TcpStream> as Wire>⟧.ends
        ⟦<Exchange<TcpStream, TcpStream> as Wire>⟧.went
        ⟦<Host as Machine>⟧.answers before old MachineState.Ended after new) }
{
    let mut door = LocalDoor::new(rt);
    serve(rt.alloc(), &mut door, &mut io::writer(rt), service)
}

// Prints the port that it listens on, and plays a game with the first client.
fn serve<D: Door, W: Write>(
    alloc: Global,
    door: &mut D,
    out: &mut W,
    service: Service,
) -> Result<(), ServeFault>
    requires { (1 ≤ service.max_moves) × (service.max_moves ≤ positions.max_moves) }
    ensures { HasHosted D.listens D.listens_not D.enters D.enters_not W.contents
        D.Client.Wire.came D.Client.Wire.ends D.Client.Wire.went D.Client.Wire.silent
        D.Client.Wire.blocked ⟦<Host as Machine>⟧.answers service
        door.old door.new out.old out.new result }
{
    let (listener, port) = door.listen(service.port)?;
    announce(alloc, out, port)?;
    let mut wire = door.accept(listener)?;
    play(alloc, service, &mut wire)
}

// Plays a game with the client on the wire, until the session is over.
fn play<X: Wire>(alloc: Global, service: Service, wire: &mut X) -> Result<(), ServeFault>
    requires { (1 ≤ service.max_moves) × (service.max_moves ≤ positions.max_moves) }
    ensures { HasServed X.came X.ends X.went X.silent X.blocked
        ⟦<Host as Machine>⟧.answers service wire.old wire.new result }
{
    let mut host = host_of(alloc, service)?;
    served(talk::answer_all(alloc, &mut host, wire))
}

// What the answered lines mean for the client: that its session is over, or a fault.
fn served(answered: Result<MachineState, TalkFault>) -> Result<(), ServeFault>
    ensures over { answered ≡ Ok MachineState.Ended → IsOk result }
    ensures gone { answered ≡ Ok MachineState.Running → IsErrOf result ServeFault.ClientGone }
    ensures broken { (fault : TalkFault)
        → answered ≡ Err fault → IsErrOf result (ServeFault.Talk fault) }
{
    match answered {
        Ok(MachineState::Ended) => Ok(()),
        Ok(MachineState::Running) => Err(ServeFault::ClientGone),
        Err(fault) => Err(ServeFault::Talk(fault)),
    }
}

// Prints the line with the port.
fn announce<W: Write>(alloc: Global, out: &mut W, port: u16) -> Result<(), TalkFault>
    ensures printed { OnOk result
        (Appends (W.contents out.old) (W.contents out.new) (port_line port ++ 10 ∷ [])) }
    ensures unprinted { IfErr result (IsUnprinted out.old out.new) }
{
    let line = listening(alloc, port)?;
    streams::write_all(out, line.as_bytes())?;
    Ok(())
}

// The line with the port, and LF.
fn listening(alloc: Global, port: u16) -> Result<String, AllocError>
    ensures { IfOk result (λ text. string_bytes text ≡ port_line port ++ 10 ∷ []) }
{
    format!(in alloc; "listening {port}\n")
}

// A host before login.
fn host_of(alloc: Global, service: Service) -> Result<Host, OutOfMemory>
    requires { (1 ≤ service.max_moves) × (service.max_moves ≤ positions.max_moves) }
    ensures host { IfOk result (OffersGame service) }
{
    let config = HostConfig {
        client: service.client,
        max_moves: service.max_moves,
        id: ArrayString::from("local").unwrap(),
        name: ArrayString::from("host").unwrap(),
    };
    Host::new(alloc, &config)
}
