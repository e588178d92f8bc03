//! Where a server waits for its client.

ghost use Rattle.std.specs.Prelude.{◌≡◌, IfErr, IfOk, OnErr};
ghost use Rattle.session_setup.specs.Faults.{IsReadFault};

use crate::wire::{Exchange, Wire};
use record_commands::ReadFault;
use session_setup::TalkFault;
use std::io;
use std::net::{Net, TcpListener, TcpStream};

/// Where a client comes in. In contracts each call is a step from one state to the next.
pub trait Door {
    ghost use Rattle.std.specs.Prelude.{ℕ};

    /// What listens on a port.
    type Listener: Drop;

    /// What comes from a client and goes to it.
    type Client: Wire + Drop;

    // Of the two ports, the first was asked for, and this listens on the second.
    ghost listens: { Self → ℕ → Self.Listener → ℕ → Self → Type 0 };

    // Nothing listens on this port.
    ghost listens_not: { Self → ℕ → Self → Type 0 };

    // This client came to what listens.
    ghost enters: { Self → Self.Listener → Self.Client → Self → Type 0 };

    // No client came to it.
    ghost enters_not: { Self → Self.Listener → Self → Type 0 };

    /// Listens on this port, or on a port of the system's choice if it is 0. Returns the port too.
    ///
    /// Refuses `Read` if it cannot listen there, and `OutOfMemory`.
    fn listen(&mut self, port: u16) -> Result<(Self::Listener, u16), TalkFault>
        ensures listens { IfOk result (λ r. listens self.old port r.0 r.1 self.new) }
        ensures listens_not { OnErr result (listens_not self.old port self.new) }
        ensures faults { IfErr result IsReadFault };

    /// Waits for a client, and then listens no more. Refuses `Read` if none comes, and
    /// `OutOfMemory`.
    fn accept(&mut self, listener: Self::Listener) -> Result<Self::Client, TalkFault>
        ensures enters { IfOk result (λ client. enters self.old listener client self.new) }
        ensures enters_not { OnErr result (enters_not self.old listener self.new) }
        ensures faults { IfErr result IsReadFault };
}

/// The ports of this machine, for clients of this machine.
#[derive(Drop)]
pub struct LocalDoor<'a, R> {
    rt: &'a R,
}

impl<'a, R> LocalDoor<'a, R> {
    /// Those of this runtime.
    pub fn new(rt: &'a R) -> LocalDoor<'a, R>
        ensures { result.rt.now ≡ rt.now }
    {
        LocalDoor { rt }
    }
}

// No contract can say who connects to a port.
impl<R: Net<Listener = TcpListener, Stream = TcpStream>> Door for LocalDoor<'_, R> {
    ghost use Rattle.std.specs.Prelude.{⊤};

    type Listener = TcpListener;

    type Client = Exchange<TcpStream, TcpStream>;

    ghost listens = { λ d asked listener port e. ⊤ };

    ghost listens_not = { λ d asked e. ⊤ };

    ghost enters = { λ d listener client e. ⊤ };

    ghost enters_not = { λ d listener e. ⊤ };

    fn listen(&mut self, port: u16) -> Result<(Self::Listener, u16), TalkFault> {
        let listener = match TcpListener::bind(self.rt, ("127.0.0.1", port)) {
            Ok(listener) => listener,
            Err(error) => return Err(read_fault(&error)),
        };
        match listener.local_addr() {
            Ok(address) => Ok((listener, address.port())),
            Err(error) => Err(read_fault(&error)),
        }
    }

    fn accept(&mut self, listener: Self::Listener) -> Result<Self::Client, TalkFault> {
        let writer = match listener.accept() {
            Ok((client, _)) => client,
            Err(error) => return Err(read_fault(&error)),
        };
        match writer.try_clone() {
            Ok(reader) => Ok(Exchange::new(reader, writer)),
            Err(error) => Err(read_fault(&error)),
        }
    }
}

fn read_fault(error: &io::Error) -> TalkFault
    ensures { IsReadFault result }
{
    TalkFault::from(ReadFault::of(error))
}
