//! The programs that `play` starts, and its connection to a server.

ghost use Rattle.std.specs.Prelude.{◌≡◌, ◌⊎◌, IfErr, IfOk, OnErr, OnOk, codes, false, is_some, string_bytes, true};
ghost use Rattle.std.specs.Process.{child_status, command_args, command_program, makes_pipe};
ghost use Rattle.session_setup.specs.Faults.{IsFileFault};
ghost use Rattle.session_commands.specs.Launching.{engine_words, local_address, serve_words};
ghost use Rattle.session_commands.specs.Children.{IsEngineFault, IsStarted, fault_if_gone};

use crate::bridging::{Peer, Side};
use crate::log::{Log, TextLog};
use crate::log_output::{LogWriter, StandardError, Stopwatch};
use record_commands::incoming::Incoming;
use session_setup::groups::{self, Member, Reach};
use session_setup::paths::{ENGINE_ERRORS, SERVER_ERRORS, starts_server};
use session_setup::reading::SeesFiles;
use session_setup::starting::Starter;
use session_setup::{MatchFault, SearchPath, login, memory_or};
use shogi_session::SessionFault;
use shogi_words::ServerChoice;
use std::alloc::{AllocError, Global};
use std::fs::{self, File};
use std::io::{self, Eprint, Read, Write};
use std::net::{Net, TcpListener, TcpStream};
use std::process::{Child, Command, OpenProcess, Stdio};
use std::rt::Files;
use std::time::{Clock, Duration};
use std::{mem, thread};

/// The server is gone.
pub const SERVER_GONE: MatchFault = MatchFault::Session(SessionFault::ServerGone);

/// The engine is gone.
pub const ENGINE_GONE: MatchFault = MatchFault::Session(SessionFault::EngineGone);

// How many times to check whether a child has ended; with the rest between checks, ten seconds in
// all.
const CHECKS: u32 = 1000;

const REST_MS: u64 = 10;

/// How the session ended for which programs were started.
#[derive(Clone, Copy)]
pub enum SessionEnd {
    /// The bridge has finished its game.
    Finished,
    /// A fault broke it off, or it never began.
    BrokenOff,
}

/// What makes the log of a game, starts and ends its programs, and connects to servers.
pub trait Programs {
    ghost use Rattle.std.specs.Prelude.{◌≡◌, ◌≢◌, ℕ, List, Option, None, option_map};
    ghost use Rattle.record_commands.specs.Incoming.{Coming};
    ghost use Rattle.session_setup.specs.Faults.{IsFileFault};
    ghost use Rattle.session_commands.specs.Children.{IsEngineFault, IsServerFault};
    ghost use Rattle.session_commands.specs.declared.children.SessionEnd.{SessionEnd as End};
    ghost use Rattle.shogi_words.specs.declared.play.ServerChoice.{ServerChoice as Server};

    /// The log of a game.
    type Log: Log + Drop;

    /// A program that was started.
    type Child: Drop;

    /// The standard input of one.
    type Input: Write + Drop;

    /// The standard output of one.
    type Output: Read + Drop;

    /// What is read from a connection.
    type Reader: Read + Drop;

    /// What is written to a connection.
    type Writer: Write + Drop;

    // If there is a name, this log was made for it, and files beside it for what the engine says on
    // its standard error, and what the server says there if one is to be started.
    ghost logs: { Self → Option (List ℕ) → Server → Option Self.Log → Self → Type 0 };

    ghost logs_not: { Self → Option (List ℕ) → Server → Self → Type 0 };

    // Why there is no game, if anything is known of it.
    ghost reason: { Self → Option (List ℕ) };

    // This was kept as the reason, if there was enough memory.
    ghost explained: { Self → List ℕ → Self → Type 0 };

    // A server was started, this program with these words. These lines come from its output.
    ghost serves: { Self → List ℕ → List (List ℕ) → Self.Child → Coming → Self → Type 0 };

    ghost serves_not: { Self → List ℕ → List (List ℕ) → Self → Type 0 };

    // An engine was started, this program with these words. These lines come from its output, and
    // its input is written to by this.
    ghost thinks: { Self → List ℕ → List (List ℕ) → Self.Child → Coming → Self.Input → Self
        → Type 0 };

    ghost thinks_not: { Self → List ℕ → List (List ℕ) → Self → Type 0 };

    // There is a connection to this address. These lines come from it, and it is written to by
    // this.
    ghost connects: { Self → List ℕ → Coming → Self.Writer → Self → Type 0 };

    ghost connects_not: { Self → List ℕ → Self → Type 0 };

    // The child was ended. If it was given time, it may have ended by itself.
    ghost ended: { Self → Self.Child → End → Self → Type 0 };

    /// Makes the log of that name, if there is a name, and files beside it for the standard error
    /// of the engine, and of the server if one is to be started. Refuses `Write` if one of them
    /// cannot be made, and `OutOfMemory`.
    fn make_log(
        &mut self,
        name: Option<&str>,
        server: ServerChoice<'_>,
    ) -> Result<Option<Self::Log>, MatchFault>
        ensures logs { IfOk result (λ log.
            logs self.old (option_map (λ s. s.now) name.entry) server.entry log self.new) }
        ensures logs_not { OnErr result
            (logs_not self.old (option_map (λ s. s.now) name.entry) server.entry self.new) }
        ensures nothing { name.entry ≡ None → IfOk result (λ log. log ≡ None) }
        ensures something { name.entry ≢ None → IfOk result (λ log. log ≢ None) }
        ensures faults { IfErr result IsFileFault };

    /// Why there is no game: why the last program was not started or the last address took no
    /// connection, in the words of the system, or else what `explain` was given last. None if
    /// nothing is known of it.
    fn reason(&self) -> Option<&str>
        ensures { option_map (λ s. s.now) result ≡ reason self.now };

    /// Keeps this as the reason why there is no game, if there is enough memory. Shows it too, if
    /// reasons are shown.
    fn explain(&mut self, text: &str)
        ensures explained { explained self.old text.now self.new };

    /// Starts a server. Refuses `B6 ServerGone` if it cannot be started, and `OutOfMemory`.
    fn start_server(
        &mut self,
        command: &mut Command<Global>,
    ) -> Result<(Self::Child, Incoming<Self::Output>), MatchFault>
        ensures serves { IfOk result (λ r. serves self.old (command_program command.old)
            (command_args command.old) r.0 r.1 self.new) }
        ensures serves_not { OnErr result (serves_not self.old (command_program command.old)
            (command_args command.old) self.new) }
        ensures server_gone { IfErr result IsServerFault };

    /// Starts an engine. Refuses `B5 EngineGone` if it cannot be started, and `OutOfMemory`.
    fn start_engine(
        &mut self,
        command: &mut Command<Global>,
    ) -> Result<(Self::Child, Side<Self::Output, Self::Input>), MatchFault>
        ensures thinks { IfOk result (λ r. thinks self.old (command_program command.old)
            (command_args command.old) r.0 r.1.lines r.1.writer self.new) }
        ensures thinks_not { OnErr result (thinks_not self.old (command_program command.old)
            (command_args command.old) self.new) }
        ensures engine_gone { IfErr result IsEngineFault };

    /// Connects to `HOST:PORT`. HOST is a name or an address, in brackets if it is one of IPv6.
    /// Tries each address of a name in turn.
    ///
    /// Refuses `B6 ServerGone` if there is no connection, and `OutOfMemory`.
    fn connect(&mut self, address: &str) -> Result<Side<Self::Reader, Self::Writer>, MatchFault>
        ensures connects { IfOk result
            (λ side. connects self.old address.now side.lines side.writer self.new) }
        ensures connects_not { OnErr result (connects_not self.old address.now self.new) }
        ensures server_gone { IfErr result IsServerFault };

    /// Ends a child. After a session that was finished it has time to end by itself.
    fn end(&mut self, child: Self::Child, after: SessionEnd)
        ensures ended { ended self.old child after self.new };
}

/// Where the standard error of a program goes.
#[derive(Drop)]
enum ErrorOutput {
    Nowhere,
    StandardError,
    File(File),
}

// Where the standard error of each program that is not yet started goes.
#[derive(Drop)]
struct ErrorOutputs {
    engine: ErrorOutput,
    server: ErrorOutput,
}

impl ErrorOutputs {
    // Where that of this program goes.
    fn take(&mut self, program: Peer) -> ErrorOutput
        ensures engine { program ≡ Peer.Engine → result ≡ self.old.engine }
        ensures server { program ≡ Peer.Server → result ≡ self.old.server }
    {
        match program {
            Peer::Engine => mem::replace(&mut self.engine, ErrorOutput::Nowhere),
            Peer::Server => mem::replace(&mut self.server, ErrorOutput::Nowhere),
        }
    }
}

/// The log, the programs and the connections of a game of a runtime.
#[derive(Drop)]
pub struct System<'a, R> {
    rt: &'a R,
    search_path: &'a SearchPath,
    explains: bool,
    errors: ErrorOutputs,
    reason: Option<String>,
}

impl<'a, R> System<'a, R> {
    /// Those of this runtime. If `explains`, standard error gets the system's reason for each that
    /// cannot be started or connected to.
    pub fn new(rt: &'a R, search_path: &'a SearchPath, explains: bool) -> System<'a, R>
        ensures explains { result.explains ≡ explains }
    {
        System {
            rt,
            search_path,
            explains,
            errors: ErrorOutputs {
                engine: ErrorOutput::Nowhere,
                server: ErrorOutput::Nowhere,
            },
            reason: None,
        }
    }
}

impl<R: Eprint + AllocGlobal> System<'_, R> {
    // Keeps why there is no such program or connection, and says it. An error of standard error is
    // ignored.
    fn explain_error(&mut self, name: &str, error: &io::Error) {
        if self.explains {
            let _ = self.rt.eprintln(format_args!("{name}: {error}"));
        }
        self.reason = format!(in self.rt.alloc(); "{name}: {error}").ok();
    }
}

// No contract can say what a started program does, what is at the other end of a connection, or
// what a file has.
impl<
    'a,
    R: Files<File = File>
        + Net<Listener = TcpListener, Stream = TcpStream>
        + Starter
        + Clock
        + Eprint
        + AllocGlobal,
> Programs for System<'a, R> {
    ghost use Rattle.std.specs.Prelude.{◌≡◌, ◌⊎◌, ⊤, None, Some, option_map, string_bytes};
    ghost use Rattle.session_commands.specs.Children.{IsStarted};

    type Log = TextLog<Stopwatch<'a, R>, LogWriter<'a, R>>;

    type Child = Member<R::Program>;

    type Input = <R::Program as OpenProcess>::Stdin;

    type Output = <R::Program as OpenProcess>::Stdout;

    type Reader = TcpStream;

    type Writer = TcpStream;

    ghost logs = { λ p name server log q. ⊤ };

    ghost logs_not = { λ p name server q. ⊤ };

    ghost reason = { λ p. option_map string_bytes p.reason };

    ghost explained = { λ p text q. (option_map string_bytes q.reason ≡ Some text)
        ⊎ (option_map string_bytes q.reason ≡ None) };

    ghost serves = { λ p program words child lines q. IsStarted R.starts p.rt.now program words };

    ghost serves_not = { λ p program words q. ⊤ };

    ghost thinks = { λ p program words child lines input q.
        IsStarted R.starts p.rt.now program words };

    ghost thinks_not = { λ p program words q. ⊤ };

    ghost connects = { λ p address lines writer q. ⊤ };

    ghost connects_not = { λ p address q. ⊤ };

    ghost ended = { λ p child end q. ⊤ };

    fn make_log(
        &mut self,
        name: Option<&str>,
        server: ServerChoice<'_>,
    ) -> Result<Option<Self::Log>, MatchFault> {
        let writer = match name {
            None => return Ok(None),
            Some("-") => {
                self.errors.engine = ErrorOutput::StandardError;
                self.errors.server = ErrorOutput::StandardError;
                LogWriter::StandardError(StandardError::new(self.rt))
            }
            Some(path) => {
                let file = created(self.rt, path)?;
                self.errors.engine = errors_beside(self.rt, path, ENGINE_ERRORS, &file)?;
                if starts_server(server) {
                    self.errors.server = errors_beside(self.rt, path, SERVER_ERRORS, &file)?;
                }
                LogWriter::File(file)
            }
        };
        let timer = Stopwatch::started(self.rt);
        Ok(Some(TextLog::new(self.rt.alloc(), timer, writer)))
    }

    fn reason(&self) -> Option<&str> {
        match &self.reason {
            Some(text) => Some(text.as_str()),
            None => None,
        }
    }

    // An error of standard error is ignored.
    fn explain(&mut self, text: &str) {
        if self.explains {
            let _ = self.rt.eprintln(text);
        }
        self.reason = match String::from_str(self.rt.alloc(), text) {
            Ok(reason) => Some(reason),
            Err(_) => None,
        };
    }

    fn start_server(
        &mut self,
        command: &mut Command<Global>,
    ) -> Result<(Self::Child, Incoming<Self::Output>), MatchFault> {
        let mut member = start(self, command, Peer::Server)?;
        match lines_of(self.rt.alloc(), &mut member.child, SERVER_GONE) {
            Ok(lines) => Ok((member, lines)),
            Err(fault) => {
                let _ = groups::end(self.rt, &mut member);
                Err(fault)
            }
        }
    }

    fn start_engine(
        &mut self,
        command: &mut Command<Global>,
    ) -> Result<(Self::Child, Side<Self::Output, Self::Input>), MatchFault> {
        let mut member = start(self, command, Peer::Engine)?;
        match side_of(self.rt.alloc(), &mut member.child) {
            Ok(side) => Ok((member, side)),
            Err(fault) => {
                let _ = groups::end(self.rt, &mut member);
                Err(fault)
            }
        }
    }

    fn connect(&mut self, address: &str) -> Result<Side<TcpStream, TcpStream>, MatchFault> {
        match connection(self.rt, address) {
            Ok((reader, writer)) => {
                let lines = Incoming::new(self.rt.alloc(), reader)?;
                Ok(Side { lines, writer })
            }
            Err(error) => {
                self.explain_error(address, &error);
                Err(memory_or(error.kind(), SERVER_GONE))
            }
        }
    }

    fn end(&mut self, child: Self::Child, after: SessionEnd) {
        let mut member = child;
        let _ = end_member(self.rt, &mut member, after);
    }
}

// A connection to the address, to read from and to write to.
fn connection<R: Net<Listener = TcpListener, Stream = TcpStream>>(
    rt: &R,
    address: &str,
) -> io::Result<(TcpStream, TcpStream)> {
    let writer = TcpStream::connect(rt, address)?;
    let reader = writer.try_clone()?;
    Ok((reader, writer))
}

// A file that is open and empty. Refuses `Write` if it cannot be made, and `OutOfMemory`.
fn created<R: Files<File = File>>(rt: &R, path: &str) -> Result<File, MatchFault>
    ensures faults { IfErr result IsFileFault }
{
    match fs::create(rt, path) {
        Ok(file) => Ok(file),
        Err(error) => Err(memory_or(error.kind(), MatchFault::Write)),
    }
}

// Where the standard error of a program goes if this is the log: to a file beside it, whose name
// has this at its end. Beside a device or a pipe there is none.
fn errors_beside<R: Files<File = File> + AllocGlobal>(
    rt: &R,
    path: &str,
    ending: &str,
    log: &File,
) -> Result<ErrorOutput, MatchFault>
    ensures faults { IfErr result IsFileFault }
{
    if !log.metadata().is_ok_and(|there| there.is_file()) {
        return Ok(ErrorOutput::Nowhere);
    }
    let path = format!(in rt.alloc(); "{path}{ending}")?;
    Ok(ErrorOutput::File(created(rt, path.as_str())?))
}

fn stream_of(errors: ErrorOutput) -> Stdio {
    match errors {
        ErrorOutput::Nowhere => Stdio::null(),
        ErrorOutput::StandardError => Stdio::inherit(),
        ErrorOutput::File(file) => Stdio::from(file),
    }
}

// Starts a program whose output is read, as the leader of a group if that can be.
fn start<R: SeesFiles + Starter + Eprint + AllocGlobal>(
    system: &mut System<'_, R>,
    command: &mut Command<Global>,
    program: Peer,
) -> Result<Member<R::Program>, MatchFault>
    ensures started { IfOk result (λ member. IsStarted R.starts system.old.rt.now
        (command_program command.old) (command_args command.old)) }
    ensures faults { IfErr result
        (λ fault. (fault ≡ fault_if_gone program) ⊎ (fault ≡ MatchFault.OutOfMemory)) }
{
    let stdin = input_of(program);
    let stderr = stream_of(system.errors.take(program));
    let spawned = match groups::leading(system.rt, system.search_path, command)? {
        Some(mut leading) => spawn(system.rt, &mut leading, stdin, stderr, Reach::Group),
        None => spawn(system.rt, command, stdin, stderr, Reach::Itself),
    };
    match spawned {
        Ok(member) => Ok(member),
        Err(error) => {
            system.explain_error(command.get_program(), &error);
            Err(fault_of(&error, program))
        }
    }
}

// The fault of a program that was not started.
fn fault_of(error: &io::Error, program: Peer) -> MatchFault
    ensures { (result ≡ fault_if_gone program) ⊎ (result ≡ MatchFault.OutOfMemory) }
{
    match program {
        Peer::Engine => memory_or(error.kind(), ENGINE_GONE),
        Peer::Server => memory_or(error.kind(), SERVER_GONE),
    }
}

// What a program reads: the engine what is written to it, and the server nothing.
fn input_of(program: Peer) -> Stdio
    ensures engine { program ≡ Peer.Engine → makes_pipe result ≡ true }
    ensures server { program ≡ Peer.Server → makes_pipe result ≡ false }
{
    match program {
        Peer::Engine => Stdio::piped(),
        Peer::Server => Stdio::null(),
    }
}

// Starts a program whose output is read. It does not get the password.
fn spawn<R: Starter>(
    rt: &R,
    command: &mut Command<Global>,
    stdin: Stdio,
    stderr: Stdio,
    reach: Reach,
) -> io::Result<Member<R::Program>>
    requires { reach ≡ Reach.Group → command_program command.old ≡ codes "setsid" }
    ensures { IfOk result (λ member.
        R.starts rt.now (command_program command.old) (command_args command.old)) }
{
    command.stdin(stdin);
    command.stdout(Stdio::piped());
    command.stderr(stderr);
    login::hide_password(command)?;
    let child = rt.start(command)?;
    Ok(Member { child, reach })
}

/// A server and its words: `serve --port 0 --max N`, one game of at most `max_moves` moves on a
/// port of its choice.
pub fn server_command(
    alloc: Global,
    program: &str,
    max_moves: u32,
) -> Result<Command<Global>, AllocError>
    ensures program { IfOk result (λ c. command_program c ≡ program.now) }
    ensures words { IfOk result (λ c. command_args c ≡ serve_words max_moves) }
{
    let mut command = Command::new(alloc, program)?;
    let max_moves = format!(in alloc; "{max_moves}")?;
    command.arg("serve")?;
    command.arg("--port")?;
    command.arg("0")?;
    command.arg("--max")?;
    command.arg(max_moves.as_str())?;
    Ok(command)
}

/// An engine and its words, in order.
pub fn engine_command(
    alloc: Global,
    program: &str,
    words: &[&str],
) -> Result<Command<Global>, AllocError>
    ensures program { IfOk result (λ c. command_program c ≡ program.now) }
    ensures words { IfOk result (λ c. command_args c ≡ engine_words words.now) }
{
    let mut command = Command::new(alloc, program)?;
    for word in words {
        command.arg(*word)?;
    }
    Ok(command)
}

/// The address of that port on this machine. Returns an error if an allocation fails.
pub fn local_address(alloc: Global, port: u16) -> Result<String, AllocError>
    ensures { IfOk result (λ text. string_bytes text ≡ local_address port) }
{
    format!(in alloc; "127.0.0.1:{port}")
}

// The lines of the child's standard output. Refuses `fault` if that is not captured, and
// `OutOfMemory`.
fn lines_of<P: OpenProcess + Drop>(
    alloc: Global,
    child: &mut Child<P>,
    fault: MatchFault,
) -> Result<Incoming<P::Stdout>, MatchFault>
    ensures faults { IfErr result (λ f. (f ≡ fault) ⊎ (f ≡ MatchFault.OutOfMemory)) }
{
    match child.stdout.take() {
        Some(output) => Ok(Incoming::new(alloc, output)?),
        None => Err(fault),
    }
}

// The lines of the engine's standard output, and its standard input.
fn side_of<P: OpenProcess + Drop>(
    alloc: Global,
    child: &mut Child<P>,
) -> Result<Side<P::Stdout, P::Stdin>, MatchFault>
    ensures faults { IfErr result IsEngineFault }
{
    let lines = lines_of(alloc, child, ENGINE_GONE)?;
    match child.stdin.take() {
        Some(writer) => Ok(Side { lines, writer }),
        None => Err(ENGINE_GONE),
    }
}

// Ends a child and its group, so that none outlives the program. After a session that was finished
// the child has ten seconds to end by itself; any other child is ended at once. Returns whether it
// has ended.
fn end_member<R: Clock + Starter + AllocGlobal, P: OpenProcess + Drop>(
    rt: &R,
    member: &mut Member<P>,
    after: SessionEnd,
) -> bool
    ensures ended { result ≡ true → is_some (child_status member.new.child) ≡ true }
{
    if has_ended(rt, &mut member.child, after) {
        let _ = groups::end_group(rt, member);
        return true;
    }
    groups::end(rt, member)
}

// Whether the child ends by itself in the time that it has.
fn has_ended<R: Clock, P: OpenProcess + Drop>(
    rt: &R,
    child: &mut Child<P>,
    after: SessionEnd,
) -> bool
    ensures ended { result ≡ true → is_some (child_status child.new) ≡ true }
{
    for _ in 0..checks_after(after) {
        match child.try_wait() {
            Ok(Some(_)) => return true,
            Ok(None) => thread::sleep(rt, Duration::from_millis(REST_MS)),
            Err(_) => return false,
        }
    }
    false
}

// How many times to check whether a child has ended.
fn checks_after(after: SessionEnd) -> u32
    ensures finished { after ≡ SessionEnd.Finished → result ≡ 1000 }
    ensures broken_off { after ≡ SessionEnd.BrokenOff → result ≡ 0 }
{
    match after {
        SessionEnd::Finished => CHECKS,
        SessionEnd::BrokenOff => 0,
    }
}
