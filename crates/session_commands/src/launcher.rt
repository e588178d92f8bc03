//! The server and the engine of a game: started, joined to a bridge, and ended.

ghost use Rattle.std.specs.Prelude.{◌≡◌, ◌++◌, ◌∷◌, [], IfErr, IfOk, OnErr, OnOk, None, option_map, string_bytes};
ghost use Rattle.session_commands.specs.Launching.{IsApart, IsJoined, IsJoinedByPort, IsPortless, IsStarted, IsUnstarted};
ghost use Rattle.session_commands.specs.NoGame.{no_game_text, play_words, reason_line};
ghost use Rattle.session_commands.specs.Ports.{SaysNoPort, SaysPort, other_line_text};

use crate::bridging::{Ends, Side, Sides};
use crate::children::{
    Programs, SERVER_GONE, SessionEnd, engine_command, local_address, server_command,
};
use crate::ending::excerpt_of;
use crate::fault_words::{login_words, match_words};
use crate::log::{Log, Logged};
use crate::port_line::{FirstLine, first_line};
use record_commands::incoming::Incoming;
use session_setup::{MatchFault, PlayCommandFault};
use shogi_words::{Plan, ServerChoice};
use std::alloc::{AllocError, Global};

// Why there is no port, if the server's first line is too long.
const LONG_LINE: &str = "the server's first line has more than 65536 bytes";

// Why there is none, if there is no line.
const NO_LINE: &str = "the server ended before it printed its port";

/// What starts and ends the programs of a game.
pub trait Launcher {
    ghost use Rattle.session_commands.specs.declared.children.SessionEnd.{SessionEnd as End};
    ghost use Rattle.session_setup.specs.Faults.{IsFileFault};
    ghost use Rattle.session_setup.specs.declared.fault.MatchFault.{MatchFault as Fault};
    ghost use Rattle.session_setup.specs.declared.fault.PlayCommandFault.{PlayCommandFault as Reported};
    ghost use Rattle.shogi_words.specs.declared.play.Plan.{Plan as Planned};

    /// The two ends of the game.
    type Peers: Ends + Drop;

    /// The programs that run.
    type Running: Drop;

    // It has these ends, and these programs run: the plan's engine, and its server if it is one to
    // start.
    ghost started: { Self → Planned → Self.Peers → Self.Running → Self → Type 0 };

    // There is no game for this reason, and no program runs.
    ghost unstarted: { Self → Planned → Fault → Self → Type 0 };

    // Each of the programs has ended. After a session that was finished it had time to end by
    // itself.
    ghost stopped: { Self → Self.Peers → Self.Running → End → Self → Type 0 };

    // Why there was no game was added to the log of a game that did not begin, if it has one.
    ghost notes: { Self → Reported → Self → Type 0 };

    // That log refused it, or there was not enough memory for the text.
    ghost notes_not: { Self → Reported → Self → Type 0 };

    /// Makes the log, if the plan has one, and only then starts the server, if there is one to
    /// start, connects to it, and starts the engine. If there is no game, a server that was
    /// started is ended.
    ///
    /// Refuses `Write` if the log cannot be made, `B6 ServerGone` if the server cannot be started,
    /// says no port or cannot be connected to, `B5 EngineGone` if the engine cannot be started,
    /// and `OutOfMemory`.
    fn start(&mut self, plan: &Plan<'_, '_>) -> Result<(Self::Peers, Self::Running), MatchFault>
        ensures started { IfOk result (λ r. started self.old plan.now r.0 r.1 self.new) }
        ensures unstarted { IfErr result (λ fault. unstarted self.old plan.now fault self.new) };

    /// Ends each program that was started.
    fn stop(&mut self, peers: Self::Peers, running: Self::Running, after: SessionEnd)
        ensures stopped { stopped self.old peers running after self.new };

    /// Adds to the log why there was no game: the system's reason, if there is one, and the fault.
    /// The log of a game is closed already, and gets nothing.
    ///
    /// Refuses `Write` if the log cannot be written, and `OutOfMemory`.
    fn note_fault(&mut self, fault: PlayCommandFault) -> Result<(), MatchFault>
        ensures noted { OnOk result (notes self.old fault self.new) }
        ensures unnoted { OnErr result (notes_not self.old fault self.new) }
        ensures faults { IfErr result IsFileFault };
}

/// An engine of this machine, and a server of this machine or another.
#[derive(Drop)]
pub struct Local<P: Programs + Drop> {
    alloc: Global,
    programs: P,
    // That of a game that did not begin, if it has one.
    log: Option<P::Log>,
}

/// The programs of a game that were started.
#[derive(Drop)]
pub struct Running<P: Programs> {
    // None if the server ran already.
    server: Option<RunningServer<P>>,
    engine: P::Child,
}

/// A server that was started, and its output.
#[derive(Drop)]
pub struct RunningServer<P: Programs> {
    child: P::Child,
    lines: Incoming<P::Output>,
}

impl<P: Programs + Drop> Local<P> {
    /// No log is made and nothing is started yet.
    pub fn new(alloc: Global, programs: P) -> Local<P>
        ensures programs { result.programs ≡ programs }
        ensures log { result.log ≡ None }
    {
        Local {
            alloc,
            programs,
            log: None,
        }
    }
}

impl<P: Programs + Drop> Launcher for Local<P> {
    ghost use Rattle.std.specs.Prelude.{◌≡◌, option_map};
    ghost use Rattle.session_commands.specs.Launching.{IsLogged, HasNoGame, IsStopped};
    ghost use Rattle.session_commands.specs.NoGame.{NotesFault, NotesNoFault};

    type Peers = Logged<Sides<P::Output, P::Input, P::Reader, P::Writer>, Option<P::Log>>;

    type Running = Running<P>;

    ghost started = { λ h plan peers running k. IsLogged P.logs P.serves P.thinks P.connects
        plan h.programs peers.1 running.engine peers.0.engine.lines peers.0.engine.writer
        peers.0.server.lines peers.0.server.writer k.programs
        (option_map (λ s. s.child) running.server) × (k.log ≡ h.log) };

    ghost unstarted = { λ h plan fault k. HasNoGame P.logs P.logs_not P.serves P.serves_not
        P.explained P.connects P.connects_not P.thinks_not P.ended
        plan h.programs k.log k.programs fault };

    ghost stopped = { λ h peers running end k. IsStopped P.ended h.programs running.engine end
        k.programs (option_map (λ s. s.child) running.server) × (k.log ≡ h.log) };

    ghost notes = { λ h fault k. NotesFault P.Log.Log.closed (P.reason h.programs)
        h.log fault k.log × (k.programs ≡ h.programs) };

    ghost notes_not = { λ h fault k. NotesNoFault P.Log.Log.unclosed (P.reason h.programs)
        h.log fault k.log × (k.programs ≡ h.programs) };

    fn start(&mut self, plan: &Plan<'_, '_>) -> Result<(Self::Peers, Self::Running), MatchFault> {
        let log = self.programs.make_log(plan.log, plan.server)?;
        match start(self.alloc, &mut self.programs, plan) {
            Ok((ends, running)) => Ok((Logged { ends, log }, running)),
            Err(fault) => {
                self.log = log;
                Err(fault)
            }
        }
    }

    // Each program finds its input at an end before it is waited for. What it writes is not read
    // then, but there is a reader until it has ended.
    fn stop(&mut self, peers: Self::Peers, running: Self::Running, after: SessionEnd) {
        let Logged { ends, log: _log } = peers;
        let Sides { engine, server } = ends;
        let Side {
            lines: _engine_lines,
            writer,
        } = engine;
        let Running {
            server: started,
            engine: engine_child,
        } = running;
        drop(writer);
        self.programs.end(engine_child, after);
        drop(server);
        if let Some(
            RunningServer {
                child,
                lines: _lines,
            },
        ) = started
        {
            self.programs.end(child, after);
        }
    }

    fn note_fault(&mut self, fault: PlayCommandFault) -> Result<(), MatchFault> {
        let text = no_game_text(self.alloc, self.programs.reason(), fault)?;
        self.log.close(text.as_bytes())
    }
}

// Why there was no game: the reason, if there is one, and the fault, a line each.
fn no_game_text(
    alloc: Global,
    reason: Option<&str>,
    fault: PlayCommandFault,
) -> Result<String, AllocError>
    ensures { IfOk result (λ text. string_bytes text
        ≡ no_game_text (option_map (λ s. s.now) reason.entry) fault) }
{
    let reason = reason_line(alloc, reason)?;
    let line = fault_line(alloc, fault)?;
    format!(in alloc; "{reason}{line}")
}

// The line with the reason, if there is one.
fn reason_line(alloc: Global, reason: Option<&str>) -> Result<String, AllocError>
    ensures { IfOk result (λ text. string_bytes text
        ≡ reason_line (option_map (λ s. s.now) reason.entry)) }
{
    match reason {
        Some(reason) => format!(in alloc; "{reason}\n"),
        None => Ok(String::new(alloc)),
    }
}

// The line with the fault.
fn fault_line(alloc: Global, fault: PlayCommandFault) -> Result<String, AllocError>
    ensures { IfOk result (λ text. string_bytes text ≡ play_words fault ++ 10 ∷ []) }
{
    match fault {
        PlayCommandFault::Plan(fault) => format!(in alloc; "{fault}\n"),
        PlayCommandFault::Login(fault) => words_line(alloc, login_words(fault)),
        PlayCommandFault::Match(fault) => words_line(alloc, match_words(fault)),
    }
}

// The words, and LF.
fn words_line(alloc: Global, words: &str) -> Result<String, AllocError>
    ensures { IfOk result (λ text. string_bytes text ≡ words.now ++ 10 ∷ []) }
{
    format!(in alloc; "{words}\n")
}

// Starts the server, if the plan has one to start, connects to it, and starts the engine. If there
// is no game, a server that was started is ended.
fn start<P: Programs>(
    alloc: Global,
    programs: &mut P,
    plan: &Plan<'_, '_>,
) -> Result<(Sides<P::Output, P::Input, P::Reader, P::Writer>, Running<P>), MatchFault>
    ensures started { IfOk result (λ r. IsStarted P.serves P.thinks P.connects
        plan.now programs.old r.1.engine r.0.engine.lines r.0.engine.writer
        r.0.server.lines r.0.server.writer programs.new
        (option_map (λ s. s.child) r.1.server)) }
    ensures unstarted { IfErr result (IsUnstarted P.serves P.serves_not P.explained P.connects
        P.connects_not P.thinks_not P.ended plan.now programs.old programs.new) }
{
    match plan.server {
        ServerChoice::Started { program, max_moves } => {
            let mut command = server_command(alloc, program, max_moves)?;
            let (child, mut lines) = programs.start_server(&mut command)?;
            match join_by_port(alloc, programs, plan, &mut lines) {
                Ok((sides, engine)) => {
                    let server = Some(RunningServer { child, lines });
                    Ok((sides, Running { server, engine }))
                }
                Err(fault) => {
                    programs.end(child, SessionEnd::BrokenOff);
                    Err(fault)
                }
            }
        }
        ServerChoice::At(address) => {
            let (sides, engine) = join(alloc, programs, plan, address)?;
            Ok((
                sides,
                Running {
                    server: None,
                    engine,
                },
            ))
        }
    }
}

// Connects to the server that says its port, and starts the engine.
fn join_by_port<P: Programs>(
    alloc: Global,
    programs: &mut P,
    plan: &Plan<'_, '_>,
    server_lines: &mut Incoming<P::Output>,
) -> Result<(Sides<P::Output, P::Input, P::Reader, P::Writer>, P::Child), MatchFault>
    ensures joined { IfOk result (λ r. IsJoinedByPort P.thinks P.connects
        plan.now server_lines.old programs.old r.1 r.0.engine.lines r.0.engine.writer
        r.0.server.lines r.0.server.writer programs.new) }
    ensures portless { IfErr result (IsPortless P.explained P.connects P.connects_not P.thinks_not
        plan.now server_lines.old server_lines.new programs.old programs.new) }
{
    let port = stated_port(alloc, programs, server_lines)?;
    let address = local_address(alloc, port)?;
    join(alloc, programs, plan, address.as_str())
}

// The port that the server states. If it states none, keeps why.
fn stated_port<P: Programs>(
    alloc: Global,
    programs: &mut P,
    server_lines: &mut Incoming<P::Output>,
) -> Result<u16, MatchFault>
    ensures stated { IfOk result (λ port.
        SaysPort server_lines.old port × (programs.new ≡ programs.old)) }
    ensures silent { IfErr result (SaysNoPort
        P.explained server_lines.old server_lines.new programs.old programs.new) }
{
    match first_line(server_lines)? {
        FirstLine::Port(port) => Ok(port),
        FirstLine::Other => {
            let reason = other_line_text(alloc, server_lines.line())?;
            programs.explain(reason.as_str());
            Err(SERVER_GONE)
        }
        FirstLine::Long => {
            programs.explain(LONG_LINE);
            Err(SERVER_GONE)
        }
        FirstLine::Missing => {
            programs.explain(NO_LINE);
            Err(SERVER_GONE)
        }
    }
}

// Why there is no port, if this is the server's first line.
fn other_line_text(alloc: Global, line: &[u8]) -> Result<String, AllocError>
    ensures { IfOk result (λ text. string_bytes text ≡ other_line_text line.now) }
{
    let shown = excerpt_of(line);
    let shown = shown.as_str();
    format!(in alloc; "the server's first line is no port line: {shown}")
}

// Connects to the address, and starts the engine.
fn join<P: Programs>(
    alloc: Global,
    programs: &mut P,
    plan: &Plan<'_, '_>,
    address: &str,
) -> Result<(Sides<P::Output, P::Input, P::Reader, P::Writer>, P::Child), MatchFault>
    ensures joined { IfOk result (λ r. IsJoined P.thinks P.connects
        plan.now address.now programs.old r.1 r.0.engine.lines r.0.engine.writer
        r.0.server.lines r.0.server.writer programs.new) }
    ensures apart { IfErr result (IsApart P.connects P.connects_not P.thinks_not
        plan.now address.now programs.old programs.new) }
{
    let server = programs.connect(address)?;
    let mut command = engine_command(alloc, plan.engine, plan.engine_words)?;
    let (child, engine) = programs.start_engine(&mut command)?;
    Ok((Sides { engine, server }, child))
}
