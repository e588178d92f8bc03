//! Plays one game of a USI engine on a CSA server, and writes its record.

ghost use Rattle.std.specs.Prelude.{◌≡◌, true, false, IfErr, IfOk, OnOk, string_bytes};
ghost use Rattle.std.specs.Io.KnownBytes.{Appends};
ghost use Rattle.session_commands.specs.Endings.{end_text};
ghost use Rattle.session_commands.specs.Kept.{IsKept, KeepsRecord, report_of};
ghost use Rattle.session_setup.specs.Logins.{AreLoginWords, HasNoLogin, IsLoginOf};
ghost use Rattle.session_setup.specs.Paths.{HasSoundWords};
ghost use Rattle.session_commands.specs.Playing.{ClosesLog, IsPlayed, IsReported, IsUnreported, NotesIfNone, PlaysAndKeeps, PlaysFor, PlaysIn, played_line, session_end};
ghost use Rattle.session_commands.specs.Runs.{IsNoPlanFault, IsRunFault};
ghost use Rattle.bridge_table.specs.declared.state.ClientState.{ClientState};
ghost use Rattle.shogi_session.specs.State.{client_state, first_state};

use crate::bridging::{Ends, play};
use crate::children::{SessionEnd, System};
use crate::launcher::{Launcher, Local};
use crate::progress::{Progress, SaysLines, Screen};
use record_commands::streams;
use session_setup::disk::LocalDisk;
use session_setup::login::{Login, RuntimeSecrets, Secrets, login_of};
use session_setup::out_file::{Named, TextPlace};
use session_setup::reading::Variables;
use session_setup::starting::Starter;
use session_setup::{MatchFault, PlayCommandFault, SearchPath, paths};
use shogi_board::OutOfMemory;
use shogi_session::{Bridge, ClientState, Config};
use shogi_words::Plan;
use std::alloc::{AllocError, Global};
use std::fs::File;
use std::io::{self, Eprint, Write};
use std::net::{Net, TcpListener, TcpStream};
use std::rt::Files;
use std::time::Clock;

/// Starts the server, if the plan has one to start, connects to it, starts the engine, plays their
/// game, writes its record, and prints `played` and the number of its moves. If a game was offered,
/// its record is written even if the session failed, but a game that never began replaces no file.
/// The password is that of the plan's file, or of the environment variable `SHOGI_PASSWORD`, or
/// `pw`.
///
/// Before anything is started, refuses `Plan` if the words of the plan do not go together or the
/// log is a file that is needed, `BadName`, `Read` if the file with the password cannot be read,
/// `BadPassword`, `Write` if there can be no new file beside that of the record or if the log
/// cannot be made, and `OutOfMemory`. After that refuses `Session` if the session fails, `Endless`
/// if it goes on for 2^64 - 1 rounds, `Write` if the record, the log or the last line cannot be
/// written, and `OutOfMemory`.
pub fn run<
    R: Variables
        + Files<File = File>
        + Net<Listener = TcpListener, Stream = TcpStream>
        + Starter
        + Clock
        + Print
        + Eprint
        + AllocGlobal,
>(rt: &R, plan: &Plan<'_, '_>) -> Result<(), PlayCommandFault>
    ensures sound { OnOk result (HasSoundWords plan.now) }
    ensures fault { IfErr result (IsRunFault plan.now) }
{
    paths::check(plan)?;
    let search_path = SearchPath::of(rt)?;
    paths::check_files(rt, &search_path, plan)?;
    let secrets = RuntimeSecrets::new(rt);
    let screen = Screen::new(rt, plan.is_shown);
    let mut launcher = Local::new(rt.alloc(), System::new(rt, &search_path, plan.is_shown));
    let mut place = Named::new(rt.alloc(), LocalDisk::new(rt), plan.out);
    let mut out = io::writer(rt);
    play_checked(
        rt.alloc(),
        &screen,
        &secrets,
        &mut launcher,
        &mut place,
        &mut out,
        plan,
    )
}

// Plays a game whose plan was checked, and adds to the log why there was none.
fn play_checked<R: SaysLines + AllocGlobal, S: Secrets, H: Launcher, P: TextPlace, W: Write>(
    alloc: Global,
    screen: &Screen<'_, R, H::Peers>,
    secrets: &S,
    launcher: &mut H,
    place: &mut P,
    out: &mut W,
    plan: &Plan<'_, '_>,
) -> Result<(), PlayCommandFault>
    requires { HasSoundWords plan.now }
    ensures noted { NotesIfNone H.notes H.notes_not (λ between answer. IsPlayed
        (IsLoginOf S.opens S.File.Read.remaining S.holds secrets.now plan.now)
        (HasNoLogin S.opens S.opens_not S.File.Read.remaining
        S.holds S.holds_no_text secrets.now plan.now)
        (λ login. IsReported (PlaysFor H.started H.unstarted
        H.stopped H.Peers.Ends.came H.Peers.Ends.missed H.Peers.Ends.went H.Peers.Ends.gone
        H.Peers.Ends.closed H.Peers.Ends.unclosed
        P.begun P.unbegun P.took P.refused P.dropped P.replaced
        plan.now login launcher.old place.old between place.new)
        W.contents out.old out.new)
        ((between ≡ launcher.old) × (place.new ≡ place.old) × (out.new ≡ out.old))
        answer) launcher.new result }
    ensures fault { IfErr result IsNoPlanFault }
{
    match play_planned(alloc, screen, secrets, launcher, place, out, plan) {
        Ok(()) => Ok(()),
        Err(fault) => {
            launcher.note_fault(fault)?;
            Err(fault)
        }
    }
}

// Plays the planned game between the programs of the launcher with the login that the plan asks
// for, and prints the number of its moves.
fn play_planned<R: SaysLines + AllocGlobal, S: Secrets, H: Launcher, P: TextPlace, W: Write>(
    alloc: Global,
    screen: &Screen<'_, R, H::Peers>,
    secrets: &S,
    launcher: &mut H,
    place: &mut P,
    out: &mut W,
    plan: &Plan<'_, '_>,
) -> Result<(), PlayCommandFault>
    ensures { IsPlayed
        (IsLoginOf S.opens S.File.Read.remaining S.holds secrets.now plan.now)
        (HasNoLogin S.opens S.opens_not S.File.Read.remaining
        S.holds S.holds_no_text secrets.now plan.now)
        (λ login. IsReported (PlaysFor H.started H.unstarted
        H.stopped H.Peers.Ends.came H.Peers.Ends.missed H.Peers.Ends.went H.Peers.Ends.gone
        H.Peers.Ends.closed H.Peers.Ends.unclosed
        P.begun P.unbegun P.took P.refused P.dropped P.replaced
        plan.now login launcher.old place.old launcher.new place.new)
        W.contents out.old out.new)
        ((launcher.new ≡ launcher.old) × (place.new ≡ place.old) × (out.new ≡ out.old))
        result }
{
    let login = login_of(alloc, secrets, plan)?;
    report(alloc, screen, &login, launcher, place, out, plan)?;
    Ok(())
}

// Plays the planned game between the programs of the launcher with that login, and prints the
// number of its moves.
fn report<R: SaysLines + AllocGlobal, H: Launcher, P: TextPlace, W: Write>(
    alloc: Global,
    screen: &Screen<'_, R, H::Peers>,
    login: &Login,
    launcher: &mut H,
    place: &mut P,
    out: &mut W,
    plan: &Plan<'_, '_>,
) -> Result<(), MatchFault>
    requires { AreLoginWords login.now }
    ensures { IsReported (PlaysFor H.started H.unstarted
        H.stopped H.Peers.Ends.came H.Peers.Ends.missed H.Peers.Ends.went H.Peers.Ends.gone
        H.Peers.Ends.closed H.Peers.Ends.unclosed
        P.begun P.unbegun P.took P.refused P.dropped P.replaced
        plan.now login.now launcher.old place.old launcher.new place.new)
        W.contents out.old out.new result }
{
    let moves = play_for(alloc, screen, login, launcher, place, plan)?;
    print_moves(alloc, out, moves)
}

// Prints the line with the number of moves.
fn print_moves<W: Write>(alloc: Global, out: &mut W, moves: usize) -> Result<(), MatchFault>
    ensures printed { OnOk result
        (Appends (W.contents out.old) (W.contents out.new) (played_line moves)) }
    ensures unprinted { IfErr result
        (IsUnreported W.contents (played_line moves) out.old out.new) }
{
    let line = played_line(alloc, moves)?;
    streams::write_all(out, line.as_bytes())?;
    Ok(())
}

// The line with the number of moves, and LF.
fn played_line(alloc: Global, moves: usize) -> Result<String, AllocError>
    ensures { IfOk result (λ text. string_bytes text ≡ played_line moves) }
{
    format!(in alloc; "played {moves}\n")
}

// Plays the planned game between the programs of the launcher with that login, if its record can
// be written. Returns the number of moves of the game.
fn play_for<R: SaysLines + AllocGlobal, H: Launcher, P: TextPlace>(
    alloc: Global,
    screen: &Screen<'_, R, H::Peers>,
    login: &Login,
    launcher: &mut H,
    place: &mut P,
    plan: &Plan<'_, '_>,
) -> Result<usize, MatchFault>
    requires { AreLoginWords login.now }
    ensures { PlaysFor H.started H.unstarted
        H.stopped H.Peers.Ends.came H.Peers.Ends.missed H.Peers.Ends.went H.Peers.Ends.gone
        H.Peers.Ends.closed H.Peers.Ends.unclosed
        P.begun P.unbegun P.took P.refused P.dropped P.replaced
        plan.now login.now launcher.old place.old launcher.new place.new result }
{
    let draft = place.begin()?;
    play_in(alloc, screen, login, launcher, place, draft, plan)
}

// Plays the planned game between the programs of the launcher with that login, and writes its
// record to the draft. Returns the number of moves of the game.
fn play_in<R: SaysLines + AllocGlobal, H: Launcher, P: TextPlace>(
    alloc: Global,
    screen: &Screen<'_, R, H::Peers>,
    login: &Login,
    launcher: &mut H,
    place: &mut P,
    draft: P::Draft,
    plan: &Plan<'_, '_>,
) -> Result<usize, MatchFault>
    requires { AreLoginWords login.now }
    ensures played { PlaysIn H.started H.unstarted
        H.stopped H.Peers.Ends.came H.Peers.Ends.missed H.Peers.Ends.went H.Peers.Ends.gone
        H.Peers.Ends.closed H.Peers.Ends.unclosed P.took P.refused P.dropped P.replaced draft
        plan.now login.now launcher.old place.old launcher.new place.new result }
{
    screen.say_server_waited_for();
    let (mut peers, running) = match launcher.start(plan) {
        Ok(started) => started,
        Err(fault) => {
            place.abandon(draft);
            return Err(fault);
        }
    };
    let mut bridge = match bridge_of(alloc, login, plan) {
        Ok(bridge) => bridge,
        Err(_) => {
            place.abandon(draft);
            launcher.stop(peers, running, SessionEnd::BrokenOff);
            return Err(MatchFault::OutOfMemory);
        }
    };
    let game = play_between(alloc, screen, &mut bridge, &mut peers, place, draft);
    launcher.stop(peers, running, game.session);
    game.moves
}

// What a session and its game came to.
#[derive(Clone, Copy)]
struct Kept {
    session: SessionEnd,
    // The number of moves of the game, or the fault to report.
    moves: Result<usize, MatchFault>,
}

// Plays between two ends, and keeps the game.
fn play_between<R: SaysLines + AllocGlobal, E: Ends, P: TextPlace>(
    alloc: Global,
    screen: &Screen<'_, R, E>,
    bridge: &mut Bridge,
    ends: &mut E,
    place: &mut P,
    draft: P::Draft,
) -> Kept
    ensures whole { PlaysAndKeeps E.came E.missed E.went E.gone E.closed E.unclosed
        P.took P.refused P.dropped P.replaced draft ends.old bridge.old place.old
        ends.new bridge.new place.new result.session result.moves }
{
    let mut progress = Progress::new(screen);
    progress.begin();
    let played = play(bridge, ends, &mut progress);
    progress.finish(played);
    let kept = keep_game(place, draft, bridge, played);
    Kept {
        session: session_end(played),
        moves: close_log(alloc, ends, &progress, played, kept),
    }
}

// How a session with this outcome ended.
fn session_end(played: Result<(), MatchFault>) -> SessionEnd
    ensures { result ≡ session_end played }
{
    match played {
        Ok(()) => SessionEnd::Finished,
        Err(_) => SessionEnd::BrokenOff,
    }
}

// Adds to the log how the session ended. Returns what became of the game, or else the log's fault.
fn close_log<R, E: Ends>(
    alloc: Global,
    ends: &mut E,
    progress: &Progress<'_, R, E>,
    played: Result<(), MatchFault>,
    kept: Result<usize, MatchFault>,
) -> Result<usize, MatchFault>
    ensures { ClosesLog E.closed E.unclosed (end_text progress.now.ended played)
        ends.old ends.new kept result }
{
    let text = progress.end_text(alloc, played)?;
    ends.close(text.as_bytes())?;
    kept
}

// Puts the record of the bridge's game in its place, if there is a game, whether the session ended
// well or not. Returns the number of moves of the game.
fn keep_game<P: TextPlace>(
    place: &mut P,
    draft: P::Draft,
    bridge: &Bridge,
    played: Result<(), MatchFault>,
) -> Result<usize, MatchFault>
    ensures kept { KeepsRecord P.took P.refused P.dropped P.replaced draft
        bridge.now.state.client played place.old place.new result }
{
    if !is_kept(place, &draft, bridge) {
        place.abandon(draft);
        return report_of(played, 0);
    }
    let found = match bridge.game_text() {
        Ok(found) => found,
        Err(_) => {
            place.abandon(draft);
            return Err(MatchFault::OutOfMemory);
        }
    };
    let Some(text) = found else {
        place.abandon(draft);
        return report_of(played, 0);
    };
    place.finish(draft, text.as_slice())?;
    report_of(played, bridge.moves().unwrap_or(0))
}

// Whether the record of the game is kept, if there is one: a game that never began replaces no
// file.
fn is_kept<P: TextPlace>(place: &P, draft: &P::Draft, bridge: &Bridge) -> bool
    ensures kept { result ≡ true → IsKept bridge.now.state.client (P.replaced draft.now) }
    ensures left { result ≡ false → (client_state bridge.now.state.client ≡ ClientState.Agreeing)
        × (P.replaced draft.now ≡ true) }
{
    bridge.client_state() != ClientState::Agreeing || !place.replaces(draft)
}

// The fault of the session, or else this number of moves.
fn report_of(played: Result<(), MatchFault>, moves: usize) -> Result<usize, MatchFault>
    ensures { result ≡ report_of played moves }
{
    played?;
    Ok(moves)
}

// A bridge to which nothing has happened, with that login and the plan's clocks.
fn bridge_of(alloc: Global, login: &Login, plan: &Plan<'_, '_>) -> Result<Bridge, OutOfMemory>
    requires { AreLoginWords login.now }
    ensures login { IfOk result (λ bridge. (bridge.config.name.bytes ≡ login.now.name.bytes)
        × (bridge.config.password.bytes ≡ login.now.password.bytes)) }
    ensures clocks { IfOk result (λ bridge. (bridge.config.total_ms ≡ plan.now.total_ms)
        × (bridge.config.byoyomi_ms ≡ plan.now.byoyomi_ms)) }
    ensures state { IfOk result (λ bridge. bridge.state ≡ first_state) }
{
    let config = Config {
        name: login.name,
        password: login.password,
        total_ms: plan.total_ms,
        byoyomi_ms: plan.byoyomi_ms,
    };
    Bridge::new(alloc, &config)
}
