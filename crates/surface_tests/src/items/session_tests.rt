ghost use Rattle.shogi_session.specs.Promises.{HoldsLine, event_of};

use crate::items::memory::{refuse_all, refuse_no_more};
use arrayvec::ArrayString;
use csa_record::Why;
use csa_text::TextFault;
use shogi_board::{Color, OutOfMemory};
use shogi_session::{
    Bridge, ClientState, Config, EngineState, Event, Host, HostConfig, HostOut, Lines, MoveCause,
    Out, Sample, SampleOut, SessionFault, Status, SummaryFault, Waits,
};
use std::alloc::Global;
use std::process::Abort;
use std::test::Fail;

fn bridge(alloc: Global) -> Result<Bridge, Fail> {
    let config = Config {
        name: ArrayString::from("bridge")?,
        password: ArrayString::from("pw")?,
        total_ms: 600_000,
        byoyomi_ms: 10_000,
    };
    let bridge: Result<Bridge, OutOfMemory> = Bridge::new(alloc, &config);
    Ok(bridge?)
}

fn stands_at_the_beginning(rt: &impl Abort, bridge: &Bridge) {
    let engine: EngineState = bridge.engine_state();
    let client: ClientState = bridge.client_state();
    let waits: Waits = bridge.waits_for();
    let slip: bool = bridge.slip();
    let moves: Option<usize> = bridge.moves();
    assert!(rt; engine == EngineState::New && client == ClientState::Idle);
    assert!(rt; waits == Waits::Nobody && !slip && moves.is_none());
}

fn has_no_game(rt: &impl Abort, bridge: &Bridge) -> Result<(), Fail> {
    let text: Result<Option<Vec<u8>>, OutOfMemory> = bridge.game_text();
    assert!(rt; text?.is_none());
    Ok(())
}

fn has_begun(rt: &impl Abort, out: &Out) {
    let to_engine: &Lines = &out.to_engine;
    let bytes: &[u8] = to_engine.bytes();
    assert!(rt; bytes == b"usi\n".as_slice() && out.to_server.bytes().is_empty());
    assert!(rt; out.status == Status::Going);
}

fn made_without_memory(
    rt: &(impl Abort + AllocGlobal + Print),
    bridge: &mut Bridge,
) -> Result<(), Fail> {
    has_no_game(rt, bridge)?;
    refuse_all(rt);
    stands_at_the_beginning(rt, bridge);
    refuse_no_more(rt)?;
    let out: Out = bridge.step(Event::Begin)?;
    refuse_all(rt);
    has_begun(rt, &out);
    refuse_no_more(rt)
}

#[test]
fn needs_no_memory_in_a_bridge(rt: HostRuntime) -> Result<(), Fail> {
    let mut bridge = bridge(rt.alloc())?;
    made_without_memory(&rt, &mut bridge)
}

// The session's status after an event.
fn status_with(bridge: &mut Bridge, event: Event<'_>) -> Result<Status, Fail>
    requires { HoldsLine (event_of event) }
{
    let out = bridge.step(event)?;
    Ok(out.status)
}

// The status of a new bridge after one event.
fn status_after(alloc: Global, event: Event<'_>) -> Result<Status, Fail>
    requires { HoldsLine (event_of event) }
{
    let mut bridge = bridge(alloc)?;
    status_with(&mut bridge, event)
}

#[test]
fn events_of_a_bridge(rt: HostRuntime) -> Result<(), Fail> {
    let alloc = rt.alloc();
    let engine_gone = Status::Failed(SessionFault::EngineGone);
    let server_gone = Status::Failed(SessionFault::ServerGone);
    let too_long = Status::Failed(SessionFault::LineTooLong);
    assert!(rt; status_after(alloc, Event::EngineLine(b"id"))? == Status::Going);
    assert!(rt; status_after(alloc, Event::ServerLine(b"x"))? == Status::Going);
    assert!(rt; status_after(alloc, Event::EngineEnd)? == engine_gone);
    assert!(rt; status_after(alloc, Event::ServerEnd)? == server_gone);
    assert!(rt; status_after(alloc, Event::EngineLong)? == too_long);
    assert!(rt; status_after(alloc, Event::ServerLong)? == too_long);
    Ok(())
}

// Leads a new bridge so far that its server has begun a game summary.
fn begin_a_summary(bridge: &mut Bridge) -> Result<(), Fail> {
    status_with(bridge, Event::Begin)?;
    status_with(bridge, Event::EngineLine(b"usiok"))?;
    status_with(bridge, Event::EngineLine(b"readyok"))?;
    status_with(bridge, Event::ServerLine(b"LOGIN:bridge OK"))?;
    status_with(bridge, Event::ServerLine(b"BEGIN Game_Summary"))?;
    Ok(())
}

// Leads a new bridge to a summary that ends too soon.
fn end_a_summary(rt: &impl Abort, bridge: &mut Bridge) -> Result<(), Fail> {
    begin_a_summary(bridge)?;
    let status = status_with(bridge, Event::ServerLine(b"END Game_Summary"))?;
    assert!(rt; status == Status::Failed(SessionFault::BadSummary));
    Ok(())
}

fn has_no_turn(rt: &impl Abort, bridge: &Bridge) {
    let cause: Option<SummaryFault> = bridge.summary_fault();
    assert!(rt; cause == Some(SummaryFault::NoTurn));
}

fn has_its_cause(rt: &(impl Abort + AllocGlobal + Print), bridge: &mut Bridge) -> Result<(), Fail> {
    end_a_summary(rt, bridge)?;
    refuse_all(rt);
    has_no_turn(rt, bridge);
    refuse_no_more(rt)
}

#[test]
fn cause_of_a_bad_summary(rt: HostRuntime) -> Result<(), Fail> {
    let mut bridge = bridge(rt.alloc())?;
    has_its_cause(&rt, &mut bridge)
}

// The number that is printed for the fault, or 0 if the session has not failed.
fn number_of(status: Status) -> u32 {
    match status {
        Status::Going | Status::Done | Status::Lost => 0,
        Status::Failed(SessionFault::LoginRefused) => 1,
        Status::Failed(SessionFault::Rejected) => 2,
        Status::Failed(SessionFault::BadSummary) => 3,
        Status::Failed(SessionFault::BadServerMove(MoveCause::Refused(_) | MoveCause::Unsent)) => 4,
        Status::Failed(SessionFault::EngineGone) => 5,
        Status::Failed(SessionFault::ServerGone) => 6,
        Status::Failed(SessionFault::LineTooLong) => 7,
    }
}

fn is_on(state: ClientState) -> bool {
    match state {
        ClientState::Playing | ClientState::Sent => true,
        ClientState::Idle | ClientState::LoggingIn | ClientState::Summary | ClientState::Agreeing =>
            false,
        ClientState::Reason | ClientState::Closing | ClientState::Ended => false,
    }
}

fn is_asked(state: EngineState) -> bool {
    match state {
        EngineState::Thinking => true,
        EngineState::New | EngineState::Greeting | EngineState::Readying => false,
        EngineState::Ready | EngineState::Ended => false,
    }
}

#[test]
fn states_and_faults(rt: HostRuntime) {
    let cause = MoveCause::Refused(Why::Text(TextFault::BadMove));
    let refused = Status::Failed(SessionFault::BadServerMove(cause));
    assert!(rt; number_of(refused) == 4 && number_of(Status::Lost) == 0);
    assert!(rt; is_on(ClientState::Sent) && !is_on(ClientState::Agreeing));
    assert!(rt; is_asked(EngineState::Thinking) && !is_asked(EngineState::Greeting));
    assert!(rt; Waits::Engine != Waits::Server);
}

fn host(alloc: Global) -> Result<Host, Fail> {
    let config = HostConfig {
        client: Color::White,
        max_moves: 4,
        id: ArrayString::from("local")?,
        name: ArrayString::from("host")?,
    };
    let host: Result<Host, OutOfMemory> = Host::new(alloc, &config);
    Ok(host?)
}

#[test]
fn answers_of_a_host(rt: HostRuntime) -> Result<(), Fail> {
    let mut host = host(rt.alloc())?;
    let out: Result<HostOut, OutOfMemory> = host.step(b"LOGIN", 0);
    let out = out?;
    assert!(rt; out.to_client.bytes() == b"LOGIN:incorrect\n".as_slice() && !out.ended);
    Ok(())
}

#[test]
fn needs_no_memory_for_a_new_engine(rt: HostRuntime) -> Result<(), Fail> {
    refuse_all(&rt);
    let mut engine: Sample = Sample::new(rt.alloc());
    refuse_no_more(&rt)?;
    let out: Result<SampleOut, OutOfMemory> = engine.step(b"isready");
    let out = out?;
    assert!(rt; out.lines.bytes() == b"readyok\n".as_slice() && !out.ended);
    Ok(())
}
