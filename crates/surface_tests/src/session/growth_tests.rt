// tests/growths runs this with each allocation refused in turn. The answer is out of memory. Then a
// host has ended, the sample engine keeps no position, and a bridge has failed with its states
// unchanged and a whole game.
ghost use Rattle.std.specs.Prelude.{IfOk, IsTrue};
ghost use Rattle.csa_cutting.specs.Lines.{HasNoLineEnd};
ghost use Rattle.shogi_session.specs.Promises.{HoldsLine, event_of};

use arrayvec::ArrayString;
use shogi_board::{Color, OutOfMemory};
use shogi_rules::MAX_MOVES;
use shogi_session::{Bridge, Config, Event, Host, HostConfig, Out, Sample, Status};
use std::alloc::Global;
use std::process::Abort;
use std::test::Fail;

// A host of the game `local` that plays as `host`.
fn host(alloc: Global, client: Color, max_moves: u32) -> Result<Host, Fail> {
    if !(1..=MAX_MOVES as u32).contains(&max_moves) {
        return Err(Fail::from("a host's game has 1 to 10,000 moves"));
    }
    let config = HostConfig {
        client,
        max_moves,
        id: ArrayString::from("local")?,
        name: ArrayString::from("host")?,
    };
    Ok(Host::new(alloc, &config)?)
}

// A bridge with the name `bridge`, the password `pw`, 600,000 milliseconds and 10,000 for byoyomi.
fn bridge(alloc: Global) -> Result<Bridge, Fail> {
    let config = Config {
        name: ArrayString::from("bridge")?,
        password: ArrayString::from("pw")?,
        total_ms: 600000,
        byoyomi_ms: 10000,
    };
    Ok(Bridge::new(alloc, &config)?)
}

fn is_line(line: &[u8]) -> bool
    ensures { IsTrue result → HasNoLineEnd line.now }
{
    line.iter().all(|b| !(*b == b'\r' || *b == b'\n'))
}

// An event; the lines that the bridge sends to its engine and to its server; and the game's text
// from then on, which is empty if there is no game yet.
type Row = (&'static str, &'static str, &'static str, &'static str);

// The event's text. `E` or `S` and a line: a line of the engine or of the server. Otherwise the
// first letter decides: `engine ends`, `server ends`, `long line of the engine`, `too long line of
// the server`; anything else is the beginning.
fn read_event(text: &[u8]) -> Result<Event<'_>, Fail>
    ensures { IfOk result (λ event. HoldsLine (event_of event)) }
{
    let Some((first, line)) = text.split_first() else {
        return Ok(Event::Begin);
    };
    if !is_line(line) {
        return Err(Fail::from("an event holds a line end"));
    }
    match first {
        b'E' => Ok(Event::EngineLine(line)),
        b'S' => Ok(Event::ServerLine(line)),
        b'e' => Ok(Event::EngineEnd),
        b's' => Ok(Event::ServerEnd),
        b'l' => Ok(Event::EngineLong),
        b't' => Ok(Event::ServerLong),
        _ => Ok(Event::Begin),
    }
}

// A new host allocates nothing.
#[test]
fn refused_growth_of_a_host(rt: HostRuntime) -> Result<(), Fail> {
    let mut host = host(rt.alloc(), Color::White, 4)?;
    play_as_host(&rt, &mut host)
}

fn play_as_host<R: Abort + Print>(rt: &R, host: &mut Host) -> Result<(), Fail> {
    let table = [
        ("LOGIN", "LOGIN:incorrect\n"),
        (
            "LOGIN bridge pw",
            "LOGIN:bridge OK\nBEGIN Game_Summary\nGame_ID:local\nName+:host\nName-:bridge\n\
             Your_Turn:-\nTo_Move:+\nMax_Moves:4\nBEGIN Position\nPI\n+\nEND Position\n\
             END Game_Summary\n",
        ),
        ("AGREE", "START:local\n+1716FU,T0\n"),
        ("-1112KY", "-1112KY,T3\n+1615FU,T0\n"),
        ("%KACHI", "%KACHI,T3\n#JISHOGI\n#WIN\n"),
        ("LOGOUT", "LOGOUT:completed\n"),
    ];
    for (line, text) in table {
        match host.step(line.as_bytes(), 3) {
            Ok(out) => assert!(rt; out.to_client.bytes() == text.as_bytes(), "{line}"),
            Err(OutOfMemory) => {
                println!(rt; "refused")?;
                return is_silent(rt, host);
            }
        }
    }
    Ok(())
}

fn is_silent<R: Abort>(rt: &R, host: &mut Host) -> Result<(), Fail> {
    for line in ["LOGIN bridge pw", "AGREE", "-1112KY", "LOGOUT"] {
        let out = host.step(line.as_bytes(), 3)?;
        assert!(rt; out.to_client.bytes().is_empty() && out.ended, "{line}");
    }
    Ok(())
}

// A new engine allocates nothing.
#[test]
fn refused_growth_of_the_sample_engine(rt: HostRuntime) -> Result<(), Fail> {
    let mut engine = Sample::new(rt.alloc());
    answer_as_engine(&rt, &mut engine)
}

fn answer_as_engine<R: Abort + Print>(rt: &R, engine: &mut Sample) -> Result<(), Fail> {
    let table = [
        ("usi", "id name shogi\nid author shogi\nusiok\n"),
        ("isready", "readyok\n"),
        ("position startpos", ""),
        ("go", "bestmove 1g1f\n"),
        ("position startpos moves 1g1f", ""),
        ("go", "bestmove 1a1b\n"),
    ];
    for (line, text) in table {
        match engine.step(line.as_bytes()) {
            Ok(out) => assert!(rt; out.lines.bytes() == text.as_bytes(), "{line}"),
            Err(OutOfMemory) => {
                println!(rt; "refused")?;
                let out = engine.step(b"go")?;
                assert!(rt; out.lines.bytes() == b"bestmove resign\n".as_slice());
                return Ok(());
            }
        }
    }
    Ok(())
}

// Gives the bridge the event of a row, and returns whether it had enough memory. If so, it sends
// the row's lines. If not, both states are unchanged.
fn hand_or_lose<R: Abort + Print>(rt: &R, bridge: &mut Bridge, row: &Row) -> Result<bool, Fail> {
    let (event, to_engine, to_server, _) = *row;
    let states = (bridge.engine_state(), bridge.client_state());
    match bridge.step(read_event(event.as_bytes())?) {
        Ok(out) => {
            assert!(rt; out.status == Status::Going, "{event}");
            assert!(rt; out.to_engine.bytes() == to_engine.as_bytes(), "{event}");
            assert!(rt; out.to_server.bytes() == to_server.as_bytes(), "{event}");
            Ok(true)
        }
        Err(OutOfMemory) => {
            println!(rt; "refused")?;
            assert!(rt;
                states == (bridge.engine_state(), bridge.client_state()),
                "{event}"
            );
            Ok(false)
        }
    }
}

// Gives the bridge the rows, up to the first that is out of memory. Returns the game's text before
// that row and after it, if there is one.
fn first_refused<R: Abort + Print>(
    rt: &R,
    bridge: &mut Bridge,
    rows: &[Row],
) -> Result<Option<(&'static str, &'static str)>, Fail> {
    let mut before = "";
    for row in rows {
        if !hand_or_lose(rt, bridge, row)? {
            return Ok(Some((before, row.3)));
        }
        before = row.3;
    }
    Ok(None)
}

// Gives a new bridge the rows.
fn hand_each<R: Abort + Print + AllocGlobal>(rt: &R, rows: &[Row]) -> Result<(), Fail> {
    let mut bridge = bridge(rt.alloc())?;
    hand_or_stop(rt, &mut bridge, rows)
}

// Gives the bridge the rows. At the first that is out of memory the session fails, with the game
// before it or the game after it. After the last it has that row's game.
fn hand_or_stop<R: Abort + Print>(rt: &R, bridge: &mut Bridge, rows: &[Row]) -> Result<(), Fail> {
    if let Some((before, after)) = first_refused(rt, bridge, rows)? {
        is_lost(rt, bridge)?;
        assert!(rt; has_game(bridge, before)? || has_game(bridge, after)?);
        return Ok(());
    }
    let last = rows.last().ok_or("no rows")?;
    has_game_at_last(rt, bridge, last.3)
}

// No event after that sends a line.
fn is_lost<R: Abort>(rt: &R, bridge: &mut Bridge) -> Result<(), Fail> {
    for event in [
        "begin",
        "Eusiok",
        "SSTART:g",
        "S#LOSE",
        "engine ends",
        "server ends",
        "long",
    ] {
        let out = bridge.step(read_event(event.as_bytes())?)?;
        assert!(rt; is_silent_and_lost(&out), "{event}");
    }
    Ok(())
}

// Whether this is the game's text.
fn has_game(bridge: &Bridge, wanted: &str) -> Result<bool, Fail> {
    Ok(is_text(&bridge.game_text()?, wanted))
}

fn is_text(text: &Option<Vec<u8>>, wanted: &str) -> bool {
    match text {
        Some(text) => text.as_slice() == wanted.as_bytes(),
        None => wanted.is_empty(),
    }
}

// This is the game's text, which may take two calls.
fn has_game_at_last<R: Abort + Print>(rt: &R, bridge: &Bridge, wanted: &str) -> Result<(), Fail> {
    let text = match bridge.game_text() {
        Ok(text) => text,
        Err(OutOfMemory) => {
            println!(rt; "refused")?;
            bridge.game_text()?
        }
    };
    assert!(rt; is_text(&text, wanted));
    Ok(())
}

fn is_silent_and_lost(out: &Out) -> bool {
    out.to_engine.bytes().is_empty()
        && out.to_server.bytes().is_empty()
        && out.status == Status::Lost
}

const ASKED: &str = "usinewgame\nposition startpos\ngo btime 600000 wtime 600000 byoyomi 10000\n";

const ASKED_AGAIN: &str =
    "position startpos moves 7g7f 3c3d\ngo btime 588000 wtime 594000 byoyomi 10000\n";

#[test]
fn refused_growth_of_names(rt: HostRuntime) -> Result<(), Fail> {
    let rows: [Row; 9] = [
        ("begin", "usi\n", "", ""),
        ("Eusiok", "isready\n", "", ""),
        ("Ereadyok", "", "LOGIN bridge pw\n", ""),
        ("SLOGIN:x OK", "", "", ""),
        ("SBEGIN Game_Summary", "", "", ""),
        ("SName+:bridge", "", "", ""),
        ("SName-:host", "", "", ""),
        ("SBEGIN Time", "", "", ""),
        ("SEND Time", "", "", ""),
    ];
    hand_each(&rt, &rows)
}

const NAMED: &str = "V2.2\nN-x\nPI\n+\n";

#[test]
fn refused_growth_of_moves(rt: HostRuntime) -> Result<(), Fail> {
    let rows: [Row; 15] = [
        ("begin", "usi\n", "", ""),
        ("Eusiok", "isready\n", "", ""),
        ("Ereadyok", "", "LOGIN bridge pw\n", ""),
        ("SLOGIN:x OK", "", "", ""),
        ("SBEGIN Game_Summary", "", "", ""),
        ("SName-:x", "", "", ""),
        ("SYour_Turn:+", "", "", ""),
        ("SBEGIN Position", "", "", ""),
        ("S+", "", "", ""),
        ("SEND Position", "", "", ""),
        ("SEND Game_Summary", "", "AGREE\n", NAMED),
        ("SSTART:g", ASKED, "", NAMED),
        ("Ebestmove 7g7f", "", "+7776FU\n", NAMED),
        ("S+7776FU,T12", "", "", "V2.2\nN-x\nPI\n+\n+7776FU\nT12\n"),
        (
            "S-3334FU,T6",
            ASKED_AGAIN,
            "",
            "V2.2\nN-x\nPI\n+\n+7776FU\nT12\n-3334FU\nT6\n",
        ),
    ];
    hand_each(&rt, &rows)
}

const BARE: &str = "V2.2\nPI\n+\n";

const RESIGNED: &str = "V2.2\nPI\n+\n%TORYO\n";

#[test]
fn refused_growth_of_a_result(rt: HostRuntime) -> Result<(), Fail> {
    let rows: [Row; 14] = [
        ("begin", "usi\n", "", ""),
        ("Eusiok", "isready\n", "", ""),
        ("Ereadyok", "", "LOGIN bridge pw\n", ""),
        ("SLOGIN:x OK", "", "", ""),
        ("SBEGIN Game_Summary", "", "", ""),
        ("SYour_Turn:+", "", "", ""),
        ("SBEGIN Position", "", "", ""),
        ("S+", "", "", ""),
        ("SEND Position", "", "", ""),
        ("SEND Game_Summary", "", "AGREE\n", BARE),
        ("SSTART:g", ASKED, "", BARE),
        ("S%TORYO", "", "", RESIGNED),
        ("S#RESIGN", "", "", RESIGNED),
        ("S#LOSE", "gameover lose\nquit\n", "LOGOUT\n", RESIGNED),
    ];
    hand_each(&rt, &rows)
}
