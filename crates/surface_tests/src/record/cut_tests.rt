use csa_record::{Record, RecordReader, Refusal, read, write};
use std::alloc::{AllocError, Global};
use std::test::Fail;

// Records between semicolons.
const RECORDS: &str = "PI\n+\n;\
    V2.2\nPI\n+\n+7776FU,T12\n-3334FU,T6\n%TORYO\n;\
    ;\
    P+13KI33KE59OU00FU\nP-11OU\n+\n+0012FU\n;\
    P+13KI33KE59OU00FU\nP-11OU21KI\n+\n+0012FU\n;\
    P+55FU00FU\n+\n+0054FU\n;\
    P+12FU\n+\n+1211FU\n;\
    P+12FU\n+\n+1211TO\n;\
    P+59OU\nP-51HI\n+\n+5958OU\n;\
    P+59OU\nP-51HI\n+\n+5957OU\n;\
    P+59OU\nP-51HI\n+\n+5948OU\n;\
    N+\n$SITE:b\n$EVENT:a\nPI\n+\n;\
    $START_TIME:2024/2/29 9:05:07\nPI\n+\n;\
    $START_TIME:2023/02/29\nPI\n+\n;\
    PI\n+\n+2838HI\n-8272HI\n+3828HI\n-7282HI\n+2838HI\n-8272HI\n+3828HI\n-7282HI\n+2838HI\n-8272HI\n+3828HI\n-7282HI\n+7776FU\n;\
    PI\n+\n+7776FU\nT007\n;\
    PI\n+\n+7776FU\nT4294967296\n;\
    PI\n+\n+7776FU\nT4294967295.999\n;\
    P-51OU\nP+53FU00KI\nP-00AL\n+\n;\
    P-51OU\nP+53FU00KI\nP-00AL\nP+00FU\n+\n;\
    PI\n+\n+7776FU\n-3334FU\n+8822UM\n-3122GI\n;\
    V2.2\nPI\n+\n+7776F;\
    V3.0\n;\
    N+a,b\nPI\n+\n;\
    PI82HI22KA\n-\n;\
    P+59OU\nP-51OU\n+\n;\
    P9 *  *  *  *  *  *  *  *  * \n+\n;\
    P+59HI99OU\nP-41OU\n+\n+5949HI\n-4151OU\n+4959HI\n-5141OU\n+5949HI\n-4151OU\n+4959HI\n-5141OU\n+5949HI\n-4151OU\n+4959HI\n-5141OU\n;\
    P+13KI33KE59OU00KI\nP-11OU\n+\n+0012KI\n;\
    $EVENT\n+\n;\
    P+5FU\n+\n;\
    PI\n+\n%TOR\n;\
    PI\n+\n%MAX_MOVES\n;\
    PI\n+\n/\n;\
    P+55FU55KI\n+\n;\
    P+00HI00HI\nP-00HI\n+\n;\
    P+59OU\nP+58OU\n+\n;\
    P+00TO\n+\n;\
    PI82KA\n+\n;\
    P-51OU\nP+59HI\n+\n;\
    PI\nV2.2\n+\n;\
    N+a\nN+b\nPI\n+\n;\
    $EVENT:a\n$EVENT:b\n+\n;\
    PI\nPI\n+\n;\
    PI\n+\nP+00FU\n;\
    PI\n+7776FU\n;\
    PI\n+\n-\n;\
    PI\n+\nT1\n;\
    PI\n+\n%TORYO\n+7776FU\n;\
    PI\n+\n-3334FU\n;\
    PI\n+\n+5554FU\n;\
    PI\n+\n+7776KI\n;\
    PI\n+\n+8877KA\n;\
    PI\n+\n+7775FU\n;\
    PI\n+\n+7776TO\n;\
    PI\n+\nP5 *  *  *  *  *  *  *  *  * \n;\
    PI\n+\n%TORYO\nP+00FU\n;\
    PI\n+\n%TORYO\nP5 *  *  *  *  *  *  *  *  * \n;\
    P-51OU\nP+53FU00KI\nP-00AL\nP5 *  *  *  * +KI *  *  *  * \n+\n;\
    PI\n+\n+7776FU\nT0\n;\
    PI\n+\n+7776FU\nT4294967295\n;\
    \u{FEFF}V2.2\nPI\n+\n;\
    V2.2\n-\n;\
    N-b\nN+a\n+\n;\
    N+\n+\n;\
    +\nPI\n;\
    PI\n+\n+7776FU\n;\
    P+59OU00FU00FU00FU\nP-51OU\n+\n+0052FU\n-5152OU\n+5958OU\n-5241OU\n+5859OU\n-4151OU\n+0052FU\n-5152OU\n+5958OU\n-5241OU\n+5859OU\n-4151OU\n+0052FU\n-5152OU\n+5958OU\n-5241OU\n+5859OU\n-4151OU\n;\
    P+59OU\nP-51OU\n+\n+5958OU\n-5141OU\n+5849OU\n-4151OU\n+4959OU\n-5141OU\n+5958OU\n-4152OU\n+5859OU\n-5251OU\n+5958OU\n-5141OU\n+5849OU\n-4151OU\n+4959OU\n-5141OU\n+5958OU\n-4152OU\n+5859OU\n-5251OU\n;\
    P+58HI99OU\nP-31OU\n+\n+5859HI\n-3141OU\n+5949HI\n-4151OU\n+4959HI\n-5141OU\n+5949HI\n-4151OU\n+4959HI\n-5141OU\n+5949HI\n-4151OU\n+4959HI\n-5141OU\n;\
    P+15TO\nP-91OU\n+\n+1514TO\n;\
    P+14FU00FU\nP-51OU\n+\n+1413TO\n-5141OU\n+0015FU\n;\
    PI82HI\nP+00HI\n+\n;\
    PI\n+\n+7776FU\nT012.500\n;\
    PI\n+\n+7776FU\nT12.0\n;\
    PI\n+\n+7776FU\nT0.0\n;\
    PI\n+\n+7776FU\nT0.050\n;\
    PI\n+\n+7776FU\nT12.\n;\
    PI\n+\n+7776FU\nT.5\n;\
    PI\n+\n+7776FU\nT1.2345\n;\
    PI\n+\n+7776FU\nT4294967296.0\n;\
    \u{FEFF}V2.2\r\nPI\r\n'a,b\r\n+\r\n+7776FU,T0.050\r\n%TORYO,T3;\
    P1-KY-KE-GI-KI-OU-KI-GI-KE-KY\r\nP2 * -HI *  *  *  *  * -KA *\r\nP3-FU-FU-FU-FU-FU-FU-FU-FU-FU\r\nP4 *  *  *  *  *  *  *  *  *\r\nP5 *  *  *  *  *  *  *  *  *\r\nP6 *  *  *  *  *  *  *  *  *\r\nP7+FU+FU+FU+FU+FU+FU+FU+FU+FU\r\nP8 * +KA *  *  *  *  * +HI *\r\nP9+KY+KE+GI+KI+OU+KI+GI+KE+KY\r\nP+\r\nP-\r\n+\r\n;\
    $aa:x\n$ab:x\n$ac:x\n$ad:x\n$ae:x\n$af:x\n$ag:x\n$ah:x\n$ai:x\n$aj:x\n$ak:x\n$al:x\n$am:x\n$an:x\n$ao:x\n$ap:x\n$aq:x\n$ar:x\n$as:x\n$at:x\n$au:x\n$av:x\n$aw:x\n$ax:x\n$ay:x\n$az:x\n$ba:x\n$bb:x\n$bc:x\n$bd:x\n$be:x\n$bf:x\n$bg:x\n$bh:x\n$bi:x\n$bj:x\n$bk:x\n$bl:x\n$bm:x\n$bn:x\n$bo:x\n$bp:x\n$bq:x\n$br:x\n$bs:x\n$bt:x\n$bu:x\n$bv:x\n$bw:x\n$bx:x\n$by:x\n$bz:x\n$ca:x\n$cb:x\n$cc:x\n$cd:x\n$ce:x\n$cf:x\n$cg:x\n$ch:x\n$ci:x\n$cj:x\n$ck:x\n$cl:x\n$cm:x\n+\n";

// The canonical text, or the refusal.
fn text_of(
    alloc: Global,
    answer: Result<Record, Refusal>,
) -> Result<Result<Vec<u8>, Refusal>, Fail> {
    match answer {
        Ok(record) => Ok(Ok(write(alloc, &record)?)),
        Err(refusal) => Ok(Err(refusal)),
    }
}

// Feeds a piece of a record of at most 100,000 bytes.
fn feed(reader: &mut RecordReader, piece: &[u8]) -> Result<(), Refusal> {
    if reader.fed() > 100_000 || piece.len() > 100_000 {
        return Ok(());
    }
    reader.feed(piece)
}

fn in_two(alloc: Global, front: &[u8], following: &[u8]) -> Result<Record, Refusal> {
    let mut reader = RecordReader::new(alloc);
    feed(&mut reader, front)?;
    feed(&mut reader, following)?;
    reader.finish()
}

fn byte_by_byte(alloc: Global, source: &[u8]) -> Result<Record, Refusal> {
    let mut reader = RecordReader::new(alloc);
    for at in 0..source.len() {
        feed(&mut reader, &source[at..=at])?;
    }
    reader.finish()
}

// A record that is cut in two at any place is read like the whole.
fn reads_in_two(alloc: Global, source: &[u8]) -> Result<bool, Fail> {
    let whole = text_of(alloc, read(alloc, source))?;
    for at in 0..=source.len() {
        let (front, following) = source.split_at(at);
        if text_of(alloc, in_two(alloc, front, following))? != whole {
            return Ok(false);
        }
    }
    Ok(true)
}

// A record whose bytes come one by one is read like the whole.
fn is_read_alike(alloc: Global, source: &[u8]) -> Result<bool, Fail> {
    let whole = text_of(alloc, read(alloc, source))?;
    Ok(text_of(alloc, byte_by_byte(alloc, source))? == whole)
}

// What is left of a record that ends at any of its last places is read byte by byte like the whole.
fn reads_byte_by_byte(alloc: Global, source: &[u8], places: usize) -> Result<bool, Fail> {
    for at in source.len().saturating_sub(places)..=source.len() {
        if !is_read_alike(alloc, &source[..at])? {
            return Ok(false);
        }
    }
    Ok(true)
}

#[test]
fn records_cut_anywhere_are_read_alike(rt: HostRuntime) -> Result<(), Fail> {
    for record in RECORDS.split(';') {
        assert!(rt; reads_in_two(rt.alloc(), record.as_bytes())?, "{record}");
        assert!(rt;
            reads_byte_by_byte(rt.alloc(), record.as_bytes(), usize::MAX)?,
            "{record}"
        );
    }
    Ok(())
}

// A record of one name with this many bytes.
fn named(alloc: Global, length: usize) -> Result<Vec<u8>, Fail> {
    let mut source = Vec::new(alloc);
    source.extend_from_slice(b"N+")?;
    for _ in 0..length {
        source.push(b'a')?;
    }
    source.extend_from_slice(b"\n+\n")?;
    Ok(source)
}

#[test]
fn long_names_cut_anywhere_are_read_alike(rt: HostRuntime) -> Result<(), Fail> {
    for length in [4094, 4095] {
        let source = named(rt.alloc(), length)?;
        assert!(rt; reads_in_two(rt.alloc(), source.as_slice())?);
        assert!(rt; reads_byte_by_byte(rt.alloc(), source.as_slice(), usize::MAX)?);
    }
    Ok(())
}

// Where black's rook is after so many of its moves: round the files 1 and 2.
fn black_rook(moves: usize) -> usize {
    let step = moves % 18;
    if step < 9 { 11 + step } else { 38 - step }
}

// Where white's rook is after so many of its moves: round the files 4 and 5, but for the square 58.
fn white_rook(moves: usize) -> usize {
    let step = moves % 17;
    match step {
        0..=8 => 41 + step,
        9 => 59,
        _ => 67 - step,
    }
}

// Black's move after so many: a rook's, or a pawn's before a position occurs for the fourth time.
fn black_move(alloc: Global, moves: usize) -> Result<String, AllocError> {
    let pushes = moves / 750;
    if moves % 750 == 749 {
        let pawn = 98usize.saturating_sub(pushes);
        let target = 97usize.saturating_sub(pushes);
        return format!(in alloc; "+{pawn}{target}FU\n");
    }
    let from = black_rook(moves - pushes);
    let to = black_rook((moves - pushes).saturating_add(1));
    format!(in alloc; "+{from}{to}HI\n")
}

// White's move after so many.
fn white_move(alloc: Global, moves: usize) -> Result<String, AllocError> {
    let from = white_rook(moves);
    let to = white_rook(moves.saturating_add(1));
    format!(in alloc; "-{from}{to}HI\n")
}

// A record of 10,000 moves.
fn longest(alloc: Global) -> Result<Vec<u8>, AllocError> {
    let mut source = Vec::from_slice(alloc, b"P+11HI98FU\nP-41HI\n+\n")?;
    for moves in 0..5000usize {
        source.extend_from_slice(black_move(alloc, moves)?.as_bytes())?;
        source.extend_from_slice(white_move(alloc, moves)?.as_bytes())?;
    }
    source.extend_from_slice(b"%TORYO\n")?;
    Ok(source)
}

fn count_moves(alloc: Global, source: &[u8]) -> Result<usize, Fail> {
    let record = read(alloc, source)?;
    Ok(record.line().moves().len())
}

#[test]
fn the_longest_game_cut_at_its_end_is_read_alike(rt: HostRuntime) -> Result<(), Fail> {
    let source = longest(rt.alloc())?;
    assert!(rt; count_moves(rt.alloc(), source.as_slice())? == 10_000);
    assert!(rt; reads_byte_by_byte(rt.alloc(), source.as_slice(), 64)?);
    Ok(())
}
