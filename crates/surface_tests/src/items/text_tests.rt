use crate::items::board_tests::square;
use crate::items::memory::{refuse_all, refuse_no_more};
use crate::items::rules_tests::pawn_move;
use arrayvec::ArrayString;
use csa_text::{
    Cut, CutFault, Cutter, Ending, Item, LineCutter, LineFault, MOVE_SIZE, Moment, Pair, Pairs,
    PieceCutter, Statement, TextFault, cell_bytes, csa_move, even_head, front_move, front_time,
    move_bytes, pair_bytes, pieces_head, rank_head, read_item, read_moment, sign_of, write_ending,
    write_header, write_name, write_time, write_turn, write_version,
};
use shogi_board::{Color, Kind, Move, OutOfMemory};
use std::process::Abort;
use std::test::Fail;

const TURN: Statement<'static> = Statement {
    number: 1,
    offset: 0,
    bytes: b"+",
};

fn statements(rt: &impl Abort) {
    let mut cutter: Cutter<'_> = Cutter::new(b"+");
    let first: Result<Option<Statement<'_>>, CutFault> = cutter.next_statement();
    assert!(rt; first == Ok(Some(TURN)));
    let long = [b'+'; 4097];
    let fault = CutFault {
        number: 1,
        offset: 0,
    };
    assert!(rt; Cutter::new(&long).next_statement() == Err(fault));
}

fn statements_by_piece(rt: &impl Abort) {
    let mut pieces: PieceCutter = PieceCutter::new();
    let cut: Result<Cut<'_>, CutFault> = pieces.step(b"+\n");
    let wanted = Cut {
        used: 2,
        statement: Some(TURN),
    };
    assert!(rt; cut == Ok(wanted));
    let fed: u64 = pieces.fed();
    assert!(rt; fed == 2);
    let last: Result<Option<Statement<'_>>, CutFault> = pieces.finish();
    assert!(rt; last == Ok(None));
}

// A move at the front of a piece, taken as one statement.
fn front_of_a_piece(rt: &impl Abort) -> Result<(), Fail> {
    let piece = b"+7776FU\n";
    let mut pieces = PieceCutter::new();
    assert!(rt; pieces.take_unspoken(piece).is_none());
    assert!(rt; pieces.step(b"+\n").is_ok());
    let (given, fed): (u64, u64) = (pieces.statements(), pieces.fed());
    assert!(rt; given == 1 && fed == 2);
    let walked: Option<(Color, Move)> = front_move(piece);
    assert!(rt; walked == Some((Color::Black, pawn_move()?)));
    let statement: Option<Statement<'_>> = pieces.take_word(piece, MOVE_SIZE);
    assert!(rt; statement.is_some());
    pieces.restart();
    assert!(rt; pieces.fed() == 0);
    Ok(())
}

fn parts_of_texts(rt: &impl Abort) {
    let time: Option<(u64, usize)> = front_time(b"T12\n");
    let sign: u8 = sign_of(Color::White);
    let name: &str = Ending::Toryo.name();
    assert!(rt; time == Some((12_000, 3)) && sign == b'-' && name == "TORYO");
}

#[test]
fn lines(rt: HostRuntime) {
    let mut cutter: LineCutter = LineCutter::new(rt.alloc(), 4);
    let step: Result<(usize, Option<&[u8]>), LineFault> = cutter.step(b"usi\n");
    assert!(rt; step == Ok((4, Some(b"usi".as_slice()))) || step == Err(LineFault::OutOfMemory));
    assert!(rt; cutter.step(b"quit!") == Err(LineFault::TooLong));
    let last: Result<Option<&[u8]>, LineFault> = cutter.finish();
    assert!(rt; last == Err(LineFault::TooLong));
}

fn items(rt: &impl Abort) -> Result<(), Fail> {
    let version: Result<Item<'_>, TextFault> = read_item(b"V2.2");
    assert!(rt; version == Ok(Item::Version));
    assert!(rt; read_item(b"N-x") == Ok(Item::Name(Color::White, b"x")));
    assert!(rt; read_item(b"$EVENT:a") == Ok(Item::Header(b"EVENT", b"a")));
    assert!(rt; read_item(b"P9 *  *  *  *  *  *  *  *  * ") == Ok(Item::Rank(9, [None; 9])));
    assert!(rt; read_item(b"-") == Ok(Item::Turn(Color::White)));
    assert!(rt; read_item(b"+7776FU") == Ok(Item::Walked(Color::Black, pawn_move()?)));
    assert!(rt; read_item(b"T12") == Ok(Item::Time(12_000)));
    let Ok(Item::Ending(ending)) = read_item(b"%TORYO") else {
        return Err(Fail::from("no ending"));
    };
    let resigned: Ending = ending;
    assert!(rt; read_item(b"%CHUDAN") != Ok(Item::Ending(resigned)));
    Ok(())
}

fn pairs(rt: &impl Abort) -> Result<(), Fail> {
    let Ok(Item::Even(even)) = read_item(b"PI82HI") else {
        return Err(Fail::from("no start"));
    };
    let rook: Option<Pair> = even.get(0);
    assert!(rt; rook == Some(Pair::On(square(8, 2)?, Kind::Rook)));
    let Ok(Item::Pieces(color, pieces)) = read_item(b"P-00FU00AL") else {
        return Err(Fail::from("no pieces"));
    };
    let pairs: Pairs<'_> = pieces;
    let count: usize = pairs.len();
    assert!(rt; color == Color::White && count == 2 && !pairs.is_empty());
    assert!(rt; pairs.get(0) == Some(Pair::InHand(Kind::Pawn)) && pairs.get(1) == Some(Pair::Rest));
    Ok(())
}

fn moments_and_moves(rt: &impl Abort) -> Result<(), Fail> {
    let moment: Option<Moment> = read_moment(b"2024/2/29 9:05:07");
    let text: ArrayString<19> = moment.ok_or("no moment")?.text();
    assert!(rt; text.as_str() == "2024/02/29 09:05:07");
    let text: ArrayString<7> = csa_move(Color::Black, &pawn_move()?);
    assert!(rt; text.as_str() == "+7776FU");
    Ok(())
}

fn parts_of_statements(rt: &impl Abort) -> Result<(), Fail> {
    let bytes: [u8; 7] = move_bytes(Color::Black, &pawn_move()?);
    assert!(rt; bytes == *b"+7776FU");
    let cell: [u8; 3] = cell_bytes(None);
    let pair: [u8; 4] = pair_bytes(Pair::Rest);
    assert!(rt; cell == *b" * " && pair == *b"00AL");
    let even: [u8; 2] = even_head();
    let rank: [u8; 2] = rank_head(1);
    let pieces: [u8; 2] = pieces_head(Color::Black);
    assert!(rt; even == *b"PI" && rank == *b"P1" && pieces == *b"P+");
    Ok(())
}

// The last line of a cutter that has been given the front of one.
fn finished_line(rt: &impl Abort, cutter: &mut LineCutter) {
    let last: Result<Option<&[u8]>, LineFault> = cutter.finish();
    assert!(rt; last == Ok(Some(b"usi".as_slice())));
}

fn made_without_memory(
    rt: &(impl Abort + AllocGlobal + Print),
    cutter: &mut LineCutter,
) -> Result<(), Fail> {
    assert!(rt; cutter.step(b"usi") == Ok((3, None)));
    refuse_all(rt);
    let _lines: LineCutter = LineCutter::new(rt.alloc(), 4);
    statements(rt);
    statements_by_piece(rt);
    front_of_a_piece(rt)?;
    parts_of_texts(rt);
    items(rt)?;
    pairs(rt)?;
    moments_and_moves(rt)?;
    parts_of_statements(rt)?;
    finished_line(rt, cutter);
    refuse_no_more(rt)
}

// Of the calls of `csa_text` that read, only `LineCutter::step` allocates.
#[test]
fn needs_no_memory(rt: HostRuntime) -> Result<(), Fail> {
    let mut cutter = LineCutter::new(rt.alloc(), 4);
    made_without_memory(&rt, &mut cutter)
}

#[test]
fn written_statements(rt: HostRuntime) -> Result<(), Fail> {
    let mut out = Vec::new(rt.alloc());
    let version: Result<(), OutOfMemory> = write_version(&mut out);
    let name: Result<(), OutOfMemory> = write_name(&mut out, Color::Black, b"a");
    let header: Result<(), OutOfMemory> = write_header(&mut out, b"EVENT", b"b");
    version?;
    name?;
    header?;
    let turn: Result<(), OutOfMemory> = write_turn(&mut out, Color::Black);
    let time: Result<(), OutOfMemory> = write_time(&mut out, 1500);
    let ending: Result<(), OutOfMemory> = write_ending(&mut out, Ending::Toryo);
    turn?;
    time?;
    ending?;
    assert!(rt; out.as_slice() == b"V2.2N+a$EVENT:b+T1.5%TORYO".as_slice());
    Ok(())
}
