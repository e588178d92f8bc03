use crate::text::squares::square;
use csa_text::{
    Cut, CutFault, Cutter, Ending, Item, LineCutter, LineFault, Pair, PieceCutter, Statement,
    TextFault, cell_bytes, csa_move, front_move, front_time, laws, move_bytes, pair_bytes,
    read_item, sign_of,
};
use shogi_board::{Color, Kind, Piece};
use shogi_rules::Move;
use std::test::Fail;

// One item of each kind that holds only its text. More of these, and statements that are no item,
// are in tests/tables.
#[test]
fn reads_items(rt: HostRuntime) {
    assert!(rt; read_item(b"V2.1") == Ok(Item::Version));
    assert!(rt; read_item(b"N-\x00\xFF, x ") == Ok(Item::Name(Color::White, b"\x00\xFF, x ")));
    assert!(rt; read_item(b"$A 0:b, c ") == Ok(Item::Header(b"A 0", b"b, c ")));
    assert!(rt; read_item(b"T4294967295.999") == Ok(Item::Time(4_294_967_295_999)));
    laws::spelt_once();
    laws::moment_once();
    laws::equal_moments();
}

fn reads_and_writes(text: &str, color: Color, mv: Move) -> bool {
    read_item(text.as_bytes()) == Ok(Item::Walked(color, mv))
        && csa_move(color, &mv).as_str() == text
        && move_bytes(color, &mv).as_slice() == text.as_bytes()
}

#[test]
fn reads_and_writes_moves(rt: HostRuntime) {
    let capture = Move::Walk {
        from: square(88),
        to: square(22),
        kind: Kind::Horse,
    };
    let drop = Move::Put {
        to: square(55),
        kind: Kind::Pawn,
    };
    assert!(rt; reads_and_writes("+8822UM", Color::Black, capture));
    assert!(rt; reads_and_writes("-0055FU", Color::White, drop));
}

// A move and a time, whatever follows them.
#[test]
fn reads_at_the_front(rt: HostRuntime) {
    let drop = Move::Put {
        to: square(55),
        kind: Kind::Pawn,
    };
    assert!(rt; front_move(b"-0055FU\nT12") == Some((Color::White, drop)));
    assert!(rt; front_move(b"-0055F").is_none());
    assert!(rt; front_time(b"T12\n+") == Some((12_000, 3)));
    assert!(rt; front_time(b"T\n").is_none());
}

#[test]
fn reads_pairs(rt: HostRuntime) -> Result<(), Fail> {
    let Ok(Item::Pieces(color, pairs)) = read_item(b"P-13KI00FU00AL") else {
        return Err(Fail::from("no pieces"));
    };
    assert!(rt; color == Color::White && pairs.len() == 3 && !pairs.is_empty());
    assert!(rt; pairs.get(0) == Some(Pair::On(square(13), Kind::Gold)));
    assert!(rt; pairs.get(1) == Some(Pair::InHand(Kind::Pawn)));
    assert!(rt; pairs.get(2) == Some(Pair::Rest));
    assert!(rt; pairs.get(3).is_none() && pairs.get(usize::MAX).is_none());
    assert!(rt; pair_bytes(Pair::On(square(13), Kind::Gold)) == *b"13KI");
    assert!(rt; pair_bytes(Pair::InHand(Kind::Pawn)) == *b"00FU");
    assert!(rt; pair_bytes(Pair::Rest) == *b"00AL");
    Ok(())
}

// All endings, in the order of the names below.
const ENDINGS: [Ending; 15] = [
    Ending::Toryo,
    Ending::Chudan,
    Ending::Sennichite,
    Ending::TimeUp,
    Ending::IllegalMove,
    Ending::BlackIllegalAction,
    Ending::WhiteIllegalAction,
    Ending::Jishogi,
    Ending::Kachi,
    Ending::Hikiwake,
    Ending::MaxMoves,
    Ending::Matta,
    Ending::Tsumi,
    Ending::Fuzumi,
    Ending::Error,
];

const NAMES: &str =
    "%TORYO %CHUDAN %SENNICHITE %TIME_UP %ILLEGAL_MOVE %+ILLEGAL_ACTION %-ILLEGAL_ACTION %JISHOGI %KACHI %HIKIWAKE %MAX_MOVES %MATTA %TSUMI %FUZUMI %ERROR";

#[test]
fn reads_endings(rt: HostRuntime) {
    for (text, ending) in NAMES.split(' ').zip(ENDINGS) {
        let bytes = text.as_bytes();
        assert!(rt; read_item(bytes) == Ok(Item::Ending(ending)));
        assert!(rt; bytes.ends_with(ending.name().as_bytes()));
    }
}

// The fault of each first byte when a letter follows it.
#[test]
fn goes_by_the_first_byte(rt: HostRuntime) {
    for first in 0..=255u8 {
        let wanted = match first {
            b'V' => TextFault::BadVersion,
            b'$' => TextFault::BadHeader,
            b'+' | b'-' => TextFault::BadMove,
            b'T' => TextFault::BadTime,
            b'%' => TextFault::UnknownEnding,
            _ => TextFault::Unknown,
        };
        assert!(rt; read_item(&[first, b'x']) == Err(wanted));
    }
}

// The letters of CSA V2.2.
#[test]
fn letters_of_the_kinds(rt: HostRuntime) {
    let table = [
        (Kind::Pawn, "FU"),
        (Kind::Lance, "KY"),
        (Kind::Knight, "KE"),
        (Kind::Silver, "GI"),
        (Kind::Gold, "KI"),
        (Kind::Bishop, "KA"),
        (Kind::Rook, "HI"),
        (Kind::King, "OU"),
        (Kind::ProPawn, "TO"),
        (Kind::ProLance, "NY"),
        (Kind::ProKnight, "NK"),
        (Kind::ProSilver, "NG"),
        (Kind::Horse, "UM"),
        (Kind::Dragon, "RY"),
    ];
    for (kind, letters) in table {
        let cell = Some(Piece {
            color: Color::Black,
            kind,
        });
        assert!(rt;
            cell_bytes(cell)[1..] == letters.as_bytes()[..],
            "{letters}"
        );
    }
    assert!(rt; cell_bytes(None) == *b" * ");
    assert!(rt; sign_of(Color::Black) == b'+');
    assert!(rt; sign_of(Color::White) == b'-');
}

// The types of `csa_cutting` that this crate re-exports.
#[test]
fn hands_on_what_cuts(rt: HostRuntime) {
    let statement = Statement {
        number: 1,
        offset: 0,
        bytes: b"+",
    };
    let answer: Result<Option<Statement>, CutFault> = Cutter::new(b"+").next_statement();
    assert!(rt; answer == Ok(Some(statement)));
    let mut pieces = PieceCutter::new();
    let cut = Cut {
        used: 2,
        statement: Some(statement),
    };
    assert!(rt; pieces.step(b"+\n") == Ok(cut));
    let mut lines = LineCutter::new(rt.alloc(), 1);
    let fault: LineFault = LineFault::TooLong;
    assert!(rt; lines.step(b"ab") == Err(fault));
}
