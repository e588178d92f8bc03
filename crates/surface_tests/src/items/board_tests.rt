use crate::items::memory::{refuse_all, refuse_no_more};
use shogi_board::{
    Color, Hand, Kind, Move, OutOfMemory, Piece, Position, Rule, Setup, SetupFault, Situation,
    Square, attacked, reaches,
};
use std::cmp::Ordering;
use std::process::Abort;
use std::test::Fail;

// Each kind, and how many of it a hand with all pieces holds.
const KINDS: [(Kind, u8); 14] = [
    (Kind::Pawn, 18),
    (Kind::Lance, 4),
    (Kind::Knight, 4),
    (Kind::Silver, 4),
    (Kind::Gold, 4),
    (Kind::Bishop, 2),
    (Kind::Rook, 2),
    (Kind::King, 0),
    (Kind::ProPawn, 0),
    (Kind::ProLance, 0),
    (Kind::ProKnight, 0),
    (Kind::ProSilver, 0),
    (Kind::Horse, 0),
    (Kind::Dragon, 0),
];

pub(crate) fn square(file: u8, rank: u8) -> Result<Square, Fail> {
    let square: Option<Square> = Square::new(file, rank);
    Ok(square.ok_or("no square")?)
}

fn squares_and_hands(rt: &impl Abort) -> Result<(), Fail> {
    let rook = square(2, 8)?;
    let (file, rank): (u8, u8) = (rook.file(), rook.rank());
    assert!(rt; file == 2 && rank == 8 && Square::new(0, 1).is_none());
    let mut setup: Setup = Setup::empty();
    let given: Result<(), SetupFault> = setup.give_rest(Color::White);
    assert!(rt; given == Ok(()));
    let position: Result<Position, SetupFault> = setup.finish(Color::Black);
    let hand: Hand = position?.hand(Color::White);
    for (kind, wanted) in KINDS {
        let count: u8 = hand.count(kind);
        assert!(rt; count == wanted);
    }
    Ok(())
}

fn positions(rt: &impl Abort) -> Result<(), Fail> {
    let even: Position = Position::even();
    let copy = even;
    assert!(rt; copy == even && copy.cmp(&even) == Ordering::Equal);
    let rook = Piece {
        color: Color::Black,
        kind: Kind::Rook,
    };
    let piece: Option<Piece> = even.piece_at(square(2, 8)?);
    assert!(rt; piece == Some(rook));
    let side: Color = even.side();
    let king: Option<Square> = even.king(Color::White);
    assert!(rt; side == Color::Black && king == Square::new(5, 1));
    let doubled: bool = even.pawn_on_file(Color::Black, square(5, 5)?);
    assert!(rt; doubled);
    let setup: Setup = even.setup();
    assert!(rt; setup == Setup::even());
    let reached: bool = reaches(&even, square(2, 8)?, square(3, 8)?);
    let unsafe_square: bool = attacked(&even, Color::Black, square(5, 4)?);
    assert!(rt; reached && unsafe_square);
    Ok(())
}

// Each refusal of a setup.
fn setups(rt: &impl Abort) -> Result<(), Fail> {
    let mut setup = Setup::empty();
    let placed: Result<(), SetupFault> = setup.place(Color::White, square(5, 1)?, Kind::King);
    assert!(rt; placed == Ok(()));
    let added: Result<(), SetupFault> = setup.add_hand(Color::Black, Kind::King);
    assert!(rt; added == Err(SetupFault::NotForHand));
    let taken: Result<(), SetupFault> = setup.take_hand(Color::Black, Kind::Pawn);
    assert!(rt; taken == Err(SetupFault::NotThere));
    let taken_off: Result<(), SetupFault> = setup.take_off(square(5, 1)?, Kind::King);
    assert!(rt; taken_off == Ok(()) && setup == Setup::empty());
    Ok(())
}

// A piece goes to a hand, and from it.
fn hands_of_a_setup(rt: &impl Abort) {
    let mut setup = Setup::empty();
    assert!(rt; setup.add_hand(Color::Black, Kind::Pawn) == Ok(()));
    assert!(rt; setup.take_hand(Color::Black, Kind::Pawn) == Ok(()));
    assert!(rt; setup == Setup::empty());
}

// What the rules ask of colours, kinds and positions.
fn calls_for_rules(rt: &impl Abort) -> Result<(), Fail> {
    let other: Color = !Color::Black;
    let promoted: Option<Kind> = Kind::Bishop.promoted();
    assert!(rt; other == Color::White && promoted == Some(Kind::Horse));
    let even = Position::even();
    let key: u64 = even.key();
    assert!(rt; key == even.setup().finish(Color::Black)?.key());
    let mut situation = Situation::from(even);
    let checker: Option<Square> = situation.checker();
    assert!(rt; *situation.as_ref() == even && checker.is_none());
    let drop = Move::Put {
        to: square(5, 5)?,
        kind: Kind::Pawn,
    };
    let played: Result<(), Rule> = situation.play(&drop);
    assert!(rt; played == Err(Rule::NoPiece) && !situation.keeps(&drop));
    Ok(())
}

// A legal move is made.
fn plays_a_move(rt: &impl Abort) -> Result<(), Fail> {
    let mut situation = Situation::from(Position::even());
    let walk = Move::Walk {
        from: square(7, 7)?,
        to: square(7, 6)?,
        kind: Kind::Pawn,
    };
    assert!(rt; situation.keeps(&walk));
    assert!(rt; situation.play(&walk) == Ok(()));
    assert!(rt; situation.as_ref().side() == Color::White);
    Ok(())
}

// No call of `shogi_board` allocates.
#[test]
fn needs_no_memory(rt: HostRuntime) -> Result<(), Fail> {
    refuse_all(&rt);
    squares_and_hands(&rt)?;
    positions(&rt)?;
    setups(&rt)?;
    hands_of_a_setup(&rt);
    calls_for_rules(&rt)?;
    plays_a_move(&rt)?;
    refuse_no_more(&rt)
}

#[test]
fn out_of_memory(rt: HostRuntime) {
    let refused: Result<(), OutOfMemory> = Err(OutOfMemory);
    assert!(rt; refused == Err(OutOfMemory));
}
