use crate::rules::words::{on, position};
use shogi_board::{Color, Hand, Kind, Setup, SetupFault};
use std::test::Fail;

// A refused call changes nothing, and nothing is left after all is taken out again.
#[test]
fn refused_calls_change_nothing(rt: HostRuntime) -> Result<(), Fail> {
    let mut setup = Setup::empty();
    setup.add_hand(Color::Black, Kind::Pawn)?;
    setup.place(Color::Black, on(55), Kind::ProPawn)?;
    let held = setup;
    assert!(rt; setup.take_hand(Color::White, Kind::Pawn) == Err(SetupFault::NotThere));
    assert!(rt; setup.take_hand(Color::Black, Kind::ProPawn) == Err(SetupFault::NotThere));
    assert!(rt; setup.take_off(on(55), Kind::Pawn) == Err(SetupFault::NotThere));
    assert!(rt; setup.take_off(on(54), Kind::Pawn) == Err(SetupFault::NotThere));
    assert!(rt; setup.place(Color::Black, on(55), Kind::Gold) == Err(SetupFault::SquareTaken));
    assert!(rt; setup.add_hand(Color::White, Kind::King) == Err(SetupFault::NotForHand));
    assert!(rt; setup == held);
    setup.take_hand(Color::Black, Kind::Pawn)?;
    setup.take_off(on(55), Kind::ProPawn)?;
    assert!(rt; setup == Setup::empty());
    Ok(())
}

// The board and the hands after calls that each add or take one piece.
#[test]
fn calls_add_and_take_one(rt: HostRuntime) -> Result<(), Fail> {
    let mut setup = Setup::empty();
    setup.place(Color::White, on(55), Kind::Horse)?;
    let horse = position(Color::Black, "-55UM")?;
    assert!(rt; setup.finish(Color::Black) == Ok(horse));
    for color in [Color::Black, Color::White] {
        setup.add_hand(color, Kind::Lance)?;
        setup.add_hand(color, Kind::Lance)?;
        setup.take_hand(color, Kind::Lance)?;
        let hand = setup.finish(color)?.hand(color);
        assert!(rt; counts(hand) == [0, 1, 0, 0, 0, 0, 0]);
        setup.take_hand(color, Kind::Lance)?;
        assert!(rt; setup == horse.setup());
    }
    Ok(())
}

// How many pieces of each kind a hand holds, pawns first.
fn counts(hand: Hand) -> [u8; 7] {
    [
        hand.count(Kind::Pawn),
        hand.count(Kind::Lance),
        hand.count(Kind::Knight),
        hand.count(Kind::Silver),
        hand.count(Kind::Gold),
        hand.count(Kind::Bishop),
        hand.count(Kind::Rook),
    ]
}

#[test]
fn nothing_follows_the_rest(rt: HostRuntime) -> Result<(), Fail> {
    let mut setup = Setup::empty();
    setup.place(Color::White, on(51), Kind::King)?;
    setup.place(Color::Black, on(53), Kind::Pawn)?;
    setup.add_hand(Color::Black, Kind::Gold)?;
    setup.give_rest(Color::White)?;
    let given = setup;
    assert!(rt; setup.take_off(on(53), Kind::Pawn) == Err(SetupFault::AfterRest));
    assert!(rt; setup.take_hand(Color::White, Kind::Rook) == Err(SetupFault::AfterRest));
    assert!(rt; setup.give_rest(Color::Black) == Err(SetupFault::AfterRest));
    assert!(rt; setup == given);
    let position = setup.finish(Color::Black)?;
    assert!(rt; counts(position.hand(Color::White)) == [17, 4, 4, 4, 3, 2, 2]);
    assert!(rt; position.hand(Color::White).count(Kind::King) == 0);
    Ok(())
}

// A horse counts as one of the two bishops, and so on for the other promoted kinds.
#[test]
fn promoted_kinds_count_with_their_own(rt: HostRuntime) -> Result<(), Fail> {
    let table = [
        (Kind::ProPawn, Kind::Pawn, 17),
        (Kind::ProLance, Kind::Lance, 3),
        (Kind::ProKnight, Kind::Knight, 3),
        (Kind::ProSilver, Kind::Silver, 3),
        (Kind::Horse, Kind::Bishop, 1),
        (Kind::Dragon, Kind::Rook, 1),
    ];
    for (promoted, kind, left) in table {
        let mut setup = Setup::empty();
        setup.place(Color::White, on(55), promoted)?;
        for _ in 0..left {
            setup.add_hand(Color::Black, kind)?;
        }
        assert!(rt; setup.add_hand(Color::White, kind) == Err(SetupFault::TooMany));
    }
    Ok(())
}

// White's lance on 51 attacks black's king, so white may not be to move.
#[test]
fn finishes_where_the_other_king_is_safe(rt: HostRuntime) -> Result<(), Fail> {
    let checked = position(Color::Black, "-51KY,+57OU")?;
    assert!(rt; checked.setup().finish(Color::White) == Err(SetupFault::OpponentInCheck));
    assert!(rt; checked.setup().finish(Color::Black) == Ok(checked));
    Ok(())
}
