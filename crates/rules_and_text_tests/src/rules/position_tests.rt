use crate::rules::words::{on, position};
use shogi_board::{Color, Kind, Piece, Position, Setup, Square, laws};
use std::collections::BTreeMap;
use std::test::Fail;

#[test]
fn parts_of_the_even_position(rt: HostRuntime) -> Result<(), Fail> {
    let even = Position::even();
    let rook = Piece {
        color: Color::White,
        kind: Kind::Rook,
    };
    assert!(rt; even == Setup::even().finish(Color::Black)?);
    assert!(rt; even.setup() == Setup::even());
    assert!(rt; even.side() == Color::Black && !even.side() == Color::White);
    assert!(rt; even.piece_at(on(82)) == Some(rook) && even.piece_at(on(55)).is_none());
    assert!(rt; even.king(Color::Black) == Some(on(59)));
    assert!(rt; even.pawn_on_file(Color::White, on(55)));
    Ok(())
}

// Both kings missing, an own promoted pawn and an enemy pawn on a file.
#[test]
fn parts_of_a_bare_position(rt: HostRuntime) -> Result<(), Fail> {
    let bare = position(Color::Black, "+33TO,-55FU")?;
    assert!(rt; bare.king(Color::Black).is_none() && bare.king(Color::White).is_none());
    assert!(rt; !bare.pawn_on_file(Color::Black, on(31)));
    assert!(rt; !bare.pawn_on_file(Color::Black, on(51)));
    assert!(rt; bare.pawn_on_file(Color::White, on(51)));
    Ok(())
}

// Positions that differ in some cells, in one hand, in whose hand it is, and in the side to move:
// here their keys differ too. A position that is set up again has the same key.
#[test]
fn keys_of_positions(rt: HostRuntime) -> Result<(), Fail> {
    let mut setup = position(Color::Black, "+99RY,-11UM,+88OU,-22OU,-55NG,+47TO")?.setup();
    let bare = setup.finish(Color::White)?;
    setup.add_hand(Color::White, Kind::Pawn)?;
    let held = setup.finish(Color::White)?;
    let turned = setup.finish(Color::Black)?;
    setup.take_hand(Color::White, Kind::Pawn)?;
    setup.add_hand(Color::Black, Kind::Pawn)?;
    let other = setup.finish(Color::White)?;
    let positions = [Position::even(), bare, held, turned, other];
    for one in positions {
        let again = one.setup().finish(one.side())?;
        assert!(rt; again == one && again.key() == one.key());
        for other in positions {
            assert!(rt; (one.key() == other.key()) == (one == other));
        }
    }
    Ok(())
}

#[test]
fn kinds_and_their_forms(rt: HostRuntime) {
    assert!(rt; Kind::Pawn.promoted() == Some(Kind::ProPawn) && Kind::Gold.promoted().is_none());
    assert!(rt; Kind::Horse.promoted().is_none());
}

#[test]
fn squares_and_their_order(rt: HostRuntime) {
    let square = on(28);
    assert!(rt; square.file() == 2 && square.rank() == 8);
    assert!(rt; on(19) < on(21) && on(21) < on(22) && on(99) > on(91));
    for (file, rank) in [(0, 5), (10, 5), (5, 0), (5, 10)] {
        assert!(rt; Square::new(file, rank).is_none());
    }
}

#[test]
fn positions_as_keys(rt: HostRuntime) -> Result<(), Fail> {
    let mut held = Setup::empty();
    held.add_hand(Color::White, Kind::Pawn)?;
    let positions = [
        Position::even(),
        Setup::even().finish(Color::White)?,
        Setup::empty().finish(Color::Black)?,
        held.finish(Color::Black)?,
        held.finish(Color::White)?,
        position(Color::Black, "+11KI")?,
        position(Color::Black, "-11KI")?,
        position(Color::Black, "+12KI")?,
    ];
    let mut times_seen = BTreeMap::new(rt.alloc());
    for round in 0..2u32 {
        for position in &positions {
            let before = times_seen.get(position).copied().unwrap_or(0u32);
            assert!(rt; before == round);
            times_seen.insert(*position, round + 1)?;
        }
    }
    assert!(rt; times_seen.len() == 8);
    Ok(())
}

#[test]
fn laws_are_calls(_rt: HostRuntime) {
    laws::reach_turned();
    laws::gold_reaches_six();
    laws::horse_reaches();
    laws::knight_without_move();
    laws::even_is_sound();
    laws::even_is_full();
    laws::even_turned();
    laws::equal_positions();
    laws::equal_setups();
    laws::ordered_positions();
    laws::ordered_pieces();
    laws::ordered_squares();
}
