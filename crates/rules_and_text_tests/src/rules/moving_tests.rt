use crate::rules::words::{on, position, read};
use shogi_board::{Color, Kind, Move, Position, Rule, Setup, Situation};
use std::test::Fail;

// The position after a move such as `+7776FU`, and whether its side to move is in check; or the
// first of the rules 3 to 10 that it breaks.
fn played(position: &Position, mv: &Move) -> Result<(Position, bool), Rule> {
    let mut next = Situation::from(*position);
    next.play(mv)?;
    Ok((*next.as_ref(), next.checker().is_some()))
}

// Black's pawn opens the even position; a gold may not leave its king to the rook, and may go
// towards it.
#[test]
fn walks_where_the_king_is_safe(rt: HostRuntime) -> Result<(), Fail> {
    let mut laid = Setup::even();
    let (_, opening) = read(b"+7776FU")?;
    if let Move::Walk { from, to, kind } = opening {
        laid.take_off(from, kind)?;
        laid.place(Color::Black, to, kind)?;
    }
    let opened = laid.finish(Color::White)?;
    assert!(rt; played(&Position::even(), &opening) == Ok((opened, false)));
    let pinned = position(Color::Black, "+59OU,+58KI,-51HI")?;
    let (_, aside) = read(b"+5848KI")?;
    assert!(rt; played(&pinned, &aside) == Err(Rule::LeavesKing));
    assert!(rt; !Situation::from(pinned).keeps(&aside));
    let forward = position(Color::White, "+59OU,+57KI,-51HI")?;
    let (_, ahead) = read(b"+5857KI")?;
    assert!(rt; played(&pinned, &ahead) == Ok((forward, false)));
    assert!(rt; Situation::from(pinned).keeps(&ahead));
    Ok(())
}

// A pawn put between the king and the rook stops the check, and one put elsewhere does not.
#[test]
fn drops_where_the_king_is_safe(rt: HostRuntime) -> Result<(), Fail> {
    let mut laid = position(Color::Black, "+59OU,-55HI")?.setup();
    laid.add_hand(Color::Black, Kind::Pawn)?;
    let checked = laid.finish(Color::Black)?;
    let (_, elsewhere) = read(b"+0015FU")?;
    assert!(rt; played(&checked, &elsewhere) == Err(Rule::LeavesKing));
    let stopped = position(Color::White, "+59OU,+57FU,-55HI")?;
    let (_, between) = read(b"+0057FU")?;
    assert!(rt; played(&checked, &between) == Ok((stopped, false)));
    Ok(())
}

// A rook from afar or a knight, the rook if there is no knight, the knight if the rook is shut off,
// and nobody.
#[test]
fn names_a_checking_piece(rt: HostRuntime) -> Result<(), Fail> {
    let both = Situation::from(position(Color::Black, "+59OU,-55HI,-51KY,-47KE")?).checker();
    assert!(rt; both == Some(on(55)) || both == Some(on(47)));
    let table = [
        ("+59OU,-55HI,-51KY", Some(on(55))),
        ("+59OU,-55HI,+57FU,-47KE", Some(on(47))),
        ("+59OU,-55HI,+57FU", None),
        ("-55HI,-51KY", None),
    ];
    for (pieces, wanted) in table {
        let situation = Situation::from(position(Color::Black, pieces)?);
        assert!(rt; situation.checker() == wanted);
    }
    Ok(())
}

// Check by the piece that moved, by one whose line the move opened, and by none.
#[test]
fn knows_who_is_in_check(rt: HostRuntime) -> Result<(), Fail> {
    let start = position(Color::Black, "-51OU,+55KA,+58HI,+99KY")?;
    let table = [
        (b"+5577KA", true),
        (b"+5528KA", true),
        (b"+9998KY", false),
        (b"+5848HI", false),
        (b"+5533UM", true),
    ];
    for (text, wanted) in table {
        let (_, mv) = read(text)?;
        let (next, in_check) = played(&start, &mv)?;
        assert!(rt; in_check == wanted && Situation::from(next).checker().is_some() == wanted);
    }
    Ok(())
}
