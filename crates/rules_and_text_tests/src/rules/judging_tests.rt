use crate::rules::words::{follow, position, read};
use shogi_board::{Color, Kind, Position, Square};
use shogi_rules::{Move, first_legal, in_check, laws};
use std::test::Fail;

#[test]
fn finds_the_first_legal_move(rt: HostRuntime) -> Result<(), Fail> {
    let table: [(Color, &str, &str); 13] = [
        // squares left by file, then rank
        (Color::Black, "+55GI +19KI +17FU ", "+1716FU"),
        // targets likewise
        (Color::Black, "+55HI ", "+5515HI"),
        (Color::White, "-51OU ", "-5141OU"),
        (Color::White, "-55KY ", "-5556KY"),
        // unpromoted before promoted
        (Color::Black, "+14FU ", "+1413FU"),
        (Color::Black, "+12FU ", "+1211TO"),
        // out of check
        (Color::Black, "+59OU -51HI ", "+5948OU"),
        // walks before drops, drops by kind and then by target
        (Color::Black, "+99KI +00FU ", "+9988KI"),
        (Color::Black, "+00KI +00FU ", "+0012FU"),
        (Color::Black, "+00HI +00KA ", "+0011KA"),
        (Color::White, "-00KE ", "-0011KE"),
        (Color::Black, "+00KE ", "+0013KE"),
        (Color::Black, "+19OU -11KY -21HI +00KI +00FU ", "+0012FU"),
    ];
    for (side, pieces, wanted) in table {
        let (_, mv) = read(wanted.as_bytes())?;
        let p = position(side, pieces)?;
        assert_eq!(rt; first_legal(&p), Some(mv), "{pieces}");
    }
    Ok(())
}

// The first moves of both sides at the even start.
#[test]
fn begins_at_the_edge(rt: HostRuntime) -> Result<(), Fail> {
    let start = Position::even();
    let (_, black) = read(b"+1716FU")?;
    assert_eq!(rt; first_legal(&start), Some(black));
    let next = follow(&start, "+1716FU")?;
    let (_, white) = read(b"-1112KY")?;
    assert_eq!(rt; first_legal(&next), Some(white));
    Ok(())
}

// Where a move leads, and whether it gives check.
#[test]
fn follows_moves(rt: HostRuntime) -> Result<(), Fail> {
    let table = [
        ("+55KI -54TO ", "+5554KI", "+54KI +00FU ", false),
        ("+55KI -54UM -51OU ", "+5554KI", "+54KI +00KA -51OU ", false),
        ("+53HI -51RY ", "+5351RY", "+51RY +00HI ", false),
        ("+53FU +00KI -51OU ", "+0052KI", "+53FU +52KI -51OU ", true),
        ("+53FU +00KI ", "+0052KI", "+53FU +52KI ", false),
        ("+59KY +55GI -51OU ", "+5544GI", "+59KY +44GI -51OU ", true),
    ];
    for (pieces, text, wanted, checks) in table {
        let next = follow(&position(Color::Black, pieces)?, text)?;
        assert_eq!(rt; next, position(Color::White, wanted)?, "{pieces}");
        assert_eq!(rt; in_check(&next), checks, "{pieces}");
    }
    Ok(())
}

// The square that the piece goes to, and its kind there.
fn target(mv: Move) -> (Square, Kind) {
    match mv {
        Move::Walk { to, kind, .. } | Move::Put { to, kind } => (to, kind),
    }
}

#[test]
fn tells_the_parts_of_moves(rt: HostRuntime) -> Result<(), Fail> {
    let table = [
        ("+8822UM", (2, 2), Kind::Horse),
        ("-0054FU", (5, 4), Kind::Pawn),
    ];
    for (text, (file, rank), kind) in table {
        let (_, mv) = read(text.as_bytes())?;
        let square = Square::new(file, rank).ok_or("no square")?;
        assert_eq!(rt; target(mv), (square, kind), "{text}");
    }
    // a law does nothing when it runs
    laws::king_never_taken();
    laws::last_ranks();
    laws::legal_move_keeps_soundness();
    laws::game_keeps_soundness();
    laws::pieces_stay();
    laws::mover_not_in_check();
    laws::only_evasions_end_check();
    laws::other_side_moves();
    laws::one_first_broken_rule();
    laws::some_first_broken_rule();
    laws::one_answer();
    laws::some_answer();
    laws::ordered_rules();
    laws::one_first_legal();
    laws::times_counts_equal_positions();
    laws::nth_place_once();
    laws::one_verdict();
    laws::some_verdict();
    laws::now_stands_last();
    laws::fourth_stands_last();
    Ok(())
}
