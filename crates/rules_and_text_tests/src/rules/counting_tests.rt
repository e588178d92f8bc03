use crate::rules::random_play::{DROP_GAMES, GAMES};
use crate::rules::words::position;
use shogi_board::{Color, Kind, Position, Square};
use shogi_rules::{Move, after, first_legal, judge};
use std::process::Abort;
use std::test::Fail;

const KINDS: [Kind; 14] = [
    Kind::Pawn,
    Kind::Lance,
    Kind::Knight,
    Kind::Silver,
    Kind::Gold,
    Kind::Bishop,
    Kind::Rook,
    Kind::King,
    Kind::ProPawn,
    Kind::ProLance,
    Kind::ProKnight,
    Kind::ProSilver,
    Kind::Horse,
    Kind::Dragon,
];

// The moves from each of the 81 squares and the drops, to each square and of each kind.
const EVERY_MOVE: usize = 92_988;

// The square at a place from 0, or None past the last.
fn nth_square(place: usize) -> Option<Square> {
    let file = u8::try_from(place / 9).ok()?;
    let rank = (place % 9) as u8 + 1;
    Square::new(file.wrapping_add(1), rank)
}

fn nth_move(n: usize) -> Option<Move> {
    let kind = *KINDS.get(n % 14)?;
    let to = nth_square(n / 14 % 81)?;
    Some(match nth_square(n / 1134) {
        Some(from) => Move::Walk { from, to, kind },
        None => Move::Put { to, kind },
    })
}

// How many lines of this many legal moves there are. At each step every move is tried with `judge`.
fn count_lines(p: &Position, depth: usize) -> usize {
    if depth == 0 {
        return 1;
    }
    let mut count = 0usize;
    for mv in (0..EVERY_MOVE).filter_map(nth_move) {
        if judge(p, p.side(), &mv).is_none() {
            count = count.wrapping_add(count_lines(&after(p, &mv), depth - 1));
        }
    }
    count
}

// Counts that programs for shogi agree on: one, two and three moves deep at the even start, and one
// move deep at the position with the most moves that is known and in two games. `rt try --test`
// needs `--seconds 600` here.
#[test]
fn counts_legal_moves(rt: HostRuntime) -> Result<(), Fail> {
    let most =
        "+91HI +72OU +52GI +32GI +22GI -12OU +53KA +89KY +69KY +49KY +00HI +00KA +00KI +00GI +00KE +00KY +00FU -00AL ";
    let attack =
        "-11KY -82KY +72RY +42FU -93FU -63FU +53KA +43KI -23FU -13FU -94OU -84FU -74GI -54FU +95KE -85KE +65FU +35KI +96FU +76FU +56FU +26FU +16FU +87FU +77GI +88OU +78GI +68KI -28RY +99KY +89KE -59TO +19KY +00GI -00AL ";
    let opening =
        "-91KY -81KE -71GI -61KI -51OU -21KE -11KY -82HI -32KI -22GI -93FU -73FU -63FU -53FU -43FU -23FU -13FU -84FU -34FU +25FU +76FU +97FU +87FU +67FU +57FU +47FU +37FU +17FU +88GI +78KI +28HI +99KY +89KE +59OU +49KI +39GI +29KE +19KY +00KA -00AL ";
    let table = [
        (Position::even(), 1, 30),
        (Position::even(), 2, 900),
        (Position::even(), 3, 25_470),
        (position(Color::Black, most)?, 1, 593),
        (position(Color::White, attack)?, 1, 178),
        (position(Color::Black, opening)?, 1, 76),
    ];
    for (p, depth, wanted) in table {
        assert_eq!(rt; count_lines(&p, depth), wanted);
    }
    Ok(())
}

// The first legal move whose number is in this range.
fn first_between(p: &Position, from: usize, to: usize) -> Option<Move> {
    (from..to)
        .filter_map(nth_move)
        .find(|mv| judge(p, p.side(), mv).is_none())
}

// The position after the first legal move from this number on, or else from 0 on.
fn next_from(p: &Position, begin: usize) -> Option<Position> {
    let mv = first_between(p, begin, EVERY_MOVE).or_else(|| first_between(p, 0, begin))?;
    match judge(p, p.side(), &mv) {
        None => Some(after(p, &mv)),
        Some(_) => None,
    }
}

// The number of a move, or the count of all numbers if there is no move.
fn number_of(mv: Option<Move>) -> u64 {
    (0..EVERY_MOVE)
        .position(|n| nth_move(n) == mv)
        .unwrap_or(EVERY_MOVE) as u64
}

fn mixed(state: u64, value: u64) -> u64 {
    state
        .wrapping_mul(6_364_136_223_846_793_005)
        .wrapping_add(value)
}

// A digest of a game of random moves: for each position, how many moves are legal by `judge` and
// which one is the first. The next move is the one that `next_from` finds from a random number.
fn shown(start: Position, seed: u64, most: usize) -> u64 {
    let mut p = start;
    let mut chance = seed;
    let mut shown = 0;
    for _ in 0..most {
        shown = mixed(shown, count_lines(&p, 1) as u64);
        shown = mixed(shown, number_of(first_legal(&p)));
        chance = mixed(chance, 1_442_695_040_888_963_407);
        let Some(next) = next_from(&p, (chance >> 33) as usize % EVERY_MOVE) else {
            break;
        };
        p = next;
    }
    shown
}

// The games of the two tables. A function that names a table itself takes long to prove.
fn games() -> &'static [(&'static str, u64, usize, u64)] {
    &GAMES
}

fn drop_games() -> &'static [(&'static str, u64, usize, u64)] {
    &DROP_GAMES
}

// Plays the games from one place of the table up to another, and compares their digests with those
// of the table.
fn play_games(
    rt: &impl Abort,
    games: &[(&str, u64, usize, u64)],
    from: usize,
    to: usize,
) -> Result<(), Fail> {
    for game in games.iter().take(to).skip(from) {
        let (pieces, seed, most, wanted) = *game;
        let start = match pieces {
            "" => Position::even(),
            _ => position(Color::Black, pieces)?,
        };
        assert_eq!(rt; shown(start, seed, most), wanted, "{pieces} {seed}");
    }
    Ok(())
}

// Thousands of positions of random play. In each, the number of moves that are legal by `judge` and
// the move of `first_legal` must be those of tests/random_play, which states the rules a second
// time and plainly. One number is compared for each game. In all it takes four to five times as
// long as the counts above. There are nine tests, since a test has 60 seconds and a machine may be
// slow.
#[test]
fn first_games_from_the_even_start(rt: HostRuntime) -> Result<(), Fail> {
    play_games(&rt, games(), 0, 10)
}

#[test]
fn second_games_from_the_even_start(rt: HostRuntime) -> Result<(), Fail> {
    play_games(&rt, games(), 10, 20)
}

#[test]
fn third_games_from_the_even_start(rt: HostRuntime) -> Result<(), Fail> {
    play_games(&rt, games(), 20, 30)
}

#[test]
fn first_games_from_few_pieces(rt: HostRuntime) -> Result<(), Fail> {
    play_games(&rt, games(), 30, 45)
}

#[test]
fn second_games_from_few_pieces(rt: HostRuntime) -> Result<(), Fail> {
    play_games(&rt, games(), 45, 60)
}

#[test]
fn third_games_from_few_pieces(rt: HostRuntime) -> Result<(), Fail> {
    play_games(&rt, games(), 60, 75)
}

#[test]
fn fourth_games_from_few_pieces(rt: HostRuntime) -> Result<(), Fail> {
    play_games(&rt, games(), 75, 90)
}

#[test]
fn first_games_where_only_drops_are_legal(rt: HostRuntime) -> Result<(), Fail> {
    play_games(&rt, drop_games(), 0, 24)
}

#[test]
fn second_games_where_only_drops_are_legal(rt: HostRuntime) -> Result<(), Fail> {
    play_games(&rt, drop_games(), 24, 47)
}
