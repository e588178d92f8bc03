use crate::rules::words::{on, position, square_of};
use shogi_board::{Color, Position, Square, attacked, reaches};
use std::test::Fail;

// The square of the two digits after a word's sign.
fn first_square(pieces: &str) -> Result<Square, Fail> {
    match pieces.as_bytes() {
        [_, file, rank, ..] => {
            let square = Square::new(file.wrapping_sub(b'0'), rank.wrapping_sub(b'0'));
            Ok(square.ok_or("no square")?)
        }
        _ => Err(Fail::from("no piece")),
    }
}

// Whether the first piece reaches the squares with these numbers, such as `54 53`, and no others.
fn reaches_just(pieces: &str, numbers: &str) -> Result<bool, Fail> {
    let from = first_square(pieces)?;
    let position = position(Color::Black, pieces)?;
    for number in 11..=99u8 {
        if let Some(to) = Square::new(number / 10, number % 10) {
            let digits = [b'0' + number / 10, b'0' + number % 10];
            let named = numbers
                .as_bytes()
                .chunks(3)
                .any(|word| word.starts_with(&digits));
            if reaches(&position, from, to) != named {
                return Ok(false);
            }
        }
    }
    Ok(true)
}

// Pieces, and the squares that the first of them reaches: alone in the middle and in corners, and
// between other pieces.
const REACHES: &str = "\
    +55FU 54;\
    -55FU 56;\
    +55KY 54 53 52 51;\
    -55KY 56 57 58 59;\
    +55KE 43 63;\
    -55KE 47 67;\
    +55GI 54 44 64 46 66;\
    -55GI 56 46 66 44 64;\
    +55KI 54 44 64 45 65 56;\
    +55TO 54 44 64 45 65 56;\
    +55NY 54 44 64 45 65 56;\
    +55NK 54 44 64 45 65 56;\
    +55NG 54 44 64 45 65 56;\
    -55KI 56 46 66 45 65 54;\
    -55TO 56 46 66 45 65 54;\
    -55NY 56 46 66 45 65 54;\
    -55NK 56 46 66 45 65 54;\
    -55NG 56 46 66 45 65 54;\
    +55KA 44 33 22 11 66 77 88 99 46 37 28 19 64 73 82 91;\
    -55KA 44 33 22 11 66 77 88 99 46 37 28 19 64 73 82 91;\
    +55HI 51 52 53 54 56 57 58 59 15 25 35 45 65 75 85 95;\
    -55HI 51 52 53 54 56 57 58 59 15 25 35 45 65 75 85 95;\
    +55OU 44 45 46 54 56 64 65 66;\
    -55OU 44 45 46 54 56 64 65 66;\
    +55UM 44 33 22 11 66 77 88 99 46 37 28 19 64 73 82 91 54 56 45 65;\
    -55UM 44 33 22 11 66 77 88 99 46 37 28 19 64 73 82 91 54 56 45 65;\
    +55RY 51 52 53 54 56 57 58 59 15 25 35 45 65 75 85 95 44 46 64 66;\
    -55RY 51 52 53 54 56 57 58 59 15 25 35 45 65 75 85 95 44 46 64 66;\
    +11FU;\
    -11FU 12;\
    +11KY;\
    -11KY 12 13 14 15 16 17 18 19;\
    +11KE;\
    -11KE 23;\
    +11GI 22;\
    -11GI 12 22;\
    +11KI 12 21;\
    +11TO 12 21;\
    +11NY 12 21;\
    +11NK 12 21;\
    +11NG 12 21;\
    -11KI 12 22 21;\
    -11TO 12 22 21;\
    -11NY 12 22 21;\
    -11NK 12 22 21;\
    -11NG 12 22 21;\
    +11KA 22 33 44 55 66 77 88 99;\
    -11KA 22 33 44 55 66 77 88 99;\
    +11HI 12 13 14 15 16 17 18 19 21 31 41 51 61 71 81 91;\
    -11HI 12 13 14 15 16 17 18 19 21 31 41 51 61 71 81 91;\
    +11OU 12 21 22;\
    -11OU 12 21 22;\
    +11UM 12 21 22 33 44 55 66 77 88 99;\
    -11UM 12 21 22 33 44 55 66 77 88 99;\
    +11RY 22 12 13 14 15 16 17 18 19 21 31 41 51 61 71 81 91;\
    -11RY 22 12 13 14 15 16 17 18 19 21 31 41 51 61 71 81 91;\
    +99FU 98;\
    -99FU;\
    +99KY 98 97 96 95 94 93 92 91;\
    -99KY;\
    +99KE 87;\
    -99KE;\
    +99GI 98 88;\
    -99GI 88;\
    +99KI 98 88 89;\
    +99TO 98 88 89;\
    +99NY 98 88 89;\
    +99NK 98 88 89;\
    +99NG 98 88 89;\
    -99KI 98 89;\
    -99TO 98 89;\
    -99NY 98 89;\
    -99NK 98 89;\
    -99NG 98 89;\
    +99KA 11 22 33 44 55 66 77 88;\
    -99KA 11 22 33 44 55 66 77 88;\
    +99HI 91 92 93 94 95 96 97 98 19 29 39 49 59 69 79 89;\
    -99HI 91 92 93 94 95 96 97 98 19 29 39 49 59 69 79 89;\
    +99OU 98 88 89;\
    -99OU 98 88 89;\
    +99UM 11 22 33 44 55 66 77 88 98 89;\
    -99UM 11 22 33 44 55 66 77 88 98 89;\
    +99RY 91 92 93 94 95 96 97 98 19 29 39 49 59 69 79 89 88;\
    -99RY 91 92 93 94 95 96 97 98 19 29 39 49 59 69 79 89 88;\
    +19KE 27;\
    +19GI 18 28;\
    -19GI 28;\
    +19KI 18 28 29;\
    +19TO 18 28 29;\
    +19NY 18 28 29;\
    +19NK 18 28 29;\
    +19NG 18 28 29;\
    -19KI 18 29;\
    -19TO 18 29;\
    -19NY 18 29;\
    -19NK 18 29;\
    -19NG 18 29;\
    +19KA 28 37 46 55 64 73 82 91;\
    -19KA 28 37 46 55 64 73 82 91;\
    +19OU 18 28 29;\
    -19OU 18 28 29;\
    -91KE 83;\
    +91GI 82;\
    -91GI 92 82;\
    +91KI 92 81;\
    +91TO 92 81;\
    +91NY 92 81;\
    +91NK 92 81;\
    +91NG 92 81;\
    -91KI 92 82 81;\
    -91TO 92 82 81;\
    -91NY 92 82 81;\
    -91NK 92 82 81;\
    -91NG 92 82 81;\
    +91KA 82 73 64 55 46 37 28 19;\
    -91KA 82 73 64 55 46 37 28 19;\
    +91OU 92 82 81;\
    -91OU 92 82 81;\
    +52KE;\
    -58KE;\
    +93KE 81;\
    +55HI,+53FU,-75KI,-56FU 54 53 65 75 56 45 35 25 15;\
    -55UM,-44FU,+77FU,+54GI 44 66 77 46 37 28 19 64 73 82 91 54 56 45 65;\
    +55KE,+54FU,-64FU,-44FU 43 63";

#[test]
fn reaches_along_steps_and_rays(rt: HostRuntime) -> Result<(), Fail> {
    for row in REACHES.split(';') {
        let (pieces, numbers) = row.split_once(' ').unwrap_or((row, ""));
        assert!(rt; reaches_just(pieces, numbers)?, "{row}");
    }
    Ok(())
}

// White's lance on 51 sees black's king on 57; the square beyond it is not attacked.
#[test]
fn attacks_up_to_the_first_piece(rt: HostRuntime) -> Result<(), Fail> {
    let position = position(Color::Black, "-51KY,+57OU")?;
    for (square, wanted) in [(on(57), true), (on(58), false), (on(52), true)] {
        assert!(rt; attacked(&position, Color::Black, square) == wanted);
    }
    for (square, wanted) in [(on(52), false), (on(58), true)] {
        assert!(rt; attacked(&position, Color::White, square) == wanted);
    }
    Ok(())
}
