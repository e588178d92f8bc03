ghost use Rattle.std.specs.Prelude.{◌≤◌, ◌/◌, ◌%◌};

use shogi_board::Square;

// The square of a number with two digits, such as 55.
pub(crate) fn square(number: u8) -> Square
    requires file { (1 ≤ number / 10) × (number / 10 ≤ 9) }
    requires rank { 1 ≤ number % 10 }
{
    Square::new(number / 10, number % 10).unwrap()
}
