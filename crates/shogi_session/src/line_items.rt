ghost use Rattle.std.specs.Prelude.{◌≡◌, ℕ, [], ◌∷◌, List, MatchOption, MatchResult};
ghost use Rattle.csa_cutting.specs.Cut.{TextUnit};
ghost use Rattle.csa_cutting.specs.Cutting.{ToCome};
ghost use Rattle.csa_text.specs.Saying.{time, walked, saying_of};
ghost use Rattle.csa_record.specs.Tells.{IsSpelt};
ghost use Rattle.shogi_session.specs.NextItems.{EndFault, FaultAt, LastTime, StepsOver, Next};
ghost use Rattle.session_lines.specs.ServerLines.{IsMove};

use csa_cutting::Cutter;
use csa_text::{Item, TextFault, read_item};
use session_lines::walked_of;
use shogi_board::Color;
use shogi_rules::Move;

// What the next statement says, or None if there is none.
pub(crate) fn next_item<'a>(cutter: &mut Cutter<'a>) -> Result<Option<Item<'a>>, TextFault>
    ensures { Next cutter.old result cutter.new }
{
    match cutter.next_statement() {
        Ok(Some(statement)) => Ok(Some(read_item(statement.bytes)?)),
        Ok(None) => Ok(None),
        Err(_) => Err(TextFault::StatementTooLong),
    }
}

// The side and the move of the next statement. There is a next statement.
pub(crate) fn next_move(cutter: &mut Cutter<'_>) -> Result<(Color, Move), TextFault>
    requires { ToCome cutter.old [] → ⊥ }
    ensures { MatchResult result
        (λ r. (u : TextUnit) × IsSpelt u (walked r.0 r.1) × StepsOver cutter.old u cutter.new)
        (λ fault. FaultAt cutter.old IsMove fault) }
{
    let Some(item) = next_item(cutter)? else {
        return Err(TextFault::Unknown);
    };
    match walked_of(item) {
        Some(stated) => Ok(stated),
        None => Err(TextFault::Unknown),
    }
}

// The time, which is the only statement that is left, or None if none is left.
pub(crate) fn last_time(cutter: &mut Cutter<'_>) -> Result<Option<u64>, TextFault>
    ensures { LastTime cutter.old result }
{
    let Some(item) = next_item(cutter)? else {
        return Ok(None);
    };
    match time_of(item) {
        Some(thousandths) => {
            expect_end(cutter)?;
            Ok(Some(thousandths))
        }
        None => Err(TextFault::Unknown),
    }
}

// The time, if the item is one.
fn time_of(item: Item<'_>) -> Option<u64>
    ensures { MatchOption result
        ((t : ℕ) → saying_of item.entry ≡ time t → ⊥)
        (λ t. saying_of item.entry ≡ time t) }
{
    match item {
        Item::Time(thousandths) => Some(thousandths),
        _ => None,
    }
}

// Checks that no statement is left.
fn expect_end(cutter: &mut Cutter<'_>) -> Result<(), TextFault>
    ensures { MatchResult result (λ r. ToCome cutter.old []) (λ fault. EndFault cutter.old fault) }
{
    match cutter.next_statement() {
        Ok(None) => Ok(()),
        Ok(Some(_)) => Err(TextFault::Unknown),
        Err(_) => Err(TextFault::StatementTooLong),
    }
}
