ghost use Rattle.std.specs.Prelude.{◌≡◌, ◌⊎◌, [], true, Some, None, MatchOption, MatchResult};
ghost use Rattle.csa_cutting.specs.Cut.{TextUnit};
ghost use Rattle.csa_cutting.specs.Cutting.{ToCome};
ghost use Rattle.csa_text.specs.Saying.{ending, saying_of};
ghost use Rattle.csa_text.specs.declared.ending.Ending.{Ending};
ghost use Rattle.csa_record.specs.Game.{Ended};
ghost use Rattle.csa_record.specs.Tells.{IsSpelt};
ghost use Rattle.session_lines.specs.MoveLines.{is_move_line};
ghost use Rattle.shogi_session.specs.NextItems.{FaultAt, IsEnding, StepsOver};
ghost use Rattle.session_lines.specs.ServerLines.{FirstTextFault, TellsEnding, TellsTimed};

use crate::line_items::{last_time, next_item, next_move};
use csa_cutting::Cutter;
use csa_text::{Ending, Item, TextFault};
use shogi_board::Color;
use shogi_rules::Move;

// The side, the move and the time, if any, of a line that begins with `+` or `-`; or the line's
// first text fault.
pub(crate) fn read_server_move(line: &[u8]) -> Result<(Color, Move, Option<u64>), TextFault>
    requires { is_move_line line.now ≡ true }
    ensures { MatchResult result
        (λ r. TellsTimed line.now r.0 (record { move = r.1; time = r.2 }))
        (λ fault. FirstTextFault line.now fault) }
{
    let mut cutter = Cutter::new(line);
    let (color, mv) = next_move(&mut cutter)?;
    let time = last_time(&mut cutter)?;
    Ok((color, mv, time))
}

// The ending and the time, if any, that a line spells; or None.
pub(crate) fn read_server_ending(line: &[u8]) -> Option<(Ending, Option<u64>)>
    ensures { MatchOption result
        ((e : Ended) → TellsEnding line.now e → ⊥)
        (λ r. TellsEnding line.now (record { ending = r.0; time = r.1 })) }
{
    let mut cutter = Cutter::new(line);
    match next_ending(&mut cutter) {
        Ok(stated) => match last_time(&mut cutter) {
            Ok(time) => Some((stated, time)),
            Err(_) => None,
        },
        Err(_) => None,
    }
}

// The ending that the next statement spells.
fn next_ending(cutter: &mut Cutter<'_>) -> Result<Ending, TextFault>
    ensures { MatchResult result
        (λ e. (u : TextUnit) × IsSpelt u (ending e) × StepsOver cutter.old u cutter.new)
        (λ fault. ToCome cutter.old [] ⊎ FaultAt cutter.old IsEnding fault) }
{
    let Some(item) = next_item(cutter)? else {
        return Err(TextFault::Unknown);
    };
    match ending_of(item) {
        Some(stated) => Ok(stated),
        None => Err(TextFault::Unknown),
    }
}

// The ending, if the item is one.
fn ending_of(item: Item<'_>) -> Option<Ending>
    ensures { MatchOption result
        ((e : Ending) → saying_of item.entry ≡ ending e → ⊥)
        (λ e. saying_of item.entry ≡ ending e) }
{
    match item {
        Item::Ending(stated) => Some(stated),
        _ => None,
    }
}
