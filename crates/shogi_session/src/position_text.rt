ghost use Rattle.std.specs.Prelude.{◌≡◌, ◌↔◌, IsTrue};
ghost use Rattle.csa_text.specs.Saying.{saying_of};
ghost use Rattle.shogi_session.specs.PositionTexts.{IsPositionText, SpellsPosition};
ghost use Rattle.bridge_table.specs.Summary.{in_position};

use csa_cutting::Cutter;
use csa_text::{Item, read_item};

// Whether the text has only position, side, move and time statements.
pub(crate) fn is_position_text(text: &[u8]) -> bool
    ensures { IsTrue result ↔ IsPositionText text.now }
{
    let mut cutter = Cutter::new(text);
    loop {
        match cutter.next_statement() {
            Ok(Some(statement)) => {
                if !spells_position(statement.bytes) {
                    return false;
                }
            }
            Ok(None) => return true,
            Err(_) => return false,
        }
    }
}

// Whether the bytes are a statement of these kinds.
fn spells_position(bytes: &[u8]) -> bool
    ensures { IsTrue result ↔ SpellsPosition bytes.now }
{
    match read_item(bytes) {
        Ok(item) => is_in_position(item),
        Err(_) => false,
    }
}

fn is_in_position(item: Item<'_>) -> bool
    ensures { result ≡ in_position (saying_of item.entry) }
{
    match item {
        Item::Even(_) | Item::Rank(_, _) | Item::Pieces(_, _) => true,
        Item::Turn(_) | Item::Walked(_, _) | Item::Time(_) => true,
        Item::Version | Item::Name(_, _) | Item::Header(_, _) | Item::Ending(_) => false,
    }
}
