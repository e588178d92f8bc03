ghost use Rattle.std.specs.Prelude.{◌≡◌, ◌+◌, ◌≤◌, ◌∷◌, [], length, None, IfOk, OnOk, MatchOption, MatchResult};
ghost use Rattle.bridge_table.specs.Summary.{SummaryContent};
ghost use Rattle.csa_record.specs.Building.{titled_of, with_titled};
ghost use Rattle.csa_record.specs.Limits.{IsOneLine};
ghost use Rattle.csa_record.specs.Titles.{with_name};
ghost use Rattle.csa_text.specs.Codes.{sign};
ghost use Rattle.csa_cutting.specs.Cut.{longest_statement};
ghost use Rattle.shogi_board.specs.declared.color.Color.{Color};
ghost use Rattle.shogi_session.specs.Offers.{IsClientGiven, IsNamed};
ghost use Rattle.shogi_session.specs.SummaryFaults.{IsFaultOf};

use crate::summary_fault::SummaryFault;
use csa_record::Record;
use session_lines::texts;
use shogi_board::{Color, OutOfMemory};

// What a whole summary offers: the client's side, and a game, some of whose moves may have been
// played.
#[derive(Drop)]
pub(crate) struct GameOffer {
    pub(crate) client: Color,
    pub(crate) game: Record,
}

// The client's side in a summary with these names and this turn, or why it offers no game.
pub(crate) fn read_client(black: &[u8], white: &[u8], turn: &[u8]) -> Result<Color, SummaryFault>
    ensures { MatchResult result
        (IsClientGiven black.now white.now turn.now)
        (λ fault. (h : SummaryContent) → h.black ≡ black.now → h.white ≡ white.now
        → h.turn ≡ turn.now → IsFaultOf h fault) }
{
    if black.len() > 4094 || white.len() > 4094 {
        return Err(SummaryFault::LongName);
    }
    let Some(color) = color_of(turn) else {
        return Err(SummaryFault::NoTurn);
    };
    Ok(color)
}

// The offer of this game, which has no names, with these names.
pub(crate) fn name_offer(
    client: Color,
    game: Record,
    black: &[u8],
    white: &[u8],
) -> Result<GameOffer, OutOfMemory>
    requires black_line { IsOneLine black.now }
    requires white_line { IsOneLine white.now }
    requires black_fits { length black.now ≤ 4094 }
    requires white_fits { length white.now ≤ 4094 }
    requires no_black { game.black ≡ None }
    requires no_white { game.white ≡ None }
    ensures { IfOk result
        (λ offer. (offer.client ≡ client) × IsNamed game black.now white.now offer.game) }
{
    let game = name_both(game, black, white)?;
    Ok(GameOffer { client, game })
}

// The side with this sign.
fn color_of(turn: &[u8]) -> Option<Color>
    ensures { MatchOption result
        ((color : Color) → turn.now ≡ sign color ∷ [] → ⊥)
        (λ color. turn.now ≡ sign color ∷ []) }
{
    if turn == texts::BLACK {
        Some(Color::Black)
    } else if turn == texts::WHITE {
        Some(Color::White)
    } else {
        None
    }
}

// This game, which has no names, with these names.
fn name_both(game: Record, black: &[u8], white: &[u8]) -> Result<Record, OutOfMemory>
    requires black_line { IsOneLine black.now }
    requires white_line { IsOneLine white.now }
    requires black_fits { length black.now ≤ 4094 }
    requires white_fits { length white.now ≤ 4094 }
    requires no_black { game.black ≡ None }
    requires no_white { game.white ≡ None }
    ensures { IfOk result (λ named. IsNamed game black.now white.now named) }
{
    let mut named = game;
    name_side(&mut named, Color::Black, black)?;
    name_side(&mut named, Color::White, white)?;
    Ok(named)
}

// Names a side of the game that has no name. Fails only if an allocation does.
fn name_side(game: &mut Record, color: Color, name: &[u8]) -> Result<(), OutOfMemory>
    requires one_line { IsOneLine name.now }
    requires fits { 2 + length name.now ≤ longest_statement }
    ensures { OnOk result
        (game.new ≡ with_titled game.old (with_name (titled_of game.old) color name.now)) }
{
    match game.set_name(color, name) {
        Ok(()) => Ok(()),
        Err(_) => Err(OutOfMemory),
    }
}
