ghost use Rattle.std.specs.Prelude.{◌≡◌, ◌++◌, ◌∷◌, map, IfOk, OnOk};
ghost use Rattle.std.specs.List.{flat_map};
ghost use Rattle.shogi_board.specs.declared.color.Color.TheVariants.{Black, White};
ghost use Rattle.csa_text.specs.Saying.{version, turn};
ghost use Rattle.record_game.specs.Canon.{canon, ended_line, header_item, name_items};
ghost use Rattle.record_game.specs.Tells.{Tells};

use crate::record::Record;
use crate::start_writer::write_start;
use csa_text::{write_turn, write_version};
use shogi_board::{Color, OutOfMemory};
use std::alloc::Global;

// For how many bytes room is reserved at first: for what comes before the moves, and for each move
// with its time. Most records need no more.
const FRONT_ROOM: usize = 1024;

const MOVE_ROOM: usize = 16;

/// Writes the canonical text of the record's game, in CSA V2.2, with an LF after each line.
///
/// Two records have the same canonical text exactly if their games are the same, and `read` reads
/// the text back as the record's game. Returns `OutOfMemory` if an allocation fails.
pub fn write(alloc: Global, game: &Record) -> Result<Vec<u8>, OutOfMemory>
    ensures text { IfOk result (λ text. text.items ≡ canon game.now) }
    ensures read_back { IfOk result (λ text. Tells text.items game.now) }
{
    let room = FRONT_ROOM + game.course().line().moves().len() * MOVE_ROOM;
    let mut text = Vec::with_capacity(alloc, room)?;
    write_lines(&mut text, game)?;
    Ok(text)
}

fn write_lines(text: &mut Vec<u8>, game: &Record) -> Result<(), OutOfMemory>
    ensures { OnOk result (text.new.items ≡ text.old.items ++ canon game.now) }
{
    write_titles(text, game)?;
    let start = game.line().start();
    write_start(text, &start)?;
    write_side(text, start.side())?;
    game.course().write_moves(text)?;
    Ok(())
}

// The version, the names and the headers.
fn write_titles(text: &mut Vec<u8>, game: &Record) -> Result<(), OutOfMemory>
    ensures { OnOk result (text.new.items ≡ text.old.items ++ flat_map ended_line (version
        ∷ (name_items Black game.now.black
        ++ (name_items White game.now.white ++ map header_item game.now.headers)))) }
{
    write_version(text)?;
    text.push(b'\n')?;
    game.titles().write_names(text)?;
    game.titles().write_headers(text)
}

fn write_side(text: &mut Vec<u8>, side: Color) -> Result<(), OutOfMemory>
    ensures { OnOk result (text.new.items ≡ text.old.items ++ ended_line (turn side)) }
{
    write_turn(text, side)?;
    text.push(b'\n')?;
    Ok(())
}
