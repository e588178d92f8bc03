ghost use Rattle.std.specs.Prelude.{◌≡◌, ◌++◌, ◌∷◌, [], decimal, ℕ, List, ◌↔◌, IsTrue, OnOk, MatchOption};
ghost use Rattle.csa_text.specs.Codes.{sign};
ghost use Rattle.shogi_board.specs.declared.color.Color.TheVariants.{Black, White};
ghost use Rattle.host_and_sample.specs.Host.{IsLogin, IsLoginWord, name_for, summary_lines};
ghost use Rattle.session_lines.specs.LineTexts as texts;
ghost use Rattle.session_lines.specs.Texts.{text_of};

use crate::config::HostConfig;
use arrayvec::ArrayVec;
use csa_text::sign_of;
use itoa::Buffer;
use session_lines::{Lines, texts};
use shogi_board::{Color, OutOfMemory};
use usi_text::next_word;

// The name in a line `LOGIN name password`, or None for another line.
pub(crate) fn read_login(line: &[u8]) -> Option<ArrayVec<u8, 32>>
    ensures { MatchOption result
        ((n p : List ℕ) → IsLogin line.now n p → ⊥)
        (λ name. (p : List ℕ) × IsLogin line.now name.items p) }
{
    let Some((word, rest)) = next_word(line) else {
        return None;
    };
    let Some((name, rest)) = next_word(rest) else {
        return None;
    };
    let Some((password, rest)) = next_word(rest) else {
        return None;
    };
    let alone = next_word(rest).is_none();
    let login = is_login(word);
    let named = is_login_word(name);
    if alone && login && named && is_login_word(password) {
        let mut held = ArrayVec::new();
        held.try_extend_from_slice(name).unwrap();
        Some(held)
    } else {
        None
    }
}

// Whether the word is `LOGIN`.
pub(crate) fn is_login(word: &[u8]) -> bool
    ensures { IsTrue result ↔ (word.now ≡ texts.login) }
{
    word == texts::LOGIN
}

/// Whether the word can be the name or the password of a login: 1 to 32 bytes from 0x21 to 0x7E.
pub fn is_login_word(word: &[u8]) -> bool
    ensures { IsTrue result ↔ IsLoginWord word.now }
{
    !word.is_empty() && word.len() <= 32 && word.iter().all(|b| 0x21 <= *b && *b <= 0x7E)
}

// Adds the game summary for a client of that name.
pub(crate) fn push_summary(
    lines: &mut Lines,
    config: &HostConfig,
    name: &[u8],
) -> Result<(), OutOfMemory>
    ensures { OnOk result (lines.new ≡ lines.old ++ text_of (summary_lines config.now name.now)) }
{
    push_head(lines, config)?;
    push_names(lines, config, name)?;
    push_turn(lines, config)?;
    push_position(lines)
}

fn push_head(lines: &mut Lines, config: &HostConfig) -> Result<(), OutOfMemory>
    ensures { OnOk result (lines.new ≡ lines.old
        ++ text_of (texts.begin_summary ∷ (texts.game_id ++ config.now.id.bytes) ∷ [])) }
{
    lines.push(texts::BEGIN_SUMMARY)?;
    lines.push_joined(texts::GAME_ID, config.id.as_str().as_bytes())
}

// Adds the client's side, the side to move and the length of the game.
fn push_turn(lines: &mut Lines, config: &HostConfig) -> Result<(), OutOfMemory>
    ensures { OnOk result
        (lines.new ≡ lines.old ++ text_of ((texts.your_turn ++ sign config.now.client ∷ [])
        ∷ texts.black_to_move ∷ (texts.most_moves ++ decimal config.now.max_moves) ∷ [])) }
{
    let mut buffer = Buffer::new();
    lines.push_joined(texts::YOUR_TURN, &[sign_of(config.client)])?;
    lines.push(texts::BLACK_TO_MOVE)?;
    lines.push_joined(
        texts::MOST_MOVES,
        buffer.format(config.max_moves).as_bytes(),
    )
}

// Adds the even start with black to move.
fn push_position(lines: &mut Lines) -> Result<(), OutOfMemory>
    ensures { OnOk result (lines.new ≡ lines.old
        ++ text_of (texts.begin_position ∷ texts.even_start ∷ texts.black ∷ texts.end_position
        ∷ texts.end_summary ∷ [])) }
{
    lines.push_two(texts::BEGIN_POSITION, texts::EVEN_START)?;
    lines.push_two(texts::BLACK, texts::END_POSITION)?;
    lines.push(texts::END_SUMMARY)
}

// Adds the names of both sides.
fn push_names(lines: &mut Lines, config: &HostConfig, name: &[u8]) -> Result<(), OutOfMemory>
    ensures { OnOk result
        (lines.new ≡ lines.old ++ text_of ((texts.black_name ++ name_for config.now name.now Black)
        ∷ (texts.white_name ++ name_for config.now name.now White) ∷ [])) }
{
    let host = config.name.as_str().as_bytes();
    match config.client {
        Color::Black => {
            lines.push_joined(texts::BLACK_NAME, name)?;
            lines.push_joined(texts::WHITE_NAME, host)
        }
        Color::White => {
            lines.push_joined(texts::BLACK_NAME, host)?;
            lines.push_joined(texts::WHITE_NAME, name)
        }
    }
}
