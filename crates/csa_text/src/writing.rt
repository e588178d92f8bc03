ghost use Rattle.std.specs.Prelude.{◌≡◌, ◌+◌, ◌≤◌, ◌++◌, ◌∷◌, [], codes, OnOk};
ghost use Rattle.csa_text.specs.Codes.{sign};
ghost use Rattle.csa_text.specs.Saying.{version, name, header, turn, ending};
ghost use Rattle.csa_text.specs.Statements.{statement_of};

use crate::codes::sign_of;
use crate::ending::Ending;
use shogi_board::{Color, OutOfMemory};

/// How the statement of the even start begins, `PI`. The pairs of the missing pieces follow.
pub fn even_head() -> [u8; 2]
    ensures bytes { result ≡ codes "PI" }
{
    *b"PI"
}

/// How the statement of a rank begins: `P` and the number. Its nine cells follow.
pub fn rank_head(number: u8) -> [u8; 2]
    requires low { 1 ≤ number }
    requires high { number ≤ 9 }
    ensures bytes { result ≡ codes "P" ++ (48 + number) ∷ [] }
{
    [b'P', b'0' + number]
}

/// How the statement of pieces of that side begins: `P` and the sign. Their pairs follow.
pub fn pieces_head(color: Color) -> [u8; 2]
    ensures bytes { result ≡ codes "P" ++ sign color ∷ [] }
{
    [b'P', sign_of(color)]
}

/// Adds the statement of the version that is written, `V2.2`.
///
/// Returns `OutOfMemory` if an allocation fails, as do the other functions that add a statement.
pub fn write_version(out: &mut Vec<u8>) -> Result<(), OutOfMemory>
    ensures added { OnOk result (out.new.items ≡ out.old.items ++ statement_of version) }
{
    out.extend_from_slice(b"V2.2")?;
    Ok(())
}

/// Adds the statement of a name: `N`, the sign of its side, and the name.
pub fn write_name(out: &mut Vec<u8>, color: Color, text: &[u8]) -> Result<(), OutOfMemory>
    ensures added { OnOk result
        (out.new.items ≡ out.old.items ++ statement_of (name color text.now)) }
{
    out.extend_from_slice(&[b'N', sign_of(color)])?;
    out.extend_from_slice(text)?;
    Ok(())
}

/// Adds the statement of a header: `$`, the key, `:` and the text.
pub fn write_header(out: &mut Vec<u8>, key: &[u8], text: &[u8]) -> Result<(), OutOfMemory>
    ensures added { OnOk result
        (out.new.items ≡ out.old.items ++ statement_of (header key.now text.now)) }
{
    out.push(b'$')?;
    out.extend_from_slice(key)?;
    out.push(b':')?;
    out.extend_from_slice(text)?;
    Ok(())
}

/// Adds the statement of the side to move, its sign alone.
pub fn write_turn(out: &mut Vec<u8>, color: Color) -> Result<(), OutOfMemory>
    ensures added { OnOk result (out.new.items ≡ out.old.items ++ statement_of (turn color)) }
{
    out.push(sign_of(color))?;
    Ok(())
}

/// Adds the statement of an ending: `%` and its name.
pub fn write_ending(out: &mut Vec<u8>, how: Ending) -> Result<(), OutOfMemory>
    ensures added { OnOk result (out.new.items ≡ out.old.items ++ statement_of (ending how)) }
{
    out.push(b'%')?;
    out.extend_from_slice(how.name().as_bytes())?;
    Ok(())
}
