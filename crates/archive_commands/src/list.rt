//! The paths that a list names.

ghost use Rattle.std.specs.Prelude.{◌≡◌, ◌+◌, ◌-◌, ◌<◌, ◌≤◌, ◌≢◌, [], ◌∷◌, ◌++◌, length, Contains, IfOk, IfSome, None, OnOk};
ghost use Rattle.archive_commands.specs.Lists.{Lists, code_of, items_of, path_in, without_cr};

use memchr::memchr;
use shogi_board::OutOfMemory;
use shogi_words::PathEnd;
use std::alloc::Global;

// The last byte of what each path ends in: LF, or NUL.
pub(crate) fn end_byte(end: PathEnd) -> u8
    ensures { result ≡ code_of end }
{
    match end {
        PathEnd::Line => b'\n',
        PathEnd::Nul => 0,
    }
}

/// The paths that this list names, in order. The last one may lack its end. An empty one is no
/// path.
///
/// Returns an error if an allocation fails.
pub fn paths(alloc: Global, list: &[u8], end: PathEnd) -> Result<Vec<Vec<u8>>, OutOfMemory>
    ensures { IfOk result (λ paths. Lists end list.now (items_of paths.items)) }
{
    let mut paths = Vec::new(alloc);
    let mut rest = list;
    while let Some((part, after)) = first_part(rest, end_byte(end)) {
        keep(alloc, &mut paths, part, end)?;
        rest = after;
    }
    keep(alloc, &mut paths, rest, end)?;
    Ok(paths)
}

// What comes before the first such byte, and what comes after it.
fn first_part(bytes: &[u8], end: u8) -> Option<(&[u8], &[u8])>
    ensures parts { IfSome result (λ parts.
        (bytes.now ≡ parts.0.now ++ end ∷ parts.1.now)
        × (Contains parts.0.now end → ⊥)) }
    ensures shorter { IfSome result (λ parts. length parts.1.now < length bytes.now) }
    ensures whole { result ≡ None → Contains bytes.now end → ⊥ }
{
    let at = memchr(end, bytes)?;
    Some((&bytes[..at], &bytes[at + 1..]))
}

// Adds the path that a part of a list names, if it names one.
fn keep(
    alloc: Global,
    paths: &mut Vec<Vec<u8>>,
    part: &[u8],
    end: PathEnd,
) -> Result<(), OutOfMemory>
    ensures { OnOk result
        (items_of paths.new.items ≡ items_of paths.old.items ++ path_in end part.now) }
{
    let path = without_cr(part, end);
    if !path.is_empty() {
        paths.push(Vec::from_slice(alloc, path)?)?;
    }
    Ok(())
}

// A line may end in CR LF.
fn without_cr(part: &[u8], end: PathEnd) -> &[u8]
    ensures { result.now ≡ without_cr end part.now }
{
    match (end, part) {
        (PathEnd::Line, [line @ .., b'\r']) => line,
        _ => part,
    }
}
