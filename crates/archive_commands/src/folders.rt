//! The records that lie in a folder, and in the folders there.

ghost use Rattle.std.specs.Prelude.{◌≡◌, IfOk, codes, false};
ghost use Rattle.archive_commands.specs.Folders.{is_record_name, joined};
ghost use Rattle.archive_commands.specs.Paths.{AreInByteOrder};

use crate::list;
use csa_record::{PIECE, read_uninterrupted};
use record_commands::ReadFault;
use shogi_board::OutOfMemory;
use shogi_words::PathEnd;
use std::alloc::Global;
use std::rt::Files;
use std::{fs, io};

// What lies at a path in a folder.
#[derive(Drop)]
enum PathKind {
    Folder(String),
    // A record, or what has to be opened to show why it is none.
    Record,
    // A file with another name, a link to a folder, a pipe or a device.
    Other,
}

/// Whether there is a folder at this path, or a link to one. The name `-` is that of standard
/// input.
pub(crate) fn is_folder<R: Files>(rt: &R, path: &str) -> bool
    ensures input { path.now ≡ codes "-" → result ≡ false }
{
    match fs::metadata(rt, path) {
        Ok(there) => path != "-" && there.is_dir(),
        Err(_) => false,
    }
}

/// The paths of the records below the folder, in byte order: those of the files whose names end in
/// `.csa` or `.CSA`, and of links to files. Links to folders are not followed.
///
/// What cannot be opened is there too, so that it is reported when it is read: a folder whose names
/// cannot be read, and a file or a folder whose path is not UTF-8. Returns an error if an
/// allocation fails.
pub(crate) fn records_below<R: Files + AllocGlobal>(
    rt: &R,
    folder: &str,
) -> Result<Vec<Vec<u8>>, OutOfMemory>
    ensures { IfOk result (λ records. AreInByteOrder records.items) }
{
    let mut records = Vec::new(rt.alloc());
    let mut folders = Vec::new(rt.alloc());
    folders.push(String::from_str(rt.alloc(), folder)?)?;
    for _ in 0..u64::MAX {
        let Some(folder) = folders.pop() else {
            break;
        };
        look_into(rt, &folder, &mut folders, &mut records)?;
    }
    records.sort()?;
    Ok(records)
}

// Adds the folders and the records that lie in this folder itself, and the folder if not all of its
// names can be read.
fn look_into<R: Files + AllocGlobal>(
    rt: &R,
    folder: &str,
    folders: &mut Vec<String>,
    records: &mut Vec<Vec<u8>>,
) -> Result<(), OutOfMemory> {
    let mut names = Vec::new(rt.alloc());
    match read_names(rt, folder, &mut names) {
        Ok(()) => {}
        Err(ReadFault::Failed) => records.push(Vec::from_slice(rt.alloc(), folder.as_bytes())?)?,
        Err(ReadFault::OutOfMemory) => return Err(OutOfMemory),
    }
    for name in list::paths(rt.alloc(), &names, PathEnd::Nul)? {
        if is_dot_or_dot_dot(&name) {
            continue;
        }
        let path = joined(rt.alloc(), folder, &name)?;
        match kind_of(rt, &path)? {
            PathKind::Folder(below) => folders.push(below)?,
            PathKind::Record => records.push(path)?,
            PathKind::Other => {}
        }
    }
    Ok(())
}

// Adds the names in the folder, each ended by NUL.
fn read_names<R: Files + AllocGlobal>(
    rt: &R,
    folder: &str,
    names: &mut Vec<u8>,
) -> Result<(), ReadFault> {
    let mut folder = match open_folder(rt, folder) {
        Ok(folder) => folder,
        Err(error) => return Err(ReadFault::of(&error)),
    };
    let mut piece = [0u8; PIECE];
    for _ in 0..u64::MAX {
        match read_uninterrupted(&mut folder, &mut piece) {
            Ok(0) => break,
            Ok(taken) if names.extend_from_slice(&piece[..taken]).is_ok() => {}
            Ok(_) => return Err(ReadFault::OutOfMemory),
            Err(error) => return Err(ReadFault::of(&error)),
        }
    }
    Ok(())
}

// A link to a folder can be opened only with a slash at its end.
fn open_folder<R: Files + AllocGlobal>(rt: &R, folder: &str) -> io::Result<R::Dir> {
    if folder.as_bytes().ends_with(b"/") {
        return rt.open_dir(folder);
    }
    let mut path = String::from_str(rt.alloc(), folder)?;
    path.push('/')?;
    rt.open_dir(&path)
}

// The names that each folder has for itself and for the one above it.
fn is_dot_or_dot_dot(name: &[u8]) -> bool {
    matches!(name, b"." | b"..")
}

// The path of a name in the folder.
fn joined(alloc: Global, folder: &str, name: &[u8]) -> Result<Vec<u8>, OutOfMemory>
    ensures { IfOk result (λ path. path.items ≡ joined folder.now name.now) }
{
    let mut path = Vec::from_slice(alloc, folder.as_bytes())?;
    if !folder.as_bytes().ends_with(b"/") {
        path.push(b'/')?;
    }
    path.extend_from_slice(name)?;
    Ok(path)
}

// What lies at this path.
fn kind_of<R: Files + AllocGlobal>(rt: &R, path: &[u8]) -> Result<PathKind, OutOfMemory> {
    let Ok(text) = str::from_utf8(path) else {
        return Ok(PathKind::Record);
    };
    match fs::symlink_metadata(rt, text) {
        Ok(there) if there.is_dir() => Ok(PathKind::Folder(String::from_str(rt.alloc(), text)?)),
        Ok(_) if !is_record_name(path) || is_no_file(rt, text) => Ok(PathKind::Other),
        _ => Ok(PathKind::Record),
    }
}

// Whether there is something at this path that is no file: a link to a folder, a pipe or a device.
fn is_no_file<R: Files>(rt: &R, path: &str) -> bool {
    match fs::metadata(rt, path) {
        Ok(there) => !there.is_file(),
        Err(_) => false,
    }
}

// Whether a file of this name is a record.
fn is_record_name(name: &[u8]) -> bool
    ensures { result ≡ is_record_name name.now }
{
    name.ends_with(b".csa") || name.ends_with(b".CSA")
}
