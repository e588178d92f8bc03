//! The paths of the files that a command line asks for.

ghost use Rattle.std.specs.Prelude.{◌≡◌, ◌≤◌, ◌++◌, ℕ, List, [], length, true, IfOk, IfSome, Some, OnOk};
ghost use Rattle.std.specs.Option.{is_some};
ghost use Rattle.archive_commands.specs.Lists.{Lists, items_of};
ghost use Rattle.archive_commands.specs.Paths.{AreAdded, NamesPaths, StandsFor, named_files, names_of};
ghost use Rattle.record_commands.specs.Inputs.{IsOpenedAs, path_of};

use crate::{folders, list};
use csa_record::FlowFault;
use hash_comments::{HashComments, HashLines};
use record_commands::{Inputs, ReadFault, RuntimeInputs};
use shogi_board::OutOfMemory;
use shogi_words::{PathEnd, Records};
use std::alloc::Global;
use std::io;
use std::io::Read;
use std::rt::Files;

// Standard input, as it is named where files are.
const STANDARD_INPUT: &[&str] = &["-"];

/// The files that a command line asks for.
#[derive(Drop)]
pub struct FileList {
    /// Their paths, in order. A path need not be UTF-8.
    pub paths: Vec<Vec<u8>>,
    /// How each of these ends where it is printed.
    pub path_end: PathEnd,
}

/// Whether each file has a line with its path: there may be several files (more than one is named,
/// a list names them, or the one that is named is a folder), or each path ends with NUL.
pub fn are_many<R: Files>(rt: &R, records: &Records<'_, '_>) -> bool
    ensures list { is_some records.now.list ≡ true → result ≡ true }
    ensures many { 2 ≤ length records.now.files.now → result ≡ true }
    ensures nul { records.now.path_end ≡ PathEnd.Nul → result ≡ true }
    ensures none { length records.now.files.now ≡ 0 → records.now.path_end ≡ PathEnd.Line
        → result ≡ is_some records.now.list }
{
    if records.list.is_some() || records.path_end == PathEnd::Nul {
        return true;
    }
    match records.files {
        [] => false,
        [file] => folders::is_folder(rt, file),
        _ => true,
    }
}

/// These files, and then those that the list names, if there is one; standard input if neither a
/// file nor a list is named. In place of a folder there are the records below it, in byte order of
/// their paths: the files whose names end in `.csa` or `.CSA`. Links to folders are not followed.
///
/// Refuses `ReadFault` if the list cannot be read, and `OutOfMemory`.
pub fn all<R: Files + io::Input + AllocGlobal>(
    rt: &R,
    records: &Records<'_, '_>,
) -> Result<FileList, FlowFault>
    ensures paths { IfOk result (λ files. (listed : List (List ℕ))
        × NamesPaths (λ path. IsOpenedAs path HashLines.Refused)
        ⟦<HashComments<record_commands::Input<Box<R::Reader>, R::File>> as io::Read>⟧.remaining
        records.now.path_end (path_of records.now.list) listed
        × AreAdded StandsFor (named_files records.now ++ listed) [] files.paths.items) }
    ensures end { IfOk result (λ files. files.path_end ≡ records.now.path_end) }
{
    let inputs = RuntimeInputs::new(rt, HashLines::Refused);
    let paths = all_of(rt.alloc(), &inputs, &RuntimeFolders { rt }, records)?;
    Ok(FileList {
        paths,
        path_end: records.path_end,
    })
}

// Those paths.
fn all_of<I: Inputs, F: Folders>(
    alloc: Global,
    inputs: &I,
    folders: &F,
    records: &Records<'_, '_>,
) -> Result<Vec<Vec<u8>>, FlowFault>
    ensures paths { IfOk result (λ paths. (listed : List (List ℕ))
        × NamesPaths (I.opens inputs.now) I.Input.Read.remaining
        records.now.path_end (path_of records.now.list) listed
        × AreAdded (F.stands_for folders.now)
        (named_files records.now ++ listed) [] paths.items) }
{
    let listed = listed(alloc, inputs, records.list, records.path_end)?;
    match expanded(alloc, folders, named_files(records), listed.as_slice()) {
        Ok(paths) => Ok(paths),
        Err(_) => Err(FlowFault::OutOfMemory),
    }
}

// The files that are named, or standard input if neither a file nor a list is.
fn named_files<'m, 'a>(records: &Records<'m, 'a>) -> &'m [&'a str]
    ensures { names_of result.now ≡ named_files records.now }
{
    if records.files.is_empty() && records.list.is_none() {
        return STANDARD_INPUT;
    }
    records.files
}

// The paths that the list names. None if there is no list.
fn listed<I: Inputs>(
    alloc: Global,
    inputs: &I,
    list: Option<&str>,
    end: PathEnd,
) -> Result<Vec<Vec<u8>>, FlowFault>
    ensures paths { IfOk result (λ paths. NamesPaths (I.opens inputs.now) I.Input.Read.remaining
        end (path_of list.entry) (items_of paths.items)) }
{
    if list.is_none() {
        return Ok(Vec::new(alloc));
    }
    let mut bytes = Vec::new(alloc);
    let mut input = inputs.open(list)?;
    if let Err(error) = input.read_to_end(&mut bytes) {
        return Err(FlowFault::from(ReadFault::of(&error)));
    }
    match list::paths(alloc, &bytes, end) {
        Ok(paths) => Ok(paths),
        Err(_) => Err(FlowFault::OutOfMemory),
    }
}

// What the files of the command line stand for, and then those of the list.
fn expanded<F: Folders>(
    alloc: Global,
    folders: &F,
    files: &[&str],
    listed: &[Vec<u8>],
) -> Result<Vec<Vec<u8>>, OutOfMemory>
    ensures { IfOk result (λ paths. AreAdded (F.stands_for folders.now)
        (names_of files.now ++ items_of listed.now) [] paths.items) }
{
    let mut paths = Vec::new(alloc);
    add_named(folders, files, &mut paths)?;
    add_listed(folders, listed, &mut paths)?;
    Ok(paths)
}

// Adds what the files of the command line stand for.
fn add_named<F: Folders>(
    folders: &F,
    files: &[&str],
    paths: &mut Vec<Vec<u8>>,
) -> Result<(), OutOfMemory>
    ensures { OnOk result (AreAdded (F.stands_for folders.now) (names_of files.now)
        paths.old.items paths.new.items) }
{
    for file in files {
        folders.add(file.as_bytes(), paths)?;
    }
    Ok(())
}

// Adds what those of a list stand for.
fn add_listed<F: Folders>(
    folders: &F,
    listed: &[Vec<u8>],
    paths: &mut Vec<Vec<u8>>,
) -> Result<(), OutOfMemory>
    ensures { OnOk result (AreAdded (F.stands_for folders.now) (items_of listed.now)
        paths.old.items paths.new.items) }
{
    for path in listed {
        folders.add(path.as_slice(), paths)?;
    }
    Ok(())
}

// What says which paths a path stands for.
trait Folders {
    ghost use Rattle.std.specs.Prelude.{◌≡◌, ◌++◌, ℕ, List, OnOk};
    ghost use Rattle.std.specs.Global.{Vec};

    // The path stands for these.
    ghost stands_for: { Self → List ℕ → List (Vec ℕ) → Type 0 };

    // Adds the path, or those of the records below it, if it is that of a folder.
    //
    // Returns an error if an allocation fails.
    fn add(&self, path: &[u8], paths: &mut Vec<Vec<u8>>) -> Result<(), OutOfMemory>
        ensures { OnOk result ((own : List (Vec ℕ)) × stands_for self.now path.now own
            × (paths.new.items ≡ paths.old.items ++ own)) };
}

// The folders of a runtime.
#[derive(Drop)]
struct RuntimeFolders<'a, R> {
    rt: &'a R,
}

// No contract can say what is in a folder.
impl<R: Files + AllocGlobal> Folders for RuntimeFolders<'_, R> {
    ghost use Rattle.archive_commands.specs.Paths.{StandsFor};

    ghost stands_for = { λ _ path own. StandsFor path own };

    fn add(&self, path: &[u8], paths: &mut Vec<Vec<u8>>) -> Result<(), OutOfMemory> {
        match str::from_utf8(path) {
            Ok(folder) if folders::is_folder(self.rt, folder) => {
                let mut records = folders::records_below(self.rt, folder)?;
                Ok(paths.append(&mut records)?)
            }
            _ => Ok(paths.push(Vec::from_slice(self.rt.alloc(), path)?)?),
        }
    }
}
