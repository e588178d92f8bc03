//! A file that is replaced once its new text is written whole. Devices, pipes and links to nothing
//! are written in place.

ghost use Rattle.std.specs.Prelude.{◌≡◌, ◌∷◌, [], IfErr, IfOk, MatchOption, OnErr, OnOk, is_some, string_bytes};
ghost use Rattle.session_setup.specs.Disk.{Abandons, AsksFor, Begins, BeginsNot, CreatesBeside, CreatesNone, DoesAll, Fills, Finishes, HasNoTarget, IsBeside, IsTarget, StopsIn, opens, puts, writes};
ghost use Rattle.session_setup.specs.Faults.{IsFileFault};

use crate::disk::{CreateFault, Disk, Found};
use crate::fault::MatchFault;
use record_commands::WriteFault;
use std::alloc::{AllocError, Global};
use std::marker::Model;

// How many names are tried for the new file.
const NAMES: u32 = 100;

/// Where a text replaces what was there.
pub trait TextPlace {
    ghost use Rattle.std.specs.Prelude.{◌≡◌, ℕ, Bool, List};
    ghost use Rattle.session_setup.specs.declared.fault.MatchFault.{MatchFault as Fault};

    /// What is to become of the place. Without a text it becomes nothing.
    type Draft: Drop;

    // This was begun.
    ghost begun: { Self → Self.Draft → Self → Type 0 };

    // Nothing can be written there, for this reason.
    ghost unbegun: { Self → Fault → Self → Type 0 };

    // The text is there instead of what was.
    ghost took: { Self → Self.Draft → List ℕ → Self → Type 0 };

    // The text is not there, for this reason.
    ghost refused: { Self → Self.Draft → List ℕ → Fault → Self → Type 0 };

    // There is no text, and what was begun is undone.
    ghost dropped: { Self → Self.Draft → Self → Type 0 };

    // A file is there already, whose place the text takes.
    ghost replaced: { Self.Draft → Bool };

    /// Makes sure that a text can be written there, as far as this can be known. Refuses `Write` if
    /// not, and `OutOfMemory`.
    fn begin(&mut self) -> Result<Self::Draft, MatchFault>
        ensures begun { IfOk result (λ draft. begun self.old draft self.new) }
        ensures unbegun { IfErr result (λ fault. unbegun self.old fault self.new) };

    /// Whether a file was there that the text replaces.
    fn replaces(&self, draft: &Self::Draft) -> bool
        ensures { result ≡ replaced draft.now };

    /// Puts the text there. Refuses `Write` if it cannot be written, and `OutOfMemory`.
    fn finish(&mut self, draft: Self::Draft, text: &[u8]) -> Result<(), MatchFault>
        ensures took { OnOk result (took self.old draft text.now self.new) }
        ensures refused { IfErr result (λ fault. refused self.old draft text.now fault self.new) }
        ensures faults { IfErr result IsFileFault };

    /// Leaves what was there as it was.
    fn abandon(&mut self, draft: Self::Draft)
        ensures { dropped self.old draft self.new };
}

/// A file, by its path. It need not exist yet.
#[derive(Drop)]
pub struct Named<'a, D: Disk> {
    alloc: Global,
    disk: D,
    path: &'a str,
}

/// A new file, which is to take the place of another.
#[derive(Drop)]
pub struct NewFile<D: Disk> {
    file: D::File,
    path: String,
    target: Target,
}

// A file, by its path, and its permissions if it is there.
#[derive(Drop)]
struct Target {
    path: String,
    mode: Option<u32>,
}

impl<D: Disk> Model for NewFile<D> {
    ghost use Rattle.std.specs.Prelude.{is_some, string_bytes};
    ghost use Rattle.session_setup.specs.Disk.{Draft};

    ghost Value = { Draft };

    ghost view = { λ n. record {
      new = string_bytes n.path;
      target = string_bytes n.target.path;
      replaces = is_some n.target.mode;
    } };
}

impl<'a, D: Disk + Drop> Named<'a, D> {
    /// The file at that path of the disk.
    pub fn new(alloc: Global, disk: D, path: &'a str) -> Named<'a, D>
        ensures disk { result.disk ≡ disk }
        ensures path { result.path.now ≡ path.now }
    {
        Named { alloc, disk, path }
    }
}

impl<D: Disk + Drop> TextPlace for Named<'_, D> {
    ghost use Rattle.std.specs.Prelude.{Err, Ok};
    ghost use Rattle.session_setup.specs.Disk.{Abandons, Begins, BeginsNot, Finishes, replaces_of};

    // None if what is at the path is itself written to.
    type Draft = Option<NewFile<D>>;

    ghost begun = { λ p draft q. Begins D.finds D.leads D.acts p.path.now p.disk q.disk draft };

    ghost unbegun = { λ p fault q.
        BeginsNot D.finds D.leads D.acts p.path.now p.disk q.disk fault };

    ghost took = { λ p draft text q.
        Finishes D.acts p.path.now text p.disk q.disk draft (Ok tt) };

    ghost refused = { λ p draft text fault q.
        Finishes D.acts p.path.now text p.disk q.disk draft (Err fault) };

    ghost dropped = { λ p draft q. Abandons D.acts draft p.disk q.disk };

    ghost replaced = { replaces_of };

    fn begin(&mut self) -> Result<Option<NewFile<D>>, MatchFault> {
        begin(self.alloc, &mut self.disk, self.path)
    }

    fn replaces(&self, draft: &Option<NewFile<D>>) -> bool {
        draft.as_ref().is_some_and(|new| new.target.mode.is_some())
    }

    fn finish(&mut self, draft: Option<NewFile<D>>, text: &[u8]) -> Result<(), MatchFault> {
        finish(&mut self.disk, self.path, draft, text)
    }

    fn abandon(&mut self, draft: Option<NewFile<D>>) {
        if let Some(new) = draft {
            let _ = self.disk.remove(new.path.as_str());
        }
    }
}

// Creates a new file in the folder of the file whose place the text is to take, if it takes one.
fn begin<D: Disk>(alloc: Global, disk: &mut D, path: &str) -> Result<Option<NewFile<D>>, MatchFault>
    ensures begun { IfOk result (Begins D.finds D.leads D.acts path.now disk.old disk.new) }
    ensures unbegun { IfErr result (BeginsNot D.finds D.leads D.acts path.now disk.old disk.new) }
{
    match target_of(alloc, disk, path)? {
        Some(target) => Ok(Some(create_beside(alloc, disk, target)?)),
        None => Ok(None),
    }
}

// The file whose place a text for the path is to take. A link is followed. For a device or a pipe
// there is none, and for a link to a file that does not exist yet.
fn target_of<D: Disk>(alloc: Global, disk: &D, path: &str) -> Result<Option<Target>, MatchFault>
    ensures target { IfOk result (λ found. MatchOption found (D.finds disk.now path.now Found.Other)
        (λ t. IsTarget D.finds D.leads path.now disk.now (string_bytes t.path) t.mode)) }
    ensures none { IfErr result (HasNoTarget D.finds path.now disk.now) }
{
    match disk.find(path) {
        Found::Nothing => Ok(Some(Target {
            path: String::from_str(alloc, path)?,
            mode: None,
        })),
        Found::File(mode) => Ok(Some(Target {
            path: String::from_str(alloc, path)?,
            mode: Some(mode),
        })),
        Found::Link(mode) => Ok(Some(Target {
            path: disk.target(path)?,
            mode: Some(mode),
        })),
        Found::NoFile => Err(MatchFault::Write),
        Found::Other => Ok(None),
    }
}

// Creates a new file in the folder of the target, with the permissions of the target.
fn create_beside<D: Disk>(
    alloc: Global,
    disk: &mut D,
    target: Target,
) -> Result<NewFile<D>, MatchFault>
    ensures target { IfOk result (λ new. (new.target ≡ string_bytes target.path)
        × (new.replaces ≡ is_some target.mode)) }
    ensures created { IfOk result (λ new.
        CreatesBeside D.acts target.mode new.target disk.old disk.new new.new) }
    ensures not_created { IfErr result
        (CreatesNone D.acts (string_bytes target.path) disk.old disk.new) }
{
    for number in 0..NAMES {
        let path = beside(alloc, target.path.as_str(), number)?;
        match disk.create(path.as_str()) {
            Ok(file) => {
                ask_for(disk, target.mode, path.as_str());
                return Ok(NewFile { file, path, target });
            }
            Err(CreateFault::Taken) => {}
            Err(CreateFault::Failed) => return Err(MatchFault::Write),
        }
    }
    Err(MatchFault::Write)
}

/// The path of a new file in the folder of the target. Returns an error if an allocation fails.
pub fn beside(alloc: Global, target: &str, number: u32) -> Result<String, AllocError>
    ensures { IfOk result (λ new. IsBeside number (string_bytes new) target.now) }
{
    match target.rsplit_once('/') {
        Some((folder, _)) => format!(in alloc; "{folder}/.shogi_part_{number}"),
        None => format!(in alloc; ".shogi_part_{number}"),
    }
}

// Asks for the permissions of the file that is replaced. It is no fault if they are not given.
fn ask_for<D: Disk>(disk: &mut D, mode: Option<u32>, new: &str)
    ensures { AsksFor D.acts mode new.now disk.old disk.new }
{
    if let Some(mode) = mode {
        let _ = disk.permit(new, mode);
    }
}

// Writes the text to the new file and gives that the target's name, or else writes the text to what
// is at the path.
fn finish<D: Disk>(
    disk: &mut D,
    path: &str,
    draft: Option<NewFile<D>>,
    text: &[u8],
) -> Result<(), MatchFault>
    ensures { Finishes D.acts path.now text.now disk.old disk.new draft result }
{
    match draft {
        Some(new) => fill(disk, new, text),
        None => Ok(write_to(disk, path, text)?),
    }
}

// Writes to what the path leads to.
fn write_to<D: Disk>(disk: &mut D, path: &str, text: &[u8]) -> Result<(), WriteFault>
    ensures written { OnOk result
        (DoesAll D.acts disk.old (opens path.now ∷ writes text.now ∷ []) disk.new) }
    ensures unwritten { OnErr result
        (StopsIn D.acts disk.old (opens path.now ∷ writes text.now ∷ []) disk.new) }
{
    let mut file = disk.open(path)?;
    disk.write(&mut file, text)?;
    Ok(())
}

// Fills the new file and gives it the target's name, so that the old content is lost only once the
// whole text is written. If that fails, the new file is removed.
fn fill<D: Disk>(disk: &mut D, new: NewFile<D>, text: &[u8]) -> Result<(), MatchFault>
    ensures { Fills D.acts new text.now disk.old disk.new result }
{
    let NewFile { file, path, target } = new;
    match put(disk, file, path.as_str(), target.path.as_str(), text) {
        Ok(()) => Ok(()),
        Err(WriteFault) => {
            let _ = disk.remove(path.as_str());
            Err(MatchFault::Write)
        }
    }
}

// Writes the whole text to the new file, and then gives it the target's name.
fn put<D: Disk>(
    disk: &mut D,
    file: D::File,
    new: &str,
    target: &str,
    text: &[u8],
) -> Result<(), WriteFault>
    ensures put { OnOk result
        (DoesAll D.acts disk.old (puts new.now target.now text.now) disk.new) }
    ensures stopped { OnErr result
        (StopsIn D.acts disk.old (puts new.now target.now text.now) disk.new) }
{
    let mut file = file;
    disk.write(&mut file, text)?;
    disk.sync(&file)?;
    disk.rename(new, target)?;
    Ok(())
}
