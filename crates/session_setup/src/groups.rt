//! Programs that lead groups of their own, so that what they started is ended with them.

ghost use Rattle.std.specs.Prelude.{◌≡◌, ◌∷◌, IfErr, IfOk, IfSome, OnOk, codes, is_some, option_map, string_bytes, true};
ghost use Rattle.std.specs.Process.{child_status, command_args, command_program};
ghost use Rattle.session_setup.specs.Logins.{IsWithoutPassword};
ghost use Rattle.session_setup.specs.Plans.{IsPathOf, has_slash};
ghost use Rattle.session_setup.specs.Reading.{IsSearchPath};
ghost use Rattle.session_setup.specs.Starting.{KillsGroup, kill_words};

use crate::fault::MatchFault;
use crate::login::hide_password;
use crate::reading::{SeesFiles, Variables};
use crate::starting::Starter;
use std::alloc::{AllocError, Global};
use std::env::VarError;
use std::os::unix::fs::PermissionsExt;
use std::process::{Child, Command, OpenProcess, Stdio};

// What starts a program as the leader of a group.
const LEADING: &str = "setsid";

/// What is ended with a program.
#[derive(Clone, Copy, PartialEq, Eq)]
pub enum Reach {
    /// All that are in its group.
    Group,
    /// The program alone.
    Itself,
}

/// A program that was started.
#[derive(Drop)]
pub struct Member<P: OpenProcess> {
    /// The program.
    pub child: Child<P>,
    /// What is ended with it.
    pub reach: Reach,
}

/// The folders in which programs are looked for.
#[derive(Drop)]
pub struct SearchPath {
    // None if `PATH` is not set, or is not UTF-8.
    folders: Option<String>,
}

impl SearchPath {
    /// That of the environment, by the variable `PATH`.
    ///
    /// Refuses `OutOfMemory` if an allocation fails.
    pub fn of<R: Variables>(rt: &R) -> Result<SearchPath, MatchFault>
        ensures path { IfOk result (λ path.
            IsSearchPath R.has R.lacks rt.now (option_map string_bytes path.folders)) }
        ensures memory { IfErr result (λ fault. fault ≡ MatchFault.OutOfMemory) }
    {
        match rt.variable_text("PATH") {
            Ok(folders) => Ok(SearchPath {
                folders: Some(folders),
            }),
            Err(VarError::NotPresent | VarError::NotUnicode) => Ok(SearchPath { folders: None }),
            Err(VarError::OutOfMemory) => Err(MatchFault::OutOfMemory),
        }
    }
}

/// The command that starts the program with its words as the leader of a group. None if the system
/// cannot do that, or if the program is not found: starting it then reports that.
///
/// Returns an error if an allocation fails.
pub fn leading<R: SeesFiles + AllocGlobal>(
    rt: &R,
    search_path: &SearchPath,
    command: &Command<Global>,
) -> Result<Option<Command<Global>>, AllocError>
    ensures program { IfOk result (λ led. IfSome led (λ c. command_program c ≡ codes "setsid")) }
    ensures words { IfOk result (λ led. IfSome led (λ c. command_args c
        ≡ codes "--" ∷ command_program command.now ∷ command_args command.now)) }
{
    if !is_found(rt, search_path, LEADING)? || !is_found(rt, search_path, command.get_program())? {
        return Ok(None);
    }
    Ok(Some(led(rt.alloc(), command)?))
}

// The command, started by what makes it the leader of a group.
fn led(alloc: Global, command: &Command<Global>) -> Result<Command<Global>, AllocError>
    ensures program { IfOk result (λ c. command_program c ≡ codes "setsid") }
    ensures words { IfOk result (λ c. command_args c
        ≡ codes "--" ∷ command_program command.now ∷ command_args command.now) }
{
    let mut leading = Command::new(alloc, LEADING)?;
    leading.arg("--")?;
    leading.arg(command.get_program())?;
    for word in command.get_args() {
        leading.arg(word)?;
    }
    Ok(leading)
}

fn has_slash(program: &str) -> bool
    ensures { result ≡ has_slash program.now }
{
    program.as_bytes().contains(&b'/')
}

// Whether there is a file of the program that can be run.
fn is_found<R: SeesFiles + AllocGlobal>(
    rt: &R,
    search_path: &SearchPath,
    program: &str,
) -> Result<bool, AllocError> {
    match path_of(rt, search_path, program)? {
        Some(path) => Ok(can_run(rt, path.as_str())),
        None => Ok(false),
    }
}

/// The path of the program: itself if it has a slash, or else that in the first folder where a file
/// of its name can be run. None if there is no such folder.
///
/// Returns an error if an allocation fails.
pub fn path_of<R: SeesFiles + AllocGlobal>(
    rt: &R,
    search_path: &SearchPath,
    program: &str,
) -> Result<Option<String>, AllocError>
    ensures path { IfOk result (λ found.
        IfSome found (λ path. IsPathOf program.now (string_bytes path))) }
    ensures itself { IfOk result
        (λ found. has_slash program.now ≡ true → is_some found ≡ true) }
{
    if has_slash(program) {
        return Ok(Some(String::from_str(rt.alloc(), program)?));
    }
    let Some(folders) = &search_path.folders else {
        return Ok(None);
    };
    for folder in folders.as_str().split(':') {
        let path = format!(in rt.alloc(); "{folder}/{program}")?;
        if can_run(rt, path.as_str()) {
            return Ok(Some(path));
        }
    }
    Ok(None)
}

// Whether a file that can be run is at the path.
fn can_run<R: SeesFiles>(rt: &R, path: &str) -> bool {
    match rt.metadata_at(path) {
        Ok(there) => there.is_file() && there.permissions().mode() & 0o111 != 0,
        Err(_) => false,
    }
}

/// Ends the program at once, and what is ended with it. Returns whether the program has ended.
pub fn end<R: Starter + AllocGlobal, P: OpenProcess + Drop>(rt: &R, member: &mut Member<P>) -> bool
    ensures ended { result ≡ true → is_some (child_status member.new.child) ≡ true }
{
    let _ = end_group(rt, member);
    member.child.kill().is_ok() && member.child.wait().is_ok()
}

/// Kills the program's group, if it leads one: what it has started may live on when it has ended
/// itself.
///
/// Returns an error if an allocation fails.
pub fn end_group<R: Starter + AllocGlobal, P: OpenProcess + Drop>(
    rt: &R,
    member: &Member<P>,
) -> Result<(), AllocError>
    ensures group { OnOk result (member.now.reach ≡ Reach.Group → KillsGroup R.starts rt.now) }
{
    if member.reach == Reach::Group {
        kill_group(rt, member)?;
    }
    Ok(())
}

// Kills each process of the group that the program leads.
fn kill_group<R: Starter + AllocGlobal, P: OpenProcess + Drop>(
    rt: &R,
    member: &Member<P>,
) -> Result<(), AllocError>
    requires { member.now.reach ≡ Reach.Group }
    ensures { OnOk result (KillsGroup R.starts rt.now) }
{
    let mut kill = kill_command(rt.alloc(), member.child.id())?;
    kill.stdin(Stdio::null());
    kill.stdout(Stdio::null());
    kill.stderr(Stdio::null());
    hide_password(&mut kill)?;
    run_to_its_end(rt, &mut kill);
    Ok(())
}

// What kills each process of the group of that number.
fn kill_command(alloc: Global, id: u32) -> Result<Command<Global>, AllocError>
    ensures program { IfOk result (λ c. command_program c ≡ codes "kill") }
    ensures words { IfOk result (λ c. command_args c ≡ kill_words id) }
{
    let mut kill = Command::new(alloc, "kill")?;
    let group = format!(in alloc; "-{id}")?;
    kill.arg("-KILL")?;
    kill.arg("--")?;
    kill.arg(group.as_str())?;
    Ok(kill)
}

// Runs a program that does not get the password, and waits for its end.
fn run_to_its_end<R: Starter>(rt: &R, command: &mut Command<Global>)
    requires { IsWithoutPassword command.old }
    ensures { R.starts rt.now (command_program command.old) (command_args command.old) }
{
    if let Ok(mut child) = rt.start(command) {
        let _ = child.wait();
    }
}
