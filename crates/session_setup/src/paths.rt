//! What makes a plan impossible, as its words show, and the files that they lead to.

ghost use Rattle.std.specs.Prelude.{◌≡◌, ◌≢◌, ◌↔◌, ◌⊎◌, ◌++◌, ◌∷◌, List, ℕ, IfErr, IsTrue, OnOk};
ghost use Rattle.std.specs.Borrow.{Bor};
ghost use Rattle.session_setup.specs.Ports.{HasPort, IsBare, IsBracketed};
ghost use Rattle.session_setup.specs.Paths.{HasSoundWords, IsFilesFault, IsLogPath, IsPlanFault, LogTakes, TakesPath, Writes, starts_server};
ghost use Rattle.session_setup.specs.declared.plan_fault.Written.{Written};
ghost use Rattle.shogi_words.specs.declared.play.PasswordSource.TheVariants as password;
ghost use Rattle.shogi_words.specs.declared.play.ServerChoice.TheVariants as choice;

use crate::fault::{MatchFault, PlayCommandFault};
use crate::groups::{self, SearchPath};
use crate::plan_fault::{Needed, PlanFault, Written};
use crate::port::port_in;
use crate::reading::SeesFiles;
use shogi_words::{PasswordSource, Plan, ServerChoice};
use std::alloc::{AllocError, Global};
use std::os::unix::fs::MetadataExt;

/// What the name of the file for the standard error of the engine adds to that of the log.
pub const ENGINE_ERRORS: &str = ".engine";

/// What that of the file for the standard error of the server adds.
pub const SERVER_ERRORS: &str = ".server";

/// Refuses `LogIsRecord` if the log, or a file beside it, has the path of the record; `Overwrites`
/// if one of these has the path of the file with the password, of the engine or of the server; and
/// `NoPort` if the server is to be at an address that is no `HOST:PORT`.
pub fn check(plan: &Plan<'_, '_>) -> Result<(), PlanFault>
    ensures sound { OnOk result (HasSoundWords plan.now) }
    ensures fault { IfErr result (IsPlanFault plan.now) }
{
    if log_takes(plan, plan.out) {
        return Err(PlanFault::LogIsRecord);
    }
    check_password(plan)?;
    apart(plan, Needed::Engine, plan.engine)?;
    check_server(plan)?;
    Ok(())
}

// Refuses a file with the password that is written.
fn check_password(plan: &Plan<'_, '_>) -> Result<(), PlanFault>
    ensures apart { OnOk result ((path : Bor (List ℕ)) → plan.now.password ≡ password.File path
        → (written : Written) → Writes plan.now written path.now → ⊥) }
    ensures fault { IfErr result (IsPlanFault plan.now) }
{
    match plan.password {
        PasswordSource::File(path) => {
            apart(plan, Needed::PasswordFile, path)?;
            Ok(())
        }
        PasswordSource::Variable => Ok(()),
    }
}

// Refuses a server whose program is written, and an address without a port.
fn check_server(plan: &Plan<'_, '_>) -> Result<(), PlanFault>
    ensures apart { OnOk result ((program : Bor (List ℕ)) (max_moves : ℕ)
        → plan.now.server ≡ choice.Started program max_moves
        → (written : Written) → Writes plan.now written program.now → ⊥) }
    ensures port { OnOk result ((address : Bor (List ℕ))
        → plan.now.server ≡ choice.At address → HasPort address.now) }
    ensures fault { IfErr result (IsPlanFault plan.now) }
{
    match plan.server {
        ServerChoice::Started { program, .. } => {
            apart(plan, Needed::Server, program)?;
            Ok(())
        }
        ServerChoice::At(address) => {
            if !has_port(address) {
                return Err(PlanFault::NoPort);
            }
            Ok(())
        }
    }
}

// Refuses a path of what is needed if something is written there.
fn apart(plan: &Plan<'_, '_>, needed: Needed, path: &str) -> Result<(), PlanFault>
    ensures apart { OnOk result ((written : Written) → Writes plan.now written path.now → ⊥) }
    ensures overwrites { IfErr result (λ fault. (written : Written)
        × Writes plan.now written path.now × (fault ≡ PlanFault.Overwrites written needed)) }
{
    if log_takes(plan, path) {
        return Err(PlanFault::Overwrites(Written::Log, needed));
    }
    if is_same(path, plan.out) {
        return Err(PlanFault::Overwrites(Written::Record, needed));
    }
    Ok(())
}

/// As `check`, by the files that are there: refuses a file that is written also if another name
/// leads to it. Refuses `LogIsOneFile` if the log is a file beside it, or the two files beside it
/// are one, and `OutOfMemory` if an allocation fails.
pub fn check_files<R: SeesFiles + AllocGlobal>(
    rt: &R,
    search_path: &SearchPath,
    plan: &Plan<'_, '_>,
) -> Result<(), PlayCommandFault>
    ensures fault { IfErr result IsFilesFault }
{
    check_file(rt, search_path, plan, Written::Record, plan.out)?;
    match plan.log {
        None | Some("-") => Ok(()),
        Some(log) => check_log(rt, search_path, plan, log),
    }
}

// Refuses a log and files beside it that are needed, the record, or one file.
fn check_log<R: SeesFiles + AllocGlobal>(
    rt: &R,
    search_path: &SearchPath,
    plan: &Plan<'_, '_>,
    log: &str,
) -> Result<(), PlayCommandFault>
    ensures fault { IfErr result IsFilesFault }
{
    let engine_errors = beside(rt.alloc(), log, ENGINE_ERRORS)?;
    check_log_file(rt, search_path, plan, log)?;
    check_log_file(rt, search_path, plan, engine_errors.as_str())?;
    if is_one_file(rt, log, engine_errors.as_str()) {
        return Err(PlayCommandFault::Plan(PlanFault::LogIsOneFile));
    }
    if !starts_server(plan.server) {
        return Ok(());
    }
    let server_errors = beside(rt.alloc(), log, SERVER_ERRORS)?;
    check_log_file(rt, search_path, plan, server_errors.as_str())?;
    for other in [log, engine_errors.as_str()] {
        if is_one_file(rt, server_errors.as_str(), other) {
            return Err(PlayCommandFault::Plan(PlanFault::LogIsOneFile));
        }
    }
    Ok(())
}

// The name of a file beside the log.
fn beside(alloc: Global, log: &str, ending: &str) -> Result<String, MatchFault>
    ensures memory { IfErr result (λ fault. fault ≡ MatchFault.OutOfMemory) }
{
    Ok(format!(in alloc; "{log}{ending}")?)
}

// Refuses a file of the log that is needed, or the record.
fn check_log_file<R: SeesFiles + AllocGlobal>(
    rt: &R,
    search_path: &SearchPath,
    plan: &Plan<'_, '_>,
    name: &str,
) -> Result<(), PlayCommandFault>
    ensures fault { IfErr result IsFilesFault }
{
    if is_one_file(rt, name, plan.out) {
        return Err(PlayCommandFault::Plan(PlanFault::LogIsRecord));
    }
    check_file(rt, search_path, plan, Written::Log, name)
}

// Refuses a file that is written if it is needed.
fn check_file<R: SeesFiles + AllocGlobal>(
    rt: &R,
    search_path: &SearchPath,
    plan: &Plan<'_, '_>,
    written: Written,
    name: &str,
) -> Result<(), PlayCommandFault>
    ensures fault { IfErr result IsFilesFault }
{
    if is_program(rt, search_path, name, plan.engine)? {
        return Err(PlayCommandFault::Plan(PlanFault::Overwrites(written, Needed::Engine)));
    }
    if let ServerChoice::Started { program, .. } = plan.server {
        if is_program(rt, search_path, name, program)? {
            return Err(PlayCommandFault::Plan(PlanFault::Overwrites(written, Needed::Server)));
        }
    }
    if let PasswordSource::File(path) = plan.password {
        if is_one_file(rt, name, path) {
            return Err(PlayCommandFault::Plan(PlanFault::Overwrites(
                written,
                Needed::PasswordFile,
            )));
        }
    }
    Ok(())
}

// Whether the file of this name is that of the program.
fn is_program<R: SeesFiles + AllocGlobal>(
    rt: &R,
    search_path: &SearchPath,
    name: &str,
    program: &str,
) -> Result<bool, MatchFault>
    ensures memory { IfErr result (λ fault. fault ≡ MatchFault.OutOfMemory) }
{
    match groups::path_of(rt, search_path, program)? {
        Some(path) => Ok(is_one_file(rt, name, path.as_str())),
        None => Ok(false),
    }
}

// Whether both names lead to the same file, and it is no device or pipe; or, if neither file is
// there yet, whether it would be one.
fn is_one_file<R: SeesFiles>(rt: &R, name: &str, other: &str) -> bool {
    match (rt.metadata_at(name), rt.metadata_at(other)) {
        (Ok(one), Ok(two)) => one.is_file() && one.dev() == two.dev() && one.ino() == two.ino(),
        (Err(_), Err(_)) => is_one_entry(rt, &Location::of(name), &Location::of(other)),
        _ => false,
    }
}

// Whether both are one name in one folder.
fn is_one_entry<R: SeesFiles>(rt: &R, one: &Location<'_>, other: &Location<'_>) -> bool {
    if one.name != other.name {
        return false;
    }
    match (rt.metadata_at(one.folder), rt.metadata_at(other.folder)) {
        (Ok(folder), Ok(second)) => folder.dev() == second.dev() && folder.ino() == second.ino(),
        _ => false,
    }
}

// Where a file is: the path of its folder, and its name there.
#[derive(Clone, Copy)]
struct Location<'a> {
    folder: &'a str,
    name: &'a str,
}

impl<'a> Location<'a> {
    fn of(path: &'a str) -> Location<'a> {
        match path.rsplit_once('/') {
            Some((folder, name)) if folder.is_empty() => Location { folder: "/", name },
            Some((folder, name)) => Location { folder, name },
            None => Location {
                folder: ".",
                name: path,
            },
        }
    }
}

// Whether the plan's log, or a file beside it, is at this path.
fn log_takes(plan: &Plan<'_, '_>, path: &str) -> bool
    ensures { IsTrue result ↔ LogTakes plan.now path.now }
{
    takes_path(plan.log, plan.server, path)
}

/// Whether the server is one to start.
pub fn starts_server(server: ServerChoice<'_>) -> bool
    ensures { result ≡ starts_server server.entry }
{
    match server {
        ServerChoice::Started { .. } => true,
        ServerChoice::At(_) => false,
    }
}

// Whether the log, or a file beside it, is at this path. Standard error is at none.
fn takes_path(log: Option<&str>, server: ServerChoice<'_>, path: &str) -> bool
    ensures { IsTrue result ↔ TakesPath log.entry server.entry path.now }
{
    match log {
        None | Some("-") => false,
        Some(log) => is_log_path(log, server, path),
    }
}

// Whether the path is that of the log or of a file beside it.
fn is_log_path(log: &str, server: ServerChoice<'_>, path: &str) -> bool
    ensures { IsTrue result ↔ IsLogPath log.now server.entry path.now }
{
    path == log
        || is_beside(log, ENGINE_ERRORS, path)
        || (starts_server(server) && is_beside(log, SERVER_ERRORS, path))
}

// Whether the path is that of the log and this ending.
fn is_beside(log: &str, ending: &str, path: &str) -> bool
    ensures { IsTrue result ↔ (path.now ≡ log.now ++ ending.now) }
{
    match path.as_bytes().strip_suffix(ending.as_bytes()) {
        Some(front) => front == log.as_bytes(),
        None => false,
    }
}

fn is_same(path: &str, other: &str) -> bool
    ensures { IsTrue result ↔ (path.now ≡ other.now) }
{
    path == other
}

// Whether the address is a host, a colon and the number of a port.
fn has_port(address: &str) -> bool
    ensures { IsTrue result ↔ HasPort address.now }
{
    match address.rsplit_once(':') {
        Some((host, port)) => is_host(host.as_bytes()) && port_in(port.as_bytes()).is_some(),
        None => false,
    }
}

// Whether this can be a host: a name or an address without a colon, or an address in brackets.
fn is_host(host: &[u8]) -> bool
    ensures { IsTrue result ↔ (IsBracketed host.now ⊎ IsBare host.now) }
{
    match host.strip_prefix(b"[".as_slice()) {
        Some(rest) => is_closed(rest),
        None => !host.is_empty() && host.iter().all(|b| *b != b':'),
    }
}

// Whether a bracket ends these bytes, with something before it.
fn is_closed(bytes: &[u8]) -> bool
    ensures { IsTrue result ↔ IsBracketed (91 ∷ bytes.now) }
{
    match bytes.strip_suffix(b"]".as_slice()) {
        Some(inside) => !inside.is_empty(),
        None => false,
    }
}
