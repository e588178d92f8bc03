//! The name and the password that `play` logs in with.

ghost use Rattle.std.specs.Prelude.{◌≡◌, ◌⊎◌, IfErr, IfOk, MatchOption, OnOk, option_map, string_bytes};
ghost use Rattle.std.specs.Process.{SameProgramAndArgs};
ghost use Rattle.session_setup.specs.Logins.{AreLoginWords, GivesNoWord, GivesPassword, HasFirstLine, HasNoLogin, HasNoPassword, IsLoginOf, IsWithoutPassword, first_line};
ghost use Rattle.host_and_sample.specs.Host.{IsLoginWord};

use crate::fault::LoginFault;
use crate::reading::{OpensFiles, Variables};
use arrayvec::ArrayString;
use host_and_sample::is_login_word;
use shogi_words::{PasswordSource, Plan};
use std::alloc::{AllocError, Global};
use std::env::VarError;
use std::io::{ErrorKind, Read};
use std::process::Command;
use std::str;

/// The environment variable with the password.
pub const VARIABLE: &str = "SHOGI_PASSWORD";

const USUAL: &str = "pw";

// How many bytes of a file are read: more than a password and its line end.
const FRONT: u64 = 64;

/// What a bridge logs in with. Each is 1 to 32 bytes from 0x21 to 0x7E.
#[derive(Clone, Copy)]
pub struct Login {
    /// The name.
    pub name: ArrayString<32>,
    /// The password.
    pub password: ArrayString<32>,
}

/// What a password is read from.
pub trait Secrets {
    ghost use Rattle.std.specs.Prelude.{ℕ, List, Option};

    /// A file.
    type File: Read + Drop;

    // This is the file of that name, to be read from its start.
    ghost opens: { Self → List ℕ → Self.File → Type 0 };

    // The file of that name cannot be opened.
    ghost opens_not: { Self → List ℕ → Type 0 };

    // The variable has this text, or is not set.
    ghost holds: { Self → Option (List ℕ) → Type 0 };

    // The variable has bytes that are not UTF-8.
    ghost holds_no_text: { Self → Type 0 };

    /// Opens the file of that name. Refuses `Read` if it cannot be opened, and `OutOfMemory`.
    fn open(&self, path: &str) -> Result<Self::File, LoginFault>
        ensures opened { IfOk result (opens self.now path.now) }
        ensures failed { IfErr result (λ fault.
            ((fault ≡ LoginFault.Read) × opens_not self.now path.now)
            ⊎ (fault ≡ LoginFault.OutOfMemory)) };

    /// The text of the variable, if it is set. Refuses `BadPassword` if it is not UTF-8, and
    /// `OutOfMemory`.
    fn variable(&self) -> Result<Option<String>, LoginFault>
        ensures held { IfOk result (λ text. holds self.now (option_map string_bytes text)) }
        ensures failed { IfErr result (λ fault.
            ((fault ≡ LoginFault.BadPassword) × holds_no_text self.now)
            ⊎ (fault ≡ LoginFault.OutOfMemory)) };
}

/// The files that a runtime opens to be read, and its environment.
#[derive(Drop)]
pub struct RuntimeSecrets<'a, R> {
    rt: &'a R,
}

impl<'a, R> RuntimeSecrets<'a, R> {
    /// Those of this runtime. The variable is `SHOGI_PASSWORD`.
    pub fn new(rt: &'a R) -> RuntimeSecrets<'a, R>
        ensures { result.rt.now ≡ rt.now }
    {
        RuntimeSecrets { rt }
    }
}

impl<R: Variables + OpensFiles> Secrets for RuntimeSecrets<'_, R> {
    ghost use Rattle.std.specs.Prelude.{codes};
    ghost use Rattle.std.specs.declared.env.VarError.TheVariants.{NotUnicode};
    ghost use Rattle.session_setup.specs.Reading.{IsVariable};

    type File = R::Opened;

    ghost opens = { λ secrets path file. R.opens secrets.rt.now path file };

    ghost opens_not = { λ secrets path. R.opens_not secrets.rt.now path };

    ghost holds = { λ secrets text.
        IsVariable R.has R.lacks secrets.rt.now (codes "SHOGI_PASSWORD") text };

    ghost holds_no_text = { λ secrets.
        R.lacks secrets.rt.now (codes "SHOGI_PASSWORD") NotUnicode };

    fn open(&self, path: &str) -> Result<R::Opened, LoginFault> {
        match self.rt.open_file(path) {
            Ok(file) => Ok(file),
            Err(error) => Err(read_fault(error.kind())),
        }
    }

    fn variable(&self) -> Result<Option<String>, LoginFault> {
        match self.rt.variable_text(VARIABLE) {
            Ok(text) => Ok(Some(text)),
            Err(VarError::NotPresent) => Ok(None),
            Err(VarError::NotUnicode) => Err(LoginFault::BadPassword),
            Err(VarError::OutOfMemory) => Err(LoginFault::OutOfMemory),
        }
    }
}

/// The name of the plan, and the password of its source.
///
/// Refuses `BadName`, and then `Read` if the file with the password cannot be read, `BadPassword`,
/// and `OutOfMemory`.
pub fn login_of<S: Secrets>(
    alloc: Global,
    secrets: &S,
    plan: &Plan<'_, '_>,
) -> Result<Login, LoginFault>
    ensures login { IfOk result
        (IsLoginOf S.opens S.File.Read.remaining S.holds secrets.now plan.now) }
    ensures words { IfOk result AreLoginWords }
    ensures none { IfErr result (HasNoLogin
        S.opens S.opens_not S.File.Read.remaining S.holds S.holds_no_text secrets.now plan.now) }
{
    let Some(name) = credential(plan.name.as_bytes()) else {
        return Err(LoginFault::BadName);
    };
    let password = password_of(alloc, secrets, plan.password)?;
    Ok(Login { name, password })
}

// The password of that source: the first line of the file, or else the text of the variable, or
// else the usual one.
fn password_of<S: Secrets>(
    alloc: Global,
    secrets: &S,
    source: PasswordSource<'_>,
) -> Result<ArrayString<32>, LoginFault>
    ensures given { IfOk result (λ word. IsLoginWord word.bytes
        × GivesPassword S.opens S.File.Read.remaining S.holds secrets.now source.entry word.bytes) }
    ensures none { IfErr result (HasNoPassword S.opens S.opens_not S.File.Read.remaining
        S.holds S.holds_no_text secrets.now source.entry) }
{
    match source {
        PasswordSource::File(path) => password_in(alloc, secrets.open(path)?),
        PasswordSource::Variable => match secrets.variable()? {
            Some(text) => credential(text.as_bytes()).ok_or(LoginFault::BadPassword),
            None => Ok(ArrayString::from(USUAL).unwrap()),
        },
    }
}

// The first line of the file, as a password.
fn password_in<F: Read + Drop>(alloc: Global, file: F) -> Result<ArrayString<32>, LoginFault>
    ensures given { IfOk result (λ word. IsLoginWord word.bytes
        × HasFirstLine (F.remaining file) word.bytes) }
    ensures none { IfErr result (GivesNoWord (F.remaining file)) }
{
    let mut bytes = Vec::new(alloc);
    if let Err(error) = file.take(FRONT).read_to_end(&mut bytes) {
        return Err(read_fault(error.kind()));
    }
    credential(first_line(bytes.as_slice())).ok_or(LoginFault::BadPassword)
}

// `OutOfMemory` for an error of that kind, and otherwise `Read`.
fn read_fault(kind: ErrorKind) -> LoginFault
    ensures { (result ≡ LoginFault.Read) ⊎ (result ≡ LoginFault.OutOfMemory) }
{
    match kind {
        ErrorKind::OutOfMemory => LoginFault::OutOfMemory,
        _ => LoginFault::Read,
    }
}

// What comes before the first CR or LF, or all of the bytes.
fn first_line(bytes: &[u8]) -> &[u8]
    ensures { result.now ≡ first_line bytes.now }
{
    match bytes.iter().position(|b| *b == b'\r' || *b == b'\n') {
        Some(end) => &bytes[..end],
        None => bytes,
    }
}

// The bytes, if one can log in with them: 1 to 32 bytes from 0x21 to 0x7E.
fn credential(bytes: &[u8]) -> Option<ArrayString<32>>
    ensures { MatchOption result (IsLoginWord bytes.now → ⊥)
        (λ word. IsLoginWord bytes.now × (word.bytes ≡ bytes.now)) }
{
    if !is_login_word(bytes) {
        return None;
    }
    match str::from_utf8(bytes) {
        Ok(text) => Some(ArrayString::from(text).unwrap()),
        Err(_) => None,
    }
}

/// Takes the variable with the password from the environment of a program that is to be started.
///
/// Returns an error if an allocation fails.
pub fn hide_password(command: &mut Command<Global>) -> Result<(), AllocError>
    ensures hidden { OnOk result (IsWithoutPassword command.new) }
    ensures call { OnOk result (SameProgramAndArgs command.old command.new) }
{
    command.env_remove(VARIABLE)?;
    Ok(())
}
