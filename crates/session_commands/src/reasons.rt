//! A second line about a fault of `play` or `serve`: what failed, and the system's reason.

ghost use Rattle.std.specs.Prelude.{List, ℕ, IfOk, string_bytes};
ghost use Rattle.session_commands.specs.Words.{IsReasonLine};

use crate::children::local_address;
use record_commands::system_words::without_number;
use session_setup::out_file;
use session_setup::paths::{ENGINE_ERRORS, SERVER_ERRORS, starts_server};
use session_setup::reading::SeesFiles;
use shogi_board::OutOfMemory;
use shogi_words::{Plan, ServerChoice};
use std::alloc::Global;
use std::fs::{self, File, OpenOptions};
use std::io;
use std::net::{Net, TcpListener, TcpStream};
use std::rt::Files;

// A number that no new file beside a record has.
const UNUSED: u32 = 100;

/// The line about a file that cannot be read. Empty if its first byte can be read now.
///
/// Returns an error if an allocation fails.
pub fn unreadable<R: SeesFiles + AllocGlobal>(rt: &R, name: &str) -> Result<String, OutOfMemory>
    ensures { IfOk result (λ text. IsReasonLine name.now (string_bytes text)) }
{
    match rt.try_reading(name) {
        Ok(()) => Ok(String::new(rt.alloc())),
        Err(error) => reason_line(rt.alloc(), name, &error),
    }
}

/// The line about the first file of the plan that cannot be written: the record, the log, or a file
/// beside it. Empty if each of them can be written now.
///
/// Returns an error if an allocation fails.
pub fn unwritable<R: Files + AllocGlobal>(
    rt: &R,
    plan: &Plan<'_, '_>,
) -> Result<String, OutOfMemory>
    ensures { IfOk result (λ text. (name : List ℕ) × IsReasonLine name (string_bytes text)) }
{
    if let Err(error) = record_tried(rt, plan.out) {
        return reason_line(rt.alloc(), plan.out, &error);
    }
    match plan.log {
        None | Some("-") => Ok(String::new(rt.alloc())),
        Some(log) => unwritable_log(rt, log, plan.server),
    }
}

// The line about the log, or a file beside it.
fn unwritable_log<R: Files + AllocGlobal>(
    rt: &R,
    log: &str,
    server: ServerChoice<'_>,
) -> Result<String, OutOfMemory>
    ensures { IfOk result (λ text. (name : List ℕ) × IsReasonLine name (string_bytes text)) }
{
    for ending in ["", ENGINE_ERRORS, SERVER_ERRORS] {
        let is_made = starts_server(server) || ending != SERVER_ERRORS;
        let name = format!(in rt.alloc(); "{log}{ending}")?;
        if is_made {
            if let Err(error) = tried(rt, name.as_str()) {
                return reason_line(rt.alloc(), name.as_str(), &error);
            }
        }
        if !fs::metadata(rt, log).is_ok_and(|there| there.is_file()) {
            break;
        }
    }
    Ok(String::new(rt.alloc()))
}

// Why there can be no new file beside the record, or why what is there cannot be written.
fn record_tried<R: Files + AllocGlobal>(rt: &R, out: &str) -> io::Result<()> {
    if fs::metadata(rt, out).is_ok_and(|there| !there.is_file()) {
        return tried(rt, out);
    }
    match out_file::beside(rt.alloc(), out, UNUSED) {
        Ok(new) => tried(rt, new.as_str()),
        Err(_) => Ok(()),
    }
}

// Why the file cannot be opened to be written, or made. What is there stays as it is. A device and
// a pipe are not tried.
fn tried<R: Files>(rt: &R, name: &str) -> io::Result<()> {
    match fs::metadata(rt, name) {
        Ok(there) if there.is_file() || there.is_dir() => {
            let mut options = OpenOptions::new();
            options.append(true);
            options.open(rt, name)?;
            Ok(())
        }
        Ok(_) => Ok(()),
        Err(_) => {
            File::create_new(rt, name)?;
            fs::remove_file(rt, name)
        }
    }
}

/// The line about the port of this machine that nothing can listen on. Empty if something can.
///
/// Returns an error if an allocation fails.
pub fn taken_port<R: Net<Listener = TcpListener, Stream = TcpStream> + AllocGlobal>(
    rt: &R,
    port: u16,
) -> Result<String, OutOfMemory>
    ensures { IfOk result (λ text. (name : List ℕ) × IsReasonLine name (string_bytes text)) }
{
    match TcpListener::bind(rt, ("127.0.0.1", port)) {
        Ok(_listener) => Ok(String::new(rt.alloc())),
        Err(error) => {
            let address = local_address(rt.alloc(), port)?;
            reason_line(rt.alloc(), address.as_str(), &error)
        }
    }
}

// The system's words for the error, without its number.
fn reason_line(alloc: Global, name: &str, error: &io::Error) -> Result<String, OutOfMemory>
    ensures { IfOk result (λ text. IsReasonLine name.now (string_bytes text)) }
{
    let words = format!(in alloc; "{error}")?;
    let reason = without_number(&words);
    Ok(format!(in alloc; "  {name}: {reason}\n")?)
}
