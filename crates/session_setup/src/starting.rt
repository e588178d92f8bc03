//! The one way in which sessions start programs: without the password.

ghost use Rattle.std.specs.Process.{command_args, command_program};
ghost use Rattle.session_setup.specs.Logins.{IsWithoutPassword};

use std::alloc::Global;
use std::io;
use std::process::{Child, Command, OpenProcess, Processes};

/// Starts programs, which do not get the password.
///
/// A function that has a runtime by this bound alone can start no program otherwise.
pub trait Starter {
    ghost use Rattle.std.specs.Prelude.{ℕ, List};

    /// A program that was started.
    type Program: OpenProcess + Drop;

    // That program was to be started, with these words.
    ghost starts: { Self → List ℕ → List (List ℕ) → Type 0 };

    /// Starts the program of the command. It inherits each stream that was not set.
    fn start(&self, command: &mut Command<Global>) -> io::Result<Child<Self::Program>>
        requires { IsWithoutPassword command.old }
        ensures { starts self.now (command_program command.old) (command_args command.old) };
}

// No contract can say what a started program is.
impl<R: Processes> Starter for R {
    ghost use Rattle.std.specs.Prelude.{⊤};

    type Program = R::Started;

    ghost starts = { λ rt program words. ⊤ };

    fn start(&self, command: &mut Command<Global>) -> io::Result<Child<R::Started>> {
        command.spawn(self)
    }
}
