//! What the editors have in common: what is typed and shown, two files, and the acts that a house asks for.
#![tactic(auto)]

ghost use Rattle.std.specs.Prelude.{◌≤◌};
ghost use Rattle.std.specs.Process.{exit_status};

pub use fault::Fault;
use options::Call;
use protocol::Told;
use session::Session;
use std::alloc::Global;
use std::fs::{File, TryLockError};
use std::process::ExitCode;
pub use tape::Tape;
pub use terminals::Terminals;

mod console;
mod fault;
mod machine;
mod options;
mod progress;
mod refusal;
mod rows;
mod session;
mod tape;
mod terminals;
mod typing;

/// A machine that is told what happens and says what it wants done.
pub trait House {
    /// How many numbers its memory has.
    const MEMORY: usize;
    /// How many bytes the row has in which it hands out records and shown rows.
    const ROW: usize;

    /// One step, over memory and a row that are lent. A kind is an `Event` as a number.
    fn step(memory: &mut [u64], kind: u64, bytes: &[u8], row: &mut [u8]) -> Told;
}

/// What one editor may have otherwise than another: its texts, and what it does for files and persons.
pub trait Editor: House {
    const NAME: &'static str;

    const HELP: &'static str;
    /// What `--version` prints, where there is such an option.
    const VERSION: Option<&'static str>;

    /// Keeps other editors away from a file.
    fn lock(file: &File) -> Result<(), TryLockError> {
        file.try_lock()
    }

    /// Looks at both files before either is written.
    fn inspect(heap: Global, tapes: &mut [Tape; 2]) -> Result<(), Fault> {
        tape::inspect(heap, tapes)
    }

    /// Where it minds that a person is.
    fn terminals(rt: &HostRuntime) -> Terminals {
        Terminals::of(rt)
    }
}

/// Does what the arguments say.
fn call<E: Editor>(rt: &HostRuntime) -> Result<(), Fault> {
    match options::read::<E>(rt)? {
        Call::Print(text) => rt.print(text)?,
        Call::Edit(options) => Session::<E>::open(rt, options)?.talk(rt)?,
    }
    Ok(())
}

/// Runs an editor as the arguments say.
pub fn run<E: Editor>(rt: &HostRuntime) -> ExitCode
    ensures { exit_status result ≤ 1 }
{
    match call::<E>(rt) {
        Ok(()) => ExitCode::SUCCESS,
        Err(fault) => {
            let name = E::NAME;
            let _ = eprintln!(rt; "{name}: {fault}");
            ExitCode::FAILURE
        }
    }
}
