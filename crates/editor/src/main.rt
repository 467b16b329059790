//! An editor by lines on two files that only get longer. What is typed is read from standard input; what is shown goes to standard output.

#![tactic(auto)]

use frontend::{Editor, Fault, House, Tape, Terminals};
use house::Told;
use std::alloc::Global;
use std::fs::{File, TryLockError};
use std::process::ExitCode;

/// The editor on the house that refuses each command, as it landed: it locks nothing, looks at no file beforehand and minds no person.
struct Plain;

impl House for Plain {
    const MEMORY: usize = house::MEMORY;

    const ROW: usize = house::ROW;

    fn step(memory: &mut [u64], kind: u64, bytes: &[u8], row: &mut [u8]) -> Told {
        house::step(memory, kind, bytes, row)
    }
}

impl Editor for Plain {
    const NAME: &'static str = "editor";

    // In full, as it is printed: `concat!` puts together literals and no constants.
    const HELP: &'static str = "usage: editor [--room RECORDS] [FILE0 FILE1]

Edits a text that is kept in two files, house.0 and house.1 unless others are
named. They are made where they aren't there. RECORDS, from 1024 to 1048576,
is how many records of 512 bytes a file may have, 65536 unless it is said.

Commands are read from standard input, one a line:
  a i c      put the lines that follow, up to one with only a dot, after a
             line, before it, or in place of a range
  d j        delete a range; join it to one line
  p n =      show a range; with numbers; show a line's number
  w e f      write a range to a file of the house, edit one, list them
An address alone shows that line. What can't be done is refused by a number:
1 what can't be read, 2 what isn't known yet, which today is all of these.
";

    const VERSION: Option<&'static str> = None;

    fn lock(_file: &File) -> Result<(), TryLockError> {
        Ok(())
    }

    fn inspect(_heap: Global, _tapes: &mut [Tape; 2]) -> Result<(), Fault> {
        Ok(())
    }

    fn terminals(_rt: &HostRuntime) -> Terminals {
        Terminals::default()
    }
}

fn main(rt: HostRuntime) -> ExitCode {
    frontend::run::<Plain>(&rt)
}
