//! An editor by lines on two files that only get longer. What is typed is read from standard input; what is shown goes to standard output.

#![tactic(auto)]

use core_house::Told;
use frontend::{Editor, House};
use std::process::ExitCode;

/// The editor on the house that does the core commands.
struct Core;

impl House for Core {
    const MEMORY: usize = core_house::MEMORY;

    const ROW: usize = core_house::ROW;

    fn step(memory: &mut [u64], kind: u64, bytes: &[u8], row: &mut [u8]) -> Told {
        core_house::step(memory, kind, bytes, row)
    }
}

impl Editor for Core {
    const NAME: &'static str = "core_editor";

    const HELP: &'static str = "usage: core_editor [--room RECORDS] [FILE0 FILE1]
       core_editor --help | --version

Edits a text that is kept in two files, house.0 and house.1 unless others are
named. They are made where they aren't there. RECORDS, from 1024 to 1048576,
is how many records of 512 bytes a file may have, 65536 unless it is said.
While it runs, other editors are kept away from them.

Commands are read from standard input, one a line:
  a i c      put the lines that follow, up to one with only a dot, after a
             line, before it, or in place of a range
  d j        delete a range; join it to one line
  p n =      show a range; with numbers; show a line's number
  w e f      write a range to a file of the house, edit one, list them
An address alone shows that line: a number, . for the current line, $ for the
last, +2 or -2 for steps from these. A range is two with a comma between, or %
for all lines. What can't be done is refused by a number and changes nothing:
1 can't be read, 2 isn't known yet, 3 no such file, 4 no such line, 7 a line of
more than 1024 bytes or too many files, 8 no room.
";

    const VERSION: Option<&'static str> = Some(
        "core_editor, proved with rattle-kit-13f logic dac8208d650f15bf
",
    );
}

fn main(rt: HostRuntime) -> ExitCode {
    frontend::run::<Core>(&rt)
}
