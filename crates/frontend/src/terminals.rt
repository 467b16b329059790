//! Where a person is, and not a file or another program.

use std::io::IsTerminal;

/// Whether a person types, sees what is shown, and sees what is said beside.
#[derive(Clone, Copy, Default)]
pub struct Terminals {
    pub input: bool,
    pub output: bool,
    pub errors: bool,
}

impl Terminals {
    pub(crate) fn of(rt: &HostRuntime) -> Terminals {
        Terminals {
            input: rt.stdin().is_terminal(),
            output: rt.stdout().is_terminal(),
            errors: rt.stderr().is_terminal(),
        }
    }
}
