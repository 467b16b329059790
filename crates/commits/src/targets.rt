//! The tape that a record is put on: the one that counts, or on the second pass the other one.

ghost use Rattle.std.specs.Prelude.{◌≡◌, ◌<◌};
ghost use Rattle.commits.specs.Bounds.{Loose};
ghost use Rattle.commits.specs.Putting.{target as tape_put_on, target_used, target_longer, last_target};
ghost use Rattle.commits.specs.Setters.{passive as other_tape};

use memory::{Registers, Tapes};

/// The tape that doesn't count.
pub fn passive(registers: &Registers) -> u64
    requires { registers.now.tapes.active < 2 }
    ensures { result ≡ other_tape registers.now }
{
    1 - registers.tapes.active
}

/// The tape that a record is put on.
pub fn target(registers: &Registers) -> u64
    requires { Loose registers.now }
    ensures { result ≡ tape_put_on registers.now }
{
    if registers.putting.second {
        passive(registers)
    } else {
        registers.tapes.active
    }
}

/// How many records are on it.
pub fn target_used(registers: &Registers) -> u64
    ensures { result ≡ target_used registers.now }
{
    if registers.putting.second {
        registers.tapes.other
    } else {
        registers.tapes.used
    }
}

/// The tapes, with one record more on it.
pub fn lengthen(registers: &Registers) -> Tapes
    requires { Loose registers.now }
    ensures { result ≡ target_longer registers.now }
{
    let tapes = registers.tapes;
    if registers.putting.second {
        Tapes {
            other: tapes.other + 1,
            ..tapes
        }
    } else {
        Tapes {
            used: tapes.used + 1,
            ..tapes
        }
    }
}

/// Whether no other tape gets the record after this one.
pub fn last_target(registers: &Registers) -> bool
    ensures { result ≡ last_target registers.now }
{
    registers.putting.second || !registers.tapes.busy
}
