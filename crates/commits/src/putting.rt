//! Putting on what a command brings: its lines, then its commit, on the tape that counts, and then on the other one too if entries are being carried there.

ghost use Rattle.std.specs.Prelude.{◌≡◌, ◌≤◌, length};
ghost use Rattle.commits.specs.Acts.{Says};
ghost use Rattle.commits.specs.Bounds.{Loose};
ghost use Rattle.commits.specs.Putting.{put_next, start_pass, after_line, after_commit, after_fast};

use crate::{Told, commit, finish, line_parts};
use memory::{Phase, Putting, Registers};

/// Puts on the next record: of the first line that is left, or the commit.
pub fn put_next(registers: &mut Registers, memory: &mut [u64], out: &mut [u8]) -> Told
    requires { (length memory.old ≡ 262144) × ((131072 ≤ length out.old) × (Loose registers.old)) }
    ensures { Says (put_next registers.old memory.old) registers.new memory.new result out.old out.new }
{
    if registers.putting.more {
        line_parts::put_piece(registers, memory, out)
    } else {
        commit::put_commit(registers, memory, out)
    }
}

/// Puts on the first record, on the tape that counts or on the second pass on the other one.
pub fn start_pass(
    registers: &mut Registers,
    memory: &mut [u64],
    out: &mut [u8],
    second: bool,
) -> Told
    requires { (length memory.old ≡ 262144) × ((131072 ≤ length out.old) × (Loose registers.old)) }
    ensures { Says (start_pass second registers.old memory.old) registers.new memory.new result out.old out.new }
{
    registers.kept.pending = 0;
    registers.putting = Putting {
        second,
        more: registers.job.lines.some(),
        ..Putting::default()
    };
    put_next(registers, memory, out)
}

/// A record of a line is on.
pub fn after_line(registers: &mut Registers, memory: &mut [u64], out: &mut [u8]) -> Told
    requires { (length memory.old ≡ 262144) × ((131072 ≤ length out.old) × (Loose registers.old)) }
    ensures { Says (after_line registers.old memory.old) registers.new memory.new result out.old out.new }
{
    if !registers.putting.more {
        return commit::put_commit(registers, memory, out);
    }
    registers.putting = line_parts::put_further(registers, memory);
    put_next(registers, memory, out)
}

/// The commit is on: on the tape that counts it is fastened before the other one gets it.
pub fn after_commit(registers: &mut Registers, memory: &mut [u64], out: &mut [u8]) -> Told
    requires { (length memory.old ≡ 262144) × ((131072 ≤ length out.old) × (Loose registers.old)) }
    ensures { Says (after_commit registers.old memory.old) registers.new memory.new result out.old out.new }
{
    if registers.putting.second {
        return finish(registers, memory, out);
    }
    registers.phase = Phase::CommitFast;
    Told::Fasten(registers.tapes.active)
}

/// The tape that counts is fastened: the other one gets the same, if entries are being carried there.
pub fn after_fast(registers: &mut Registers, memory: &mut [u64], out: &mut [u8]) -> Told
    requires { (length memory.old ≡ 262144) × ((131072 ≤ length out.old) × (Loose registers.old)) }
    ensures { Says (after_fast registers.old memory.old) registers.new memory.new result out.old out.new }
{
    if registers.tapes.busy {
        start_pass(registers, memory, out, true)
    } else {
        finish(registers, memory, out)
    }
}
