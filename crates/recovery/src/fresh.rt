//! No tape counts: one begins.

ghost use Rattle.std.specs.Prelude.{ℕ, ◌≤◌, List, length};
ghost use Rattle.commits.specs.Acts.{Says};
ghost use Rattle.recovery.specs.Wake.{fresh_first as BegunFirst, fresh_next as begun_next};

use crate::heads::nothing_kept;
use compaction::one_tape;
use memory::{Phase, Registers};
use protocol::Told;
use records::encode_head;

/// Its head, of generation 1 and without entries.
pub fn fresh_first(registers: &mut Registers, out: &mut [u8]) -> Told
    requires { 131072 ≤ length out.old }
    ensures { (m : List ℕ) → Says (BegunFirst registers.old m) registers.new m result out.old out.new }
{
    encode_head(out, 1, 0);
    registers.phase = Phase::FreshHead;
    registers.tapes = one_tape(registers.tapes.room, 0, 1, 1);
    registers.kept = nothing_kept();
    Told::Append(0)
}

/// The head is made durable.
pub fn fresh_next(registers: &mut Registers) -> Told
    ensures { (m out : List ℕ) → Says (begun_next registers.old m) registers.new m result out out }
{
    registers.phase = Phase::FreshFast;
    Told::Fasten(0)
}
