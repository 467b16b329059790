//! Which tape counts, by what both begin with.

ghost use Rattle.std.specs.Prelude.{◌≡◌, ℕ, false, List};
ghost use Rattle.journal.specs.Log.{head_of};
ghost use Rattle.records.specs.Checked.{checked_record_of};
ghost use Rattle.memory.specs.declared.phase.Phase.TheVariants.{Replaying};
ghost use Rattle.memory.specs.Registers.{Tame};
ghost use Rattle.commits.specs.Acts.{Says};
ghost use Rattle.commits.specs.Setters.{tapes, in_phase, with_tapes};
ghost use Rattle.recovery.specs.Wake.{nothing_kept, starting, wake as woken, woke_first as woken_first, woke_second as woken_second};

use compaction::one_tape;
use journal::{Tape, counting};
use memory::{Kept, Phase, Registers};
use protocol::Told;
use records::{Record, decode_checked};

/// What is kept when nothing was said yet.
pub fn nothing_kept() -> Kept
    ensures { result ≡ nothing_kept }
{
    Kept::default()
}

/// The registers when power came.
fn woken_up(room: u64) -> Registers
    ensures { result ≡ starting room }
{
    Registers {
        phase: Phase::WakeFirst,
        tapes: one_tape(room, 0, 0, 0),
        ..Registers::default()
    }
}

/// Power came: the head of the first tape is asked for.
pub fn wake(registers: &mut Registers, room: u64) -> Told
    ensures { (m out : List ℕ) → Says (woken room m) registers.new m result out out }
{
    *registers = woken_up(room);
    Told::read(0, 0)
}

/// The generation that a head names; 0 where there is none, as `journal::counting` takes it and the register of generations keeps it.
fn head_generation(read: &[u8]) -> u32
    ensures { result ≡ head_of (checked_record_of read.now) }
{
    match decode_checked(read) {
        Record::Head { generation, .. } => generation,
        Record::Line(_) | Record::Copy { .. } | Record::Commit { .. } | Record::Broken => 0,
    }
}

/// The head of the first tape was read, or nothing: that of the second is asked for.
pub fn woke_first(registers: &mut Registers, read: &[u8]) -> Told
    ensures { (m out : List ℕ) → Says (woken_first read.now registers.old m) registers.new m result out out }
{
    registers.phase = Phase::WakeSecond;
    registers.tapes.generation = head_generation(read) as u64;
    Told::read(1, 0)
}

/// A tape counts: its records are asked for, from the first one on.
fn count(registers: &mut Registers, tape: u64, generation: u64) -> Told
    ensures told { result ≡ Told.Read tape }
    ensures state { registers.new ≡ in_phase Replaying (with_tapes (tapes registers.old.tapes.room tape generation 0 false 0 0) registers.old) }
{
    registers.phase = Phase::Replaying;
    registers.tapes = one_tape(registers.tapes.room, tape, generation, 0);
    Told::read(tape, 0)
}

/// Both heads were read: the tape that counts is replayed, or the first one begins.
pub fn woke_second(registers: &mut Registers, read: &[u8]) -> Told
    requires { Tame registers.old }
    ensures { (m out : List ℕ) → Says (woken_second read.now registers.old m) registers.new m result out out }
{
    let first = registers.tapes.generation;
    let second = head_generation(read);
    let Some(tape) = counting(first as u32, second) else {
        registers.phase = Phase::FreshBegun;
        return Told::Begin(0);
    };
    // `Tape` has no numbers in journal: here each number stands beside the generation that it counts with.
    match tape {
        Tape::First => count(registers, 0, first),
        Tape::Second => count(registers, 1, second as u64),
    }
}
