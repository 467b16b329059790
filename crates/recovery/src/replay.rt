//! What each record of the tape that counts says.

ghost use Rattle.std.specs.Prelude.{◌≡◌, ℕ, suc, ◌+◌, ◌*◌, ◌<◌, ◌≤◌, List, length};
ghost use Rattle.journal.specs.Log.{Piece as LogPiece, head as a_head, line as a_line, copy as a_copy, commit as a_commit};
ghost use Rattle.journal.specs.Values.{splice_of, news_of};
ghost use Rattle.memory.specs.Registers.{Tame};
ghost use Rattle.commits.specs.Acts.{Says};
ghost use Rattle.commits.specs.Setters.{with_used, with_tapes, with_kept};
ghost use Rattle.recovery.specs.Wake.{here as HereOf, kept_with, memory_with, replay_record as record_replayed};

use commits::clamp;
use compaction::{NO_LIMIT, begin_other};
use journal::{Numbers, Splice};
use memory::{Position, Registers};
use protocol::Told;
use records::{Record, decode_checked};

/// How many entries the directory has at most.
const ENTRIES: u32 = memory::ENTRIES as u32;

/// Where the record is that was read.
fn here(registers: &Registers) -> Position
    ensures { result ≡ HereOf registers.now }
{
    Position {
        tape: registers.tapes.active,
        at: registers.tapes.used,
    }
}

/// A head: so many entries, all of them holes.
fn replay_head(registers: &mut Registers, memory: &mut [u64], entries: u32)
    requires { length memory.old ≡ 262144 }
    ensures registers { (g : ℕ) → registers.new ≡ with_kept (kept_with (a_head g entries) registers.old.kept) registers.old }
    ensures memory { (g : ℕ) → memory.new ≡ memory_with (a_head g entries) registers.old memory.old }
{
    memory::clear(memory);
    registers.kept.entries = entries.min(ENTRIES) as u64;
    registers.kept.pending = 0;
}

/// A line's first record makes it pending.
fn replay_line(registers: &mut Registers, memory: &mut [u64], part: u8)
    requires { (length memory.old ≡ 262144) × (registers.old.kept.pending ≤ 65536) }
    ensures registers { (b : LogPiece) → registers.new ≡ with_kept (kept_with (a_line part b) registers.old.kept) registers.old }
    ensures memory { (b : LogPiece) → memory.new ≡ memory_with (a_line part b) registers.old memory.old }
{
    if part > 0 {
        return;
    }
    let pending = registers.kept.pending;
    registers.kept.pending = memory::push_pending(memory, pending, here(registers)).unwrap_or(
        pending,
    );
}

/// A copy's first record is where the entry lies.
fn replay_copy(registers: &Registers, memory: &mut [u64], index: u32, part: u8)
    requires { length memory.old ≡ 262144 }
    ensures { (b : LogPiece) → memory.new ≡ memory_with (a_copy index part b) registers.now memory.old }
{
    if part == 0 {
        memory::set_entry(memory, index as u64, here(registers));
    }
}

/// A commit; where it can't be done, all stays. Its bound is asked for as one of a number: `Loose` has it of whole registers.
fn replay_commit(
    registers: &mut Registers,
    memory: &mut [u64],
    splice: Splice<u32>,
    numbers: Numbers<u32>,
    name: &[u8],
)
    requires { (length memory.old ≡ 262144) × (registers.old.kept.entries ≤ 524289) }
    ensures registers { registers.new ≡ with_kept (kept_with (a_commit (splice_of splice) (news_of numbers name.now)) registers.old.kept) registers.old }
    ensures memory { memory.new ≡ memory_with (a_commit (splice_of splice) (news_of numbers name.now)) registers.old memory.old }
{
    let kept = registers.kept;
    let splice = clamp(Splice::from(splice), kept.entries);
    registers.kept = memory::apply(memory, kept, splice, numbers, name).unwrap_or(kept);
}

/// The record behind it is asked for.
fn next_record(registers: &mut Registers) -> Told
    requires { (registers.old.tapes.used < 4294967296) × (registers.old.tapes.active < 2) }
    ensures told { result ≡ Told.Read (2 * suc registers.old.tapes.used + registers.old.tapes.active) }
    ensures state { registers.new ≡ with_tapes (with_used (suc registers.old.tapes.used) registers.old.tapes) registers.old }
{
    registers.tapes.used += 1;
    Told::read(registers.tapes.active, registers.tapes.used)
}

/// A record of the tape that counts was read. Behind the last one, or at one that is broken, all that counts is carried to the other tape.
pub fn replay_record(registers: &mut Registers, memory: &mut [u64], read: &[u8]) -> Told
    requires { (length memory.old ≡ 262144) × (Tame registers.old) }
    ensures { (out : List ℕ) → Says (record_replayed read.now registers.old memory.old) registers.new memory.new result out out }
{
    // The next record is asked for in each arm: what the tape holds and registers keep is another in each, and is shown there.
    match decode_checked(read) {
        Record::Head { entries, .. } => {
            replay_head(registers, memory, entries);
            next_record(registers)
        }
        Record::Line(piece) => {
            replay_line(registers, memory, piece.part);
            next_record(registers)
        }
        Record::Copy { index, piece } => {
            replay_copy(registers, memory, index, piece.part);
            next_record(registers)
        }
        Record::Commit {
            splice,
            numbers,
            name,
        } => {
            replay_commit(registers, memory, splice, numbers, name);
            next_record(registers)
        }
        Record::Broken => {
            registers.kept.pending = 0;
            begin_other(registers, NO_LIMIT, true)
        }
    }
}
