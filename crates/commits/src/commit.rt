//! Putting on a commit.

ghost use Rattle.std.specs.Prelude.{◌≡◌, ◌+◌, ◌≤◌, ◌++◌, length, drop};
ghost use Rattle.journal.specs.Values.{splice_of, news_of};
ghost use Rattle.journal.specs.Log.{commit as a_commit};
ghost use Rattle.memory.specs.Abstract.{name_of};
ghost use Rattle.records.specs.Pages.{page_of};
ghost use Rattle.records.specs.Checked.{cut_splice};
ghost use Rattle.commits.specs.Acts.{Says};
ghost use Rattle.commits.specs.Bounds.{Loose};
ghost use Rattle.commits.specs.News.{kept_by, applied_by};
ghost use Rattle.commits.specs.Putting.{cursor_then, put_commit};

use crate::{Told, clamp, news_of, numbers, splice, targets};
use journal::Numbers;
use memory::{Job, Kept, Phase, Registers};

/// Before which entry none is left to carry, after the splice: what it brings is on the other tape.
fn cursor_then(registers: &Registers) -> u64
    requires { Loose registers.now }
    ensures { result ≡ cursor_then registers.now }
{
    let cursor = registers.tapes.cursor;
    let splice = registers.job.plan.splice;
    let came = registers.kept.pending;
    if cursor <= splice.from {
        cursor
    } else if cursor <= splice.from + splice.gone {
        splice.from + came
    } else {
        cursor - splice.gone + came
    }
}

/// The page of the commit over the front of `out`.
fn put_page(registers: &Registers, memory: &[u64], numbers: Numbers<u32>, out: &mut [u8])
    requires { (length memory.now ≡ 262144) × ((131072 ≤ length out.old) × (Loose registers.now)) }
    ensures { out.new ≡ page_of (a_commit (cut_splice (splice_of registers.now.job.plan.splice)) (news_of numbers (name_of registers.now.job.name memory.now))) ++ drop 512 out.old }
{
    let splice = splice(registers.job.plan.splice);
    let name = memory::kept_name(memory, registers.job.name);
    records::encode_commit(out, splice, numbers, name);
}

/// Applies the commit in memory, with a row for the name of a file, and says what is kept then. Of the registers it takes two parts,
/// as does `apply`: the bounds of those are asked for, and not `Loose`, which is of all.
fn apply_named(
    memory: &mut [u64],
    kept: Kept,
    job: Job,
    numbers: Numbers<u32>,
    name: &mut [u8],
) -> Kept
    requires { (length memory.old ≡ 262144) × ((length name.old ≡ 64) × ((kept.entries ≤ 524289) × (job.name ≤ 64))) }
    ensures kept { result ≡ kept_by kept (splice_of job.plan.splice) (news_of numbers (name_of job.name memory.old)) }
    ensures memory { memory.new ≡ applied_by kept (splice_of job.plan.splice) (news_of numbers (name_of job.name memory.old)) memory.old }
{
    let name = &mut name[..job.name as usize];
    memory::copy_low(memory::kept_name(memory, job.name), name);
    let splice = clamp(job.plan.splice, kept.entries);
    memory::apply(memory, kept, splice, numbers, name).unwrap_or(kept)
}

/// Applies the commit in memory, and says what is kept then.
fn apply(memory: &mut [u64], kept: Kept, job: Job, numbers: Numbers<u32>) -> Kept
    requires { (length memory.old ≡ 262144) × ((kept.entries ≤ 524289) × (job.name ≤ 64)) }
    ensures kept { result ≡ kept_by kept (splice_of job.plan.splice) (news_of numbers (name_of job.name memory.old)) }
    ensures memory { memory.new ≡ applied_by kept (splice_of job.plan.splice) (news_of numbers (name_of job.name memory.old)) memory.old }
{
    apply_named(memory, kept, job, numbers, &mut [0u8; memory::NAMES])
}

/// Puts on the commit of a command. Once it is on the last of the tapes that get it, it is applied in memory too.
pub fn put_commit(registers: &mut Registers, memory: &mut [u64], out: &mut [u8]) -> Told
    requires { (length memory.old ≡ 262144) × ((131072 ≤ length out.old) × (Loose registers.old)) }
    ensures { Says (put_commit registers.old memory.old) registers.new memory.new result out.old out.new }
{
    let numbers = numbers(news_of(registers, memory));
    let tape = targets::target(registers);
    let cursor = cursor_then(registers);
    put_page(registers, memory, numbers, out);
    let last = targets::last_target(registers);
    registers.tapes = targets::lengthen(registers);
    registers.phase = Phase::CommitPut;
    if !last {
        return Told::Append(tape);
    }
    registers.kept = apply(memory, registers.kept, registers.job, numbers);
    registers.tapes.cursor = cursor;
    Told::Append(tape)
}
