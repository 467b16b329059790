//! What is looked at before anything is put on: whether there is room for it, and whether the other tape is begun.

ghost use Rattle.std.specs.Prelude.{◌≡◌, ℕ, ◌+◌, ◌-◌, ◌*◌, ◌<◌, ◌≤◌, false, List, length, take, drop, nat_lt};
ghost use Rattle.plain.specs.Pattern.{added_up};
ghost use Rattle.journal.specs.Small.{ring_by, files_by, updated};
ghost use Rattle.commands.specs.Kept.{sum as summed};
ghost use Rattle.commands.specs.Smalls.{entry_size, smalls_weight};
ghost use Rattle.engine.specs.Machine.{threshold, no_room as roomless};
ghost use Rattle.memory.specs.Abstract.{ring_of, files_of, small_of, house_of};
ghost use Rattle.memory.specs.Registers.{TameKept};
ghost use Rattle.commits.specs.Acts.{Says};
ghost use Rattle.commits.specs.Bounds.{Loose};
ghost use Rattle.journal.specs.Values.{also_of, news_of};
ghost use Rattle.commits.specs.Setters.{carrying as carries};
ghost use Rattle.execution.specs.Room.{AlsoLight, NewsLight};
ghost use Rattle.execution.specs.Walk.{need as needed, job_size as sized, quota_of as quotas, prepare as prepares, weigh as weighs};

use commands::{FILE_WEIGHT, Refusal};
use commits::{news_of, refuse, start_pass};
use compaction::{NO_LIMIT, begin_other, carry};
use journal::{Also, Numbers, Source};
use memory::{Carrying, Kept, Registers};
use protocol::Told;

/// How many entries are carried for each line of a command.
const CARRIED: u64 = 16;

/// How many records a command takes: its lines, and a commit.
fn need(registers: &Registers, memory: &[u64]) -> u64
    requires { (length memory.now ≡ 262144) × (registers.now.job.text ≤ 65536) }
    ensures records { result ≡ needed registers.now memory.now }
    ensures few { result ≤ 196612 }
{
    1 + memory::lines_records(memory, registers.job.lines, registers.job.text)
}

/// One more than the lines that are walked over and those that come.
fn job_size(registers: &Registers) -> u64
    requires { Loose registers.now }
    ensures size { result ≡ sized registers.now }
    ensures few { result ≤ 2199023255552 }
{
    let plan = registers.job.plan;
    1 + (plan.span.upto.saturating_sub(plan.span.after) + plan.came)
}

/// How many entries may be carried for a command; all of them before copies of entries come.
fn quota(registers: &Registers) -> u64
    requires { Loose registers.now }
    ensures { result ≡ quotas registers.now }
{
    match registers.job.plan.splice.source {
        Source::Nothing | Source::New => CARRIED * job_size(registers),
        Source::Copied { .. } => NO_LIMIT,
    }
}

/// What all stands weigh after a commit.
fn ring_after(memory: &[u64], ring: u64, also: Also<u64>) -> u64
    requires { (length memory.now ≡ 262144) × ((ring ≤ 64) × (AlsoLight also)) }
    ensures total { (name : List ℕ) → result ≡ summed (ring_by (also_of also name) (ring_of ring memory.now)) }
    ensures few { result ≤ 1126174784749568 }
{
    let weight = memory::ring_weight(memory, ring);
    match also {
        Also::Nothing | Also::Store { .. } => weight,
        Also::Push(pushed) => weight - memory::oldest(memory, ring) + pushed,
    }
}

/// What the file weighs in a place of the table, if one is there.
fn weight_at(memory: &[u64], files: u64, slot: u64) -> u64
    requires { (length memory.now ≡ 262144) × (files ≤ 64) }
    ensures { result ≡ added_up entry_size (take 1 (drop slot (files_of files memory.now))) }
{
    if slot >= files {
        return 0;
    }
    let file = memory::file_at(memory, slot);
    FILE_WEIGHT + file.name + file.size
}

/// What all files weigh after a commit, by the length of the name that the command has.
fn files_after(memory: &[u64], files: u64, also: Also<u64>, name: u64) -> u64
    requires { (length memory.now ≡ 262144) × ((files ≤ 64) × ((AlsoLight also) × (name ≤ 64))) }
    ensures total { (bs : List ℕ) → length bs ≡ name → result ≡ added_up entry_size (files_by (also_of also bs) (files_of files memory.now)) }
    ensures few { result ≤ 1126174784764928 }
{
    let weight = memory::file_weight(memory, files);
    match also {
        Also::Nothing | Also::Push(_) => weight,
        Also::Store {
            slot,
            weight: size,
            ..
        } => weight - weight_at(memory, files, slot) + (FILE_WEIGHT + name + size),
    }
}

/// What all that is kept weighs after a commit.
fn weight_after(memory: &[u64], kept: Kept, news: Numbers<u64>, name: u64) -> u64
    requires { (length memory.now ≡ 262144) × ((TameKept kept) × ((NewsLight news) × (name ≤ 64))) }
    ensures { (bs : List ℕ) → length bs ≡ name → result ≡ smalls_weight (updated (news_of news bs) (small_of kept memory.now)) }
{
    news.weight
        + ring_after(memory, kept.ring, news.also)
        + files_after(memory, kept.files, news.also, name)
}

/// Whether there is no room for what a command brings.
fn no_room(registers: &Registers, memory: &[u64]) -> bool
    requires { (length memory.now ≡ 262144) × (Loose registers.now) }
    ensures { result ≡ roomless (house_of registers.now memory.now) }
{
    let before = memory::total_weight(memory, registers.kept);
    let news = news_of(registers, memory);
    let after = weight_after(memory, registers.kept, news, registers.job.name);
    commands::no_room(registers.tapes.room, before, after)
}

/// Whether the tape that counts is nearly full.
fn nearly_full(registers: &Registers, memory: &[u64]) -> bool
    requires { (length memory.now ≡ 262144) × (Loose registers.now) }
    ensures { result ≡ nat_lt (threshold registers.now.tapes.room) (registers.now.tapes.used + needed registers.now memory.now) }
{
    7 * registers.tapes.room / 8 < registers.tapes.used + need(registers, memory)
}

/// So many entries may be carried.
fn carrying(quota: u64) -> Carrying
    ensures { result ≡ carries 0 0 0 0 quota false }
{
    Carrying {
        quota,
        ..Carrying::default()
    }
}

/// Before a command's lines are put on: entries are carried if the other tape is begun, and it is begun if the one that counts is nearly full.
fn prepare(registers: &mut Registers, memory: &mut [u64], out: &mut [u8]) -> Told
    requires { (length memory.old ≡ 262144) × ((131072 ≤ length out.old) × (Loose registers.old)) }
    ensures { Says (prepares registers.old memory.old) registers.new memory.new result out.old out.new }
{
    let quota = quota(registers);
    if registers.tapes.busy {
        registers.carrying = carrying(quota);
        return carry(registers, memory, out);
    }
    if nearly_full(registers, memory) {
        return begin_other(registers, quota, false);
    }
    start_pass(registers, memory, out, false)
}

/// A command is refused if there is no room for what it brings.
pub(crate) fn weigh(registers: &mut Registers, memory: &mut [u64], out: &mut [u8]) -> Told
    requires { (length memory.old ≡ 262144) × ((131072 ≤ length out.old) × (Loose registers.old)) }
    ensures { Says (weighs registers.old memory.old) registers.new memory.new result out.old out.new }
{
    if no_room(registers, memory) {
        return refuse(registers, Refusal::NoRoom.number());
    }
    prepare(registers, memory, out)
}
