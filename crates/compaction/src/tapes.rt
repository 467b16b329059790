//! The other tape begins, and counts in the end.

ghost use Rattle.std.specs.Prelude.{◌≡◌, ℕ, ◌+◌, ◌<◌, ◌≤◌, List, false, length, slice_index_or};
ghost use Rattle.journal.specs.Log.{no_splice, set_up, next_generation};
ghost use Rattle.journal.specs.Small.{news, set_up_of};
ghost use Rattle.records.specs.Pages.{page_of};
ghost use Rattle.records.specs.Values.{low_bytes};
ghost use Rattle.journal.specs.Values.{splice_of, also_of, news_of};
ghost use Rattle.engine.specs.Machine.{no_news};
ghost use Rattle.memory.specs.Abstract.{small_of};
ghost use Rattle.memory.specs.Registers.{TameKept, Tame};
ghost use Rattle.commits.specs.Acts.{Says};
ghost use Rattle.commits.specs.Setters.{tapes};
ghost use Rattle.compaction.specs.Carry.{begin_other as other_begun, put_other as other_put, put_head as head_put, set_up_next as next_set_up, begin_old as old_begun, after_switch as switched_after};
ghost use Rattle.compaction.specs.Laid.{laid};

use crate::entries::{carry, go_on};
use commits::{LIMIT, passive};
use journal::{Also, Numbers, Splice, generation_after};
use memory::{Carrying, Kept, Phase, Registers, Tapes, file_at, file_name, weight_at};
use protocol::Told;
use records::{encode_commit, encode_head};

/// More entries than there can be.
pub const NO_LIMIT: u64 = 1_048_576;

/// The other tape begins anew; then up to `quota` entries are carried.
pub fn begin_other(registers: &mut Registers, quota: u64, waking: bool) -> Told
    requires { registers.old.tapes.active < 2 }
    ensures { (m out : List ℕ) → Says (other_begun quota waking registers.old m) registers.new m result out out }
{
    registers.phase = Phase::CompactBegun;
    registers.tapes.busy = true;
    registers.tapes.other = 0;
    registers.tapes.cursor = 0;
    registers.carrying = Carrying {
        quota,
        waking,
        ..Carrying::default()
    };
    Told::Begin(passive(registers))
}

/// The record at the front of the row goes on the other tape.
fn put_other(registers: &mut Registers) -> Told
    requires { (registers.old.tapes.active < 2) × (registers.old.tapes.other < 4294967296) }
    ensures { (m page out : List ℕ) → Says (other_put page registers.old m) registers.new m result out (laid page out) }
{
    registers.phase = Phase::SettingUp;
    registers.tapes.other += 1;
    Told::Append(passive(registers))
}

/// The head of the other tape.
pub fn put_head(registers: &mut Registers, out: &mut [u8]) -> Told
    requires { (131072 ≤ length out.old) × (Tame registers.old) }
    ensures { (m : List ℕ) → Says (head_put registers.old m) registers.new m result out.old out.new }
{
    let generation = generation_after(registers.tapes.generation) % LIMIT;
    encode_head(out, generation as u32, registers.kept.entries as u32);
    put_other(registers)
}

/// No entry goes, and none comes.
fn no_splice() -> Splice<u32>
    ensures { splice_of result ≡ no_splice }
{
    Splice::default()
}

/// A commit that sets the small state alone, with the name of a file. It needs a page of the lent row and not the whole row, so 512 is asked for here and below.
fn encode_numbers(out: &mut [u8], numbers: Numbers<u32>, name: &[u64])
    requires { (512 ≤ length out.old) × (length name.now ≤ 64) }
    ensures { out.new ≡ laid (page_of (set_up (news_of numbers (low_bytes name.now)))) out.old }
{
    encode_commit(out, no_splice(), numbers, name);
}

/// One that sets nothing but a weight of the ring, or a file.
fn encode_also(out: &mut [u8], also: Also<u32>, name: &[u64])
    requires { (512 ≤ length out.old) × (length name.now ≤ 64) }
    ensures { out.new ≡ laid (page_of (set_up (news 0 0 0 (also_of also (low_bytes name.now))))) out.old }
{
    let numbers = Numbers {
        also,
        ..Numbers::default()
    };
    encode_numbers(out, numbers, name);
}

/// Record `index` of those that set the small state up: the ring, the files, and the numbers of the text.
fn set_up_record(kept: Kept, memory: &[u64], out: &mut [u8], index: u64)
    requires { (length memory.now ≡ 262144) × ((512 ≤ length out.old) × ((TameKept kept) × (index ≤ kept.ring + kept.files))) }
    ensures { out.new ≡ laid (page_of (set_up (slice_index_or (set_up_of (small_of kept memory.now)) index no_news))) out.old }
{
    if index < kept.ring {
        let weight = weight_at(memory, index) as u32;
        encode_also(out, Also::Push(weight), &[]);
        return;
    }
    let place = index - kept.ring;
    if place < kept.files {
        let file = file_at(memory, place);
        let also = Also::Store {
            slot: place as u32,
            lines: file.lines as u32,
            weight: file.size as u32,
        };
        encode_also(out, also, file_name(memory, place));
        return;
    }
    let numbers = Numbers {
        count: kept.count as u32,
        current: kept.current as u32,
        weight: kept.weight as u32,
        also: Also::Nothing,
    };
    encode_numbers(out, numbers, &[]);
}

/// The next record of the small state; behind the last, what is carried.
pub fn set_up_next(registers: &mut Registers, memory: &mut [u64], out: &mut [u8]) -> Told
    requires { (length memory.old ≡ 262144) × ((131072 ≤ length out.old) × (Tame registers.old)) }
    ensures { Says (next_set_up registers.old memory.old) registers.new memory.new result out.old out.new }
{
    let index = registers.carrying.index;
    if index > registers.kept.ring + registers.kept.files {
        return carry(registers, memory, out);
    }
    set_up_record(registers.kept, memory, out, index);
    registers.carrying.index = index + 1;
    put_other(registers)
}

/// Nothing is left on the old tape: it begins anew.
pub fn begin_old(registers: &mut Registers) -> Told
    ensures { (m out : List ℕ) → Says (old_begun registers.old m) registers.new m result out out }
{
    registers.phase = Phase::Switched;
    Told::Begin(registers.tapes.active)
}

/// A tape that counts, with so many records, while nothing is carried to the other one.
pub fn one_tape(room: u64, active: u64, generation: u64, used: u64) -> Tapes
    ensures { result ≡ tapes room active generation used false 0 0 }
{
    Tapes {
        room,
        active,
        generation,
        used,
        ..Tapes::default()
    }
}

/// The other tape counts.
pub fn after_switch(registers: &mut Registers, memory: &mut [u64], out: &mut [u8]) -> Told
    requires { (length memory.old ≡ 262144) × ((131072 ≤ length out.old) × (Tame registers.old)) }
    ensures { Says (switched_after registers.old memory.old) registers.new memory.new result out.old out.new }
{
    registers.tapes = one_tape(
        registers.tapes.room,
        passive(registers),
        generation_after(registers.tapes.generation),
        registers.tapes.other,
    );
    go_on(registers, memory, out)
}
