//! Entries of the directory, carried one after the other.

ghost use Rattle.std.specs.Prelude.{◌≡◌, ℕ, ◌≤◌, List, length};
ghost use Rattle.memory.specs.Registers.{Tame};
ghost use Rattle.commits.specs.Acts.{Says};
ghost use Rattle.commits.specs.Bounds.{Loose};
ghost use Rattle.compaction.specs.Carry.{go_on as GoingOn, carry_entry as entry_carried, carry as carried_on, carry_piece as piece_carried, after_carry as carried_after};

use commits::{end_done, passive, start_pass};
use memory::{Carrying, Phase, Position, Registers, records_of};
use protocol::Told;
use records::copy_line;

/// Enough is carried: nothing more is done when power came, else what the command brings is put on.
pub fn go_on(registers: &mut Registers, memory: &mut [u64], out: &mut [u8]) -> Told
    requires { (length memory.old ≡ 262144) × ((131072 ≤ length out.old) × (Loose registers.old)) }
    ensures { Says (GoingOn registers.old memory.old) registers.new memory.new result out.old out.new }
{
    if registers.carrying.waking {
        end_done(registers)
    } else {
        start_pass(registers, memory, out, false)
    }
}

/// Entry `i` is read; where none is left, the other tape is made durable.
fn carry_entry(registers: &mut Registers, memory: &[u64], i: u64) -> Told
    requires { (length memory.now ≡ 262144) × (Loose registers.old) }
    ensures { (out : List ℕ) → Says (entry_carried i registers.old memory.now) registers.new memory.now result out out }
{
    if i >= registers.kept.entries {
        registers.phase = Phase::CompactFast;
        return Told::Fasten(passive(registers));
    }
    let position = memory::entry(memory, registers.kept.entries, i);
    registers.phase = Phase::CarryRead;
    registers.carrying = Carrying {
        index: i,
        part: 0,
        long: 0,
        start: registers.tapes.other,
        ..registers.carrying
    };
    Told::read(position.tape, position.at)
}

/// The next entry that lies on the tape that counts is carried, while there may be more.
pub fn carry(registers: &mut Registers, memory: &mut [u64], out: &mut [u8]) -> Told
    requires { (length memory.old ≡ 262144) × ((131072 ≤ length out.old) × (Loose registers.old)) }
    ensures { Says (carried_on registers.old memory.old) registers.new memory.new result out.old out.new }
{
    if registers.carrying.quota == 0 {
        return go_on(registers, memory, out);
    }
    let i = memory::next_on(
        memory,
        registers.kept.entries,
        registers.tapes.cursor,
        registers.tapes.active,
    );
    carry_entry(registers, memory, i)
}

/// A record of the entry was read: its copy is put on the other tape.
pub fn carry_piece(registers: &mut Registers, read: &[u8], out: &mut [u8]) -> Told
    requires { (131072 ≤ length out.old) × (Tame registers.old) }
    ensures { (m : List ℕ) → Says (piece_carried read.now registers.old m) registers.new m result out.old out.new }
{
    let index = registers.carrying.index as u32;
    let part = (registers.carrying.part % 256) as u8;
    let long = copy_line(read, out, index, part);
    registers.phase = Phase::CarryPut;
    registers.carrying.long = long as u64;
    registers.tapes.other += 1;
    Told::Append(passive(registers))
}

/// It is on: the entry's next record is read, or the entry lies there now and the next one is carried.
pub fn after_carry(registers: &mut Registers, memory: &mut [u64], out: &mut [u8]) -> Told
    requires { (length memory.old ≡ 262144) × ((131072 ≤ length out.old) × (Tame registers.old)) }
    ensures { Says (carried_after registers.old memory.old) registers.new memory.new result out.old out.new }
{
    let index = registers.carrying.index;
    let part = registers.carrying.part + 1;
    if part < records_of(registers.carrying.long) {
        let position = memory::entry(memory, registers.kept.entries, index);
        registers.phase = Phase::CarryRead;
        registers.carrying.part = part;
        return Told::read(position.tape, position.at + part);
    }
    let position = Position {
        tape: passive(registers),
        at: registers.carrying.start,
    };
    memory::set_entry(memory, index, position);
    registers.tapes.cursor = index + 1;
    registers.carrying.part = 0;
    registers.carrying.long = 0;
    registers.carrying.quota = registers.carrying.quota.saturating_sub(1);
    carry(registers, memory, out)
}
