//! The house as a machine: one step of it, over lent memory and a lent row of bytes.
#![tactic(auto)]

ghost use Rattle.std.specs.Prelude.{◌≡◌, ◌≤◌, length, take};
ghost use Rattle.plain.specs.House.{core};
ghost use Rattle.plain.specs.Promise.{Whole};
ghost use Rattle.plain.specs.Run.{Steady};
ghost use Rattle.memory.specs.Registers.{Tame};
ghost use Rattle.commits.specs.Acts.{Says};
ghost use Rattle.core_house.specs.Machine.{on_record as recorded, on_next as proceeded, answers};
ghost use Rattle.core_house.specs.Entry.{own};
ghost use Rattle.protocol.specs.Events.{event_of, kind_number};
ghost use Rattle.protocol.specs.Stepping.{StepSays, step_fits};

pub use memory::MEMORY;
use memory::{Phase, Registers};
use protocol::number_of;
pub use protocol::{Event, ROW, Told};

/// The record came that was asked for, or nothing. Which step comes is a match, here and in `on_next`: the phase is a number in the fixed memory, where no
/// closure could be kept.
fn on_record(registers: &mut Registers, memory: &mut [u64], out: &mut [u8], read: &[u8]) -> Told
    requires { (length memory.old ≡ 262144) × ((131072 ≤ length out.old) × (Tame registers.old)) }
    ensures { Says (recorded registers.old.phase read.now registers.old memory.old) registers.new memory.new result out.old out.new }
{
    match registers.phase {
        Phase::WakeFirst => recovery::woke_first(registers, read),
        Phase::WakeSecond => recovery::woke_second(registers, read),
        Phase::Replaying => recovery::replay_record(registers, memory, read),
        Phase::CarryRead => compaction::carry_piece(registers, read, out),
        Phase::Fetching => execution::fetched(registers, memory, out, read),
        _ => commits::refuse(registers, commits::LOST),
    }
}

/// The last act is done.
fn on_next(registers: &mut Registers, memory: &mut [u64], out: &mut [u8]) -> Told
    requires { (length memory.old ≡ 262144) × ((131072 ≤ length out.old) × (Tame registers.old)) }
    ensures { Says (proceeded registers.old.phase registers.old memory.old) registers.new memory.new result out.old out.new }
{
    match registers.phase {
        Phase::FreshBegun => recovery::fresh_first(registers, out),
        Phase::FreshHead => recovery::fresh_next(registers),
        Phase::FreshFast => commits::end_done(registers),
        Phase::CompactBegun => compaction::put_head(registers, out),
        Phase::SettingUp => compaction::set_up_next(registers, memory, out),
        Phase::CarryPut => compaction::after_carry(registers, memory, out),
        Phase::CompactFast => compaction::begin_old(registers),
        Phase::Switched => compaction::after_switch(registers, memory, out),
        Phase::RowShown => execution::walk_on(registers, memory, out),
        Phase::LinePut => commits::after_line(registers, memory, out),
        Phase::CommitPut => commits::after_commit(registers, memory, out),
        Phase::CommitFast => commits::after_fast(registers, memory, out),
        Phase::CountShown => commits::end_done(registers),
        Phase::FileShown => {
            let next = registers.carrying.index + 1;
            commits::show_files(registers, memory, out, next)
        }
        _ => commits::refuse(registers, commits::LOST),
    }
}

/// What is done when something is told, and the registers then.
fn answer(
    registers: &mut Registers,
    memory: &mut [u64],
    out: &mut [u8],
    event: Event,
    bytes: &[u8],
) -> Told
    requires { (length memory.old ≡ 262144) × ((131072 ≤ length out.old) × (Tame registers.old)) }
    ensures { Says (answers registers.old memory.old (event_of (kind_number event) bytes.now)) registers.new memory.new result out.old out.new }
{
    match event {
        Event::Power => recovery::wake(registers, number_of(bytes)),
        Event::Command => execution::obey(registers, memory, out, bytes),
        Event::Record => on_record(registers, memory, out, bytes),
        Event::Next => on_next(registers, memory, out),
    }
}

/// One step: what is told is 0 power, with the records that a tape has room for as eight bytes, the highest first; 1 a command, 2 a record
/// that was asked for or nothing, 3 that the last act is done. Where the memory has another length or the row is shorter, or for another kind, it says
/// `No(0)` and changes nothing. (`house::step` has the same frame, and says why.)
pub fn step(memory: &mut [u64], kind: u64, bytes: &[u8], out: &mut [u8]) -> Told
    ensures { StepSays own memory.old kind bytes.now out.old (step_fits own memory.old kind bytes.now out.old) result memory.new out.new }
{
    let Ok(event) = Event::try_from(kind) else {
        return Told::No(0);
    };
    if memory.len() != MEMORY || out.len() < ROW {
        return Told::No(0);
    }
    let mut registers = Registers::load(memory);
    let told = answer(&mut registers, memory, out, event, bytes);
    registers.store(memory);
    told
}

/// The machine's memory keeps its length, and each of its numbers 64 bits, whatever it holds and is told.
pub fn own_is_steady()
    ensures { Steady own }
{}

/// For any list of typed lines and any stops, on tapes of any size: what is shown, how each command ends and what is kept is what the plain house
/// of lists does, for all that the core knows.
pub fn own_is_right()
    ensures { Whole core own }
{}
