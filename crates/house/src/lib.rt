//! The house as a machine: one step of it, over lent memory and a lent row of bytes.
#![tactic(auto)]

ghost use Rattle.std.specs.Prelude.{◌≡◌, ◌≤◌, length, take};
ghost use Rattle.commands.specs.Code.{refusal_number};
ghost use Rattle.plain.specs.Promise.{Whole};
ghost use Rattle.plain.specs.Run.{Steady};
ghost use Rattle.house.specs.Entry.{Answered, own};
ghost use Rattle.protocol.specs.Events.{event_of, kind_number};
ghost use Rattle.protocol.specs.Stepping.{StepSays, step_fits};
ghost use Rattle.house.specs.Machine.{nothing, woken, refused_by as refusal};

use commands::Refusal;
pub use memory::MEMORY;
use memory::{Phase, Registers};
use protocol::number_of;
pub use protocol::{Event, ROW, Told};

/// Why a command is refused: it can't be read, or it isn't known yet.
fn refusal(typed: &[u8]) -> Refusal
    ensures { refusal_number result ≡ refusal typed.now }
{
    match typed::read(typed) {
        None => Refusal::Unreadable,
        Some(_) => Refusal::Unknown,
    }
}

/// Power came, with so many records that a tape has room for.
fn wake(registers: &mut Registers, room: u64) -> Told
    ensures told { result ≡ Told.Done }
    ensures state { registers.new ≡ woken room registers.old }
{
    registers.phase = Phase::Idle;
    registers.tapes.room = room;
    Told::Done
}

/// What is done when something is told, and the registers then.
fn answer(registers: &mut Registers, event: Event, bytes: &[u8]) -> Told
    ensures { Answered registers.old (event_of (kind_number event) bytes.now) registers.new result }
{
    match event {
        Event::Power => wake(registers, number_of(bytes)),
        Event::Command => Told::No(refusal(bytes).number()),
        Event::Record | Event::Next => Told::No(Refusal::Unknown.number()),
    }
}

/// One step: what is told is 0 power, with the records that a tape has room for as eight bytes, the highest first; 1 a command, 2 a record
/// that was asked for or nothing, 3 that the last act is done. Where the memory has another length or the row is shorter, or for another kind, it says
/// `No(0)` and changes nothing. `core_house::step` has the same frame: a shared one would take what the house does as a closure or by a trait, and its
/// clause over registers, memory and row, which is longer than the frame; and `protocol` stands below `memory`, which has the registers.
pub fn step(memory: &mut [u64], kind: u64, bytes: &[u8], out: &mut [u8]) -> Told
    ensures { StepSays own memory.old kind bytes.now out.old (step_fits own memory.old kind bytes.now out.old) result memory.new out.new }
{
    let Ok(event) = Event::try_from(kind) else {
        return Told::No(0);
    };
    if memory.len() != MEMORY || out.len() < ROW {
        return Told::No(0);
    }
    let mut registers = Registers::load(memory);
    let told = answer(&mut registers, event, bytes);
    registers.store(memory);
    told
}

/// The machine's memory keeps its length, and each of its numbers 64 bits, whatever it holds and is told.
pub fn own_is_steady()
    ensures { Steady own }
{}

/// For any list of typed lines and any stops, on tapes of any size, the machine refuses what can't be read with 1 and everything else with 2,
/// shows nothing and keeps nothing.
pub fn own_is_right()
    ensures { Whole nothing own }
{}
