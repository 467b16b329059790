//! The house on two tapes in memory: each act that it wants is done, counted, and the step before it timed.

use crate::clock::{Clock, Kind};
use crate::fault::Fault;
use crate::tape::{RECORD, Tape};
use core_house::{Event, Told};
use records::Record;
use std::alloc::Global;
use std::collections::BTreeMap;
use std::num::Saturating;
use std::time::Instant;

/// Records that were read and put on for a command, and rows that were shown.
#[derive(Clone, Copy, Default)]
pub struct Cost {
    pub read: Saturating<u64>,
    pub put: Saturating<u64>,
    pub shown: Saturating<u64>,
}

impl Cost {
    /// Records in all.
    pub fn records(self) -> u64 {
        (self.read + self.put).0
    }
}

/// A command is refused, with this number. A type of its own: it ends a measurement, and the editors' is told to a person.
#[derive(Clone, Copy, Debug, PartialEq, Eq)]
pub struct Refusal(pub u64);

/// How a command ended.
pub type Outcome = Result<Cost, Refusal>;

/// What a step did, by what it says and the page that it hands out.
fn kind_of(told: Told, row: &[u8]) -> Kind {
    match told {
        Told::Read(_) => Kind::Ask,
        Told::Shows(_) => Kind::Show,
        Told::Append(_) => match records::decode(row) {
            Record::Line(_) => Kind::Line,
            Record::Copy { .. } => Kind::Carry,
            Record::Commit { .. } => Kind::Commit,
            _ => Kind::Other,
        },
        _ => Kind::Other,
    }
}

/// The house's memory, the row in which it hands out bytes, and a clock for each kind of step. Not the editors' machine: each step is timed.
#[derive(Drop)]
struct House<'a> {
    rt: &'a HostRuntime,
    memory: Vec<u64>,
    row: Vec<u8>,
    clocks: BTreeMap<Kind, Clock>,
}

impl House<'_> {
    /// One step, timed.
    fn step(&mut self, event: Event, bytes: &[u8]) -> Result<Told, Fault> {
        let memory = self.memory.as_mut_slice();
        let row = self.row.as_mut_slice();
        let start = Instant::now(self.rt)?;
        let told = core_house::step(memory, event as u64, bytes, row);
        let took = start.elapsed(self.rt)?;
        self.clocks
            .entry(kind_of(told, row))?
            .or_default()
            .note(took);
        Ok(told)
    }

    /// The step with a record that was asked for: twice its number, and its tape.
    fn take(&mut self, tapes: &[Tape; 2], which: u64) -> Result<Told, Fault> {
        let tape = &tapes[(which % 2) as usize];
        self.step(Event::Record, tape.read(which / 2))
    }

    /// The step behind an act that is done.
    fn proceed(&mut self) -> Result<Told, Fault> {
        self.step(Event::Next, &[])
    }
}

/// A house, its tapes, and what was counted.
#[derive(Drop)]
pub struct Machine<'a> {
    house: House<'a>,
    tapes: [Tape; 2],
    room: u64,
    active: usize,
    compacting: bool,
    cost: Cost,
}

impl<'a> Machine<'a> {
    /// A house with two empty tapes, without power.
    pub fn new(rt: &'a HostRuntime, room: u64) -> Result<Machine<'a>, Fault> {
        let heap = rt.alloc();
        Ok(Machine {
            house: House {
                rt,
                memory: Vec::new(heap),
                row: vec![in heap; 0; core_house::ROW]?,
                clocks: BTreeMap::new(heap),
            },
            tapes: [Tape::new(heap, room), Tape::new(heap, room)],
            room,
            active: 0,
            compacting: false,
            cost: Cost::default(),
        })
    }

    pub fn rt(&self) -> &'a HostRuntime {
        self.house.rt
    }

    pub fn heap(&self) -> Global {
        self.house.rt.alloc()
    }

    /// Whether entries are being carried to the other tape.
    pub fn compacting(&self) -> bool {
        self.compacting
    }

    /// How many records may still be put on the tape that counts before compaction begins.
    pub fn left(&self) -> u64 {
        let threshold = self.room.saturating_mul(7) / 8;
        threshold.saturating_sub(self.tapes.get(self.active).map_or(0, Tape::len))
    }

    /// How long the steps of a kind took since the clocks began.
    pub fn clock(&self, kind: Kind) -> Clock {
        self.house.clocks.get(&kind).copied().unwrap_or_default()
    }

    /// All clocks begin anew.
    pub fn start_clocks(&mut self) {
        self.house.clocks.clear();
    }

    /// Power comes, with nothing in memory.
    pub fn wake(&mut self) -> Result<Cost, Fault> {
        self.house.memory = vec![in self.heap(); 0; core_house::MEMORY]?;
        self.compacting = false;
        let room = self.room.to_be_bytes();
        let outcome = self.tell(Event::Power, &room)?;
        self.compacting = false;
        Ok(outcome?)
    }

    /// A command, and what came of it.
    pub fn command(&mut self, text: &str) -> Result<Outcome, Fault> {
        self.tell(Event::Command, text.as_bytes())
    }

    /// A command that is not to be refused.
    pub fn done(&mut self, text: &str) -> Result<Cost, Fault> {
        Ok(self.command(text)??)
    }

    /// Commands that are not to be refused, all of them so many times.
    pub fn repeat(&mut self, times: u64, commands: &[&str]) -> Result<(), Fault> {
        for _ in 0..times {
            for command in commands {
                self.done(command)?;
            }
        }
        Ok(())
    }

    /// One event, and all acts that follow from it.
    fn tell(&mut self, event: Event, bytes: &[u8]) -> Result<Outcome, Fault> {
        self.cost = Cost::default();
        let mut told = self.house.step(event, bytes)?;
        // Counted: nothing here says that a command comes to its end.
        for _ in 0..u64::MAX {
            told = match told {
                Told::Read(which) => self.read(which)?,
                Told::Append(tape) => self.append(tape)?,
                Told::Fasten(_) => self.house.proceed()?,
                Told::Begin(tape) => self.begin(tape)?,
                Told::Shows(_) => self.show()?,
                Told::Done => return Ok(Ok(self.cost)),
                Told::No(number) => return Ok(Err(Refusal(number))),
            };
        }
        Err(Fault::Endless)
    }

    fn read(&mut self, which: u64) -> Result<Told, Fault> {
        self.cost.read += 1;
        self.house.take(&self.tapes, which)
    }

    fn tape(&mut self, number: u64) -> Result<&mut Tape, Fault> {
        // Of a slice: that of the array itself gets no proof yet, as its elements own memory.
        let tapes = &mut self.tapes;
        tapes[..].get_mut(number as usize).ok_or(Fault::Tape)
    }

    fn append(&mut self, tape: u64) -> Result<Told, Fault> {
        self.cost.put += 1;
        let record = *self.house.row.first_chunk().ok_or(Fault::Tape)?;
        self.tape(tape)?.append(record)?;
        self.house.proceed()
    }

    /// The other tape begins with compaction, the one that counted at its end.
    fn begin(&mut self, tape: u64) -> Result<Told, Fault> {
        self.tape(tape)?.begin();
        if self.compacting {
            self.active = if tape == 0 { 1 } else { 0 };
        }
        self.compacting = !self.compacting;
        self.house.proceed()
    }

    fn show(&mut self) -> Result<Told, Fault> {
        self.cost.shown += 1;
        self.house.proceed()
    }
}
