//! The house as it runs beside its tapes, one act at a time.

use crate::fault::Fault;
use crate::tape::{Device, RECORD};
use core_house::{Event, Told};
use model::Refusal;
use std::alloc::{AllocError, Global};
use std::num::Saturating;

/// More acts than any command has. It is what ends a loop over acts: nothing says here that a command comes to its end.
pub const MANY: u64 = 100_000_000;

/// What is told to the house next, with what comes with it.
#[derive(Clone, Copy)]
pub enum Cue<'a> {
    Power,
    Command(&'a [u8]),
    /// The record that was asked for.
    Record(u64),
    Next,
}

/// How a command goes: what was shown, how many acts and records there were, and once it has ended, whether it is done or why not.
#[derive(Drop)]
pub struct Ran<'a> {
    pub rows: Vec<Vec<u8>>,
    pub acts: Saturating<u64>,
    pub records: Saturating<u64>,
    pub end: Option<Result<(), Refusal>>,
    cue: Cue<'a>,
}

impl<'a> Ran<'a> {
    pub fn new(heap: Global, cue: Cue<'a>) -> Ran<'a> {
        Ran {
            rows: Vec::new(heap),
            acts: Saturating(0),
            records: Saturating(0),
            end: None,
            cue,
        }
    }
}

/// The house's memory, and the row in which it hands out bytes. Not the editors' machine, which acts on files.
#[derive(Drop)]
pub struct Machine {
    heap: Global,
    memory: Vec<u64>,
    row: Vec<u8>,
}

impl Machine {
    pub fn new(heap: Global) -> Result<Machine, AllocError> {
        Ok(Machine {
            heap,
            memory: vec![in heap; 0; core_house::MEMORY]?,
            row: vec![in heap; 0; core_house::ROW]?,
        })
    }

    /// Memory as it is when power comes.
    pub fn forget(&mut self) {
        self.memory.as_mut_slice().fill(0);
    }

    fn step(&mut self, event: Event, bytes: &[u8]) -> Told {
        core_house::step(
            self.memory.as_mut_slice(),
            event as u64,
            bytes,
            self.row.as_mut_slice(),
        )
    }

    fn tell(&mut self, device: &Device, cue: Cue<'_>) -> Told {
        match cue {
            Cue::Power => self.step(Event::Power, &device.room.to_be_bytes()),
            Cue::Command(text) => self.step(Event::Command, text),
            Cue::Record(which) => self.step(Event::Record, device.read(which)),
            Cue::Next => self.step(Event::Next, &[]),
        }
    }

    /// The first so many bytes of the row, or all.
    fn front(&self, len: usize) -> &[u8] {
        let row = self.row.as_slice();
        row.get(..len).unwrap_or(row)
    }

    /// One act more. What no device can do, and a number that is no refusal, is a difference.
    pub fn act(&mut self, device: &mut Device, ran: &mut Ran<'_>) -> Result<(), Fault> {
        let told = self.tell(device, ran.cue);
        ran.acts += 1;
        ran.cue = Cue::Next;
        match told {
            Told::Read(which) => {
                ran.cue = Cue::Record(which);
                ran.records += 1;
            }
            Told::Append(tape) => {
                device.append(tape, self.front(RECORD))?;
                ran.records += 1;
            }
            Told::Fasten(tape) => device.fasten(tape)?,
            Told::Begin(tape) => device.begin(tape)?,
            Told::Shows(len) => {
                let row = Vec::from_slice(self.heap, self.front(len as usize))?;
                ran.rows.push(row)?;
            }
            Told::Done => ran.end = Some(Ok(())),
            Told::No(number) => ran.end = Some(Err(Refusal::try_from(number)?)),
        }
        Ok(())
    }

    /// So many acts at most.
    pub fn run<'a>(
        &mut self,
        device: &mut Device,
        cue: Cue<'a>,
        most: u64,
    ) -> Result<Ran<'a>, Fault> {
        let mut ran = Ran::new(self.heap, cue);
        for _ in 0..most {
            if ran.end.is_some() {
                break;
            }
            self.act(device, &mut ran)?;
        }
        Ok(ran)
    }

    /// Power: memory is as at the start, and so many acts at most.
    pub fn wake(&mut self, device: &mut Device, most: u64) -> Result<Ran<'static>, Fault> {
        self.forget();
        self.run(device, Cue::Power, most)
    }
}
