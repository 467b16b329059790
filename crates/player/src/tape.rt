//! Two tapes in memory, and what a stop leaves of the records that aren't fast yet.

use crate::fault::Fault;
use std::alloc::{AllocError, Global};
use std::fmt;
use std::num::Saturating;

/// How many bytes a record has. `records` has it too, on which the player doesn't stand.
pub const RECORD: usize = 512;
/// How many of them are there where only half of it came.
const HALF: usize = 256;

/// How many of a tape's loose records stay, and whether half of the next does.
#[derive(Clone, Copy, Debug)]
pub struct Stays {
    pub count: u64,
    pub is_half: bool,
}

/// A stop after so many acts, and what it leaves of each tape.
#[derive(Clone, Copy, Debug)]
pub struct Stop {
    pub acts: u64,
    pub stays: [Stays; 2],
}

impl fmt::Display for Stays {
    fn fmt<W: fmt::Write>(&self, f: &mut fmt::Formatter<W>) -> fmt::Result {
        let Stays { count, is_half } = *self;
        let half = u8::from(is_half);
        write!(f, "{count} {half}")
    }
}

impl fmt::Display for Stop {
    fn fmt<W: fmt::Write>(&self, f: &mut fmt::Formatter<W>) -> fmt::Result {
        let Stop {
            acts,
            stays: [first, second],
        } = *self;
        write!(f, "{acts} {first} {second}")
    }
}

/// Records, the last so many of which might still go.
#[derive(Clone, Drop)]
struct Tape {
    records: Vec<[u8; RECORD]>,
    loose: usize,
}

impl Tape {
    fn new(heap: Global) -> Tape {
        Tape {
            records: Vec::new(heap),
            loose: 0,
        }
    }

    /// A record, or nothing behind the last.
    fn read(&self, record: u64) -> &[u8] {
        self.records
            .get(record as usize)
            .map_or(&[], |page| page.as_slice())
    }

    /// What a stop leaves.
    fn left(&self, stays: Stays) -> Result<Tape, AllocError> {
        let fast = self.records.len().saturating_sub(self.loose);
        let mut end = fast.saturating_add(self.loose.min(stays.count as usize));
        let mut records = self.records.clone()?;
        if stays.is_half {
            if let Some(torn) = records.as_mut_slice().get_mut(end) {
                torn[HALF..].fill(0);
                end = end.saturating_add(1);
            }
        }
        records.truncate(end);
        Ok(Tape { records, loose: 0 })
    }
}

/// Two tapes that each have room for so many records; how often they were changed, fastened or begun, and begun.
#[derive(Clone, Drop)]
pub struct Device {
    tapes: [Tape; 2],
    pub room: u64,
    pub changes: Saturating<u64>,
    pub turns: Saturating<u64>,
    pub begun: Saturating<u64>,
}

impl Device {
    pub fn new(heap: Global, room: u64) -> Device {
        Device {
            tapes: [Tape::new(heap), Tape::new(heap)],
            room,
            changes: Saturating(0),
            turns: Saturating(0),
            begun: Saturating(0),
        }
    }

    /// The record that the house asks for by twice its number, and the tape: taken apart here as by the definition, with which nothing is shared.
    pub fn read(&self, which: u64) -> &[u8] {
        self.tapes[(which % 2) as usize].read(which / 2)
    }

    /// How many records of each tape might still go.
    pub fn loose(&self) -> [usize; 2] {
        let [first, second] = &self.tapes;
        [first.loose, second.loose]
    }

    /// Whether a tape has more records than this.
    pub fn is_longer_than(&self, records: usize) -> bool {
        self.tapes.iter().any(|tape| tape.records.len() > records)
    }

    /// The tape of that number, which is changed. No device has another than 0 and 1.
    fn changed(&mut self, tape: u64) -> Result<&mut Tape, Fault> {
        self.changes += 1;
        // Of a slice: that of the array itself gets no proof yet, as its elements own memory.
        let both = &mut self.tapes;
        let tapes = &mut both[..];
        tapes.get_mut(tape as usize).ok_or_else(Fault::difference)
    }

    /// One record more, where there is room.
    pub fn append(&mut self, tape: u64, record: &[u8]) -> Result<(), Fault> {
        let room = self.room;
        let tape = self.changed(tape)?;
        let record = *record.first_chunk().ok_or_else(Fault::difference)?;
        if tape.records.len() as u64 >= room {
            return Err(Fault::difference());
        }
        tape.records.push(record)?;
        tape.loose = tape.loose.saturating_add(1);
        Ok(())
    }

    /// All that is on a tape is fast then.
    pub fn fasten(&mut self, tape: u64) -> Result<(), Fault> {
        self.turns += 1;
        self.changed(tape)?.loose = 0;
        Ok(())
    }

    pub fn begin(&mut self, tape: u64) -> Result<(), Fault> {
        self.turns += 1;
        self.begun += 1;
        let begun = self.changed(tape)?;
        begun.records.clear();
        begun.loose = 0;
        Ok(())
    }

    pub fn left(&self, stop: Stop) -> Result<Device, AllocError> {
        let [first, second] = &self.tapes;
        let [of_first, of_second] = stop.stays;
        Ok(Device {
            tapes: [first.left(of_first)?, second.left(of_second)?],
            ..*self
        })
    }
}
