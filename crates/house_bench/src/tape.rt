//! Tapes in memory: records of 512 bytes, one behind the other.

use crate::fault::Fault;
use std::alloc::Global;

/// How many bytes a record has.
pub const RECORD: usize = records::PAGE;

/// Records, and how many there is room for.
#[derive(Drop)]
pub struct Tape {
    records: Vec<[u8; RECORD]>,
    room: u64,
}

impl Tape {
    pub fn new(heap: Global, room: u64) -> Tape {
        Tape {
            records: Vec::new(heap),
            room,
        }
    }

    /// How many records there are.
    pub fn len(&self) -> u64 {
        self.records.len() as u64
    }

    /// A record; nothing behind the last.
    pub fn read(&self, record: u64) -> &[u8] {
        self.records
            .get(record as usize)
            .map_or(&[], |page| page.as_slice())
    }

    /// One record more.
    pub fn append(&mut self, record: [u8; RECORD]) -> Result<(), Fault> {
        if self.len() >= self.room {
            return Err(Fault::Full);
        }
        self.records.push(record)?;
        Ok(())
    }

    /// Without records.
    pub fn begin(&mut self) {
        self.records.clear();
    }
}
