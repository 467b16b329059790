//! What the records so far keep: how many entries, and how many of them are a file's.

ghost use Rattle.std.specs.Prelude.{◌≡◌, ◌≤◌, nat_lt};

use crate::damage::Wrong;
use arrayvec::ArrayVec;
use records::{Also, Numbers, Source, Splice};
use std::mem;

// Of `memory` and `commands`, on which this crate doesn't stand: it looks at files before anything of the machine does.
/// How many entries the directory has at most.
const ENTRIES: u64 = 524_288;

/// How many files there are at most.
const FILES: usize = 64;

/// How many entries there are, how many lines since the last commit, how many lines each file has, and all of them.
#[derive(Default, Drop)]
pub struct Kept {
    entries: u64,
    pending: u64,
    files: ArrayVec<u32, FILES>,
    filed: u64,
}

impl Kept {
    /// A head says how many entries there are.
    pub fn begin(&mut self, entries: u32) -> Result<(), Wrong>
        ensures { entries ≤ 524288 → self.new.entries ≡ entries }
    {
        if entries as u64 > ENTRIES {
            return Err(Wrong::Entries);
        }
        self.entries = entries as u64;
        Ok(())
    }

    /// One line more since the last commit.
    pub fn note_line(&mut self) {
        self.pending = self.pending.saturating_add(1);
    }

    /// Whether there is an entry of that index.
    pub fn has(&self, index: u32) -> bool
        ensures { result ≡ nat_lt index self.now.entries }
    {
        (index as u64) < self.entries
    }

    /// How many entries come by a splice, if they are there.
    fn came(&self, source: Source<u32>) -> Result<u64, Wrong> {
        match source {
            Source::Nothing => Ok(0),
            Source::New => Ok(self.pending),
            Source::Copied { from, to } => {
                if from > to || to as u64 > self.entries {
                    return Err(Wrong::Splice);
                }
                Ok((to - from) as u64)
            }
        }
    }

    fn splice(&mut self, splice: Splice<u32>) -> Result<(), Wrong> {
        let came = self.came(splice.source)?;
        let gone = splice.gone as u64;
        if splice.from as u64 + gone > self.entries {
            return Err(Wrong::Splice);
        }
        let entries = self.entries.saturating_sub(gone).saturating_add(came);
        if entries > ENTRIES {
            return Err(Wrong::Entries);
        }
        self.entries = entries;
        self.pending = 0;
        Ok(())
    }

    /// A file has so many lines from now on.
    fn store(&mut self, slot: u32, lines: u32) -> Result<(), Wrong> {
        let slot = slot as usize;
        if slot == self.files.len() {
            self.files.try_push(0).map_err(|_| Wrong::File)?;
        }
        let file = self.files.get_mut(slot).ok_or(Wrong::File)?;
        let before = mem::replace(file, lines);
        self.filed = self
            .filed
            .saturating_sub(before as u64)
            .saturating_add(lines as u64);
        Ok(())
    }

    /// A commit changes entries, a file, and the text's numbers.
    pub fn commit(&mut self, splice: Splice<u32>, numbers: Numbers<u32>) -> Result<(), Wrong> {
        self.splice(splice)?;
        if let Also::Store { slot, lines, .. } = numbers.also {
            self.store(slot, lines)?;
        }
        if self.filed > self.entries {
            return Err(Wrong::File);
        }
        let text = self.filed.saturating_add(numbers.count as u64);
        if text > self.entries || numbers.current > numbers.count {
            return Err(Wrong::Count);
        }
        Ok(())
    }
}
