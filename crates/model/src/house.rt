//! The state of a plain house, what it weighs, and one turn of it.

use crate::reading;
use crate::reading::Command;
use crate::refusal::{Halt, Refusal};
use std::alloc::{AllocError, Global};
use std::num::Saturating;

/// What a line weighs beside its bytes.
pub const LINE: u64 = 64;
/// What a file weighs beside its name and its lines.
const FILE: u64 = 128;
/// What an earlier text weighs beside what is gone since.
const EARLIER: u64 = 256;
/// How many changes are remembered.
const MOST_EARLIER: usize = 64;
/// How much each record of a tape may carry.
const SHARE: u64 = 32;
/// How many records a command may use by itself, and for each line that it has to do with.
pub const RECORDS_EACH: u64 = 256;

/// A file: a name and its lines.
#[derive(Clone, PartialEq, Drop)]
pub struct File {
    pub name: Vec<u8>,
    pub lines: Vec<Vec<u8>>,
}

/// A text, the current line, counted from 1, or 0; the files; and what each change before weighs, the oldest first.
#[derive(Clone, PartialEq, Drop)]
pub struct House {
    /// Where all of it lies.
    pub heap: Global,
    pub lines: Vec<Vec<u8>>,
    pub current: u64,
    pub files: Vec<File>,
    pub earlier: Vec<u64>,
}

/// The house after a command, and the rows that it shows.
#[derive(Drop)]
pub struct Done {
    pub next: House,
    pub rows: Vec<Vec<u8>>,
}

/// What a command comes to: whether it is done, or why not; the rows shown; the house then; and how many records it may read and put on, if that is
/// bounded.
#[derive(Drop)]
pub struct Turn {
    pub end: Result<(), Refusal>,
    pub rows: Vec<Vec<u8>>,
    pub next: House,
    pub most_records: Option<u64>,
}

/// What lines weigh.
fn lines_weight(lines: &[Vec<u8>]) -> Saturating<u64> {
    lines
        .iter()
        .map(|line| Saturating(LINE) + Saturating(line.len() as u64))
        .sum()
}

impl File {
    fn weight(&self) -> Saturating<u64> {
        Saturating(FILE) + Saturating(self.name.len() as u64) + lines_weight(self.lines.as_slice())
    }
}

impl House {
    /// No line, no file.
    pub fn new(heap: Global) -> House {
        House {
            heap,
            lines: Vec::new(heap),
            current: 0,
            files: Vec::new(heap),
            earlier: Vec::new(heap),
        }
    }

    /// What there is to keep.
    pub fn weight(&self) -> u64 {
        let files: Saturating<u64> = self.files.iter().map(|file| file.weight()).sum();
        let earlier: Saturating<u64> = self.earlier.iter().copied().map(Saturating).sum();
        (lines_weight(self.lines.as_slice()) + files + earlier).0
    }

    /// How much lines behind the last may weigh for it to be just full, on tapes of so much room.
    pub fn slack(&self, room: u64) -> u64 {
        let forgotten = if self.earlier.len() < MOST_EARLIER {
            0
        } else {
            self.earlier.first().copied().unwrap_or(0)
        };
        let kept = self
            .weight()
            .saturating_add(EARLIER)
            .saturating_sub(forgotten);
        SHARE.saturating_mul(room).saturating_sub(kept)
    }

    /// The lines behind the first `from` up to the `to`th.
    pub(crate) fn between(&self, from: usize, to: usize) -> &[Vec<u8>] {
        self.lines.as_slice().get(from..to).unwrap_or(&[])
    }

    /// What this text weighs once the lines behind the first `from` up to the `to`th gave way to so many others.
    fn stand_weight(&self, from: usize, to: usize, others: usize) -> u64 {
        let gone = self.between(from, to);
        let is_inside = to < self.lines.len() && (from < to || others > 0);
        let breaks = gone.len().saturating_add(usize::from(is_inside)) as u64;
        (Saturating(EARLIER) + lines_weight(gone) + Saturating(LINE) * Saturating(breaks)).0
    }

    /// The earlier texts' weights with one more, without the oldest where there are too many.
    fn remembered(&self, weight: u64) -> Result<Vec<u64>, AllocError> {
        let surplus = self
            .earlier
            .len()
            .saturating_add(1)
            .saturating_sub(MOST_EARLIER);
        self.earlier
            .iter()
            .copied()
            .skip(surplus)
            .chain([weight])
            .collect(self.heap)
    }

    /// The house with other lines in place of those behind the first `from` up to the `to`th, and a current line.
    pub fn replaced(
        &self,
        from: u64,
        to: u64,
        mut others: Vec<Vec<u8>>,
        current: u64,
    ) -> Result<House, AllocError> {
        let to = self.lines.len().min(to as usize);
        let from = to.min(from as usize);
        // Not all lines by `at`, to be cut then: those that go would be copied too.
        let mut lines = Vec::new(self.heap);
        lines.extend_with_clones(self.between(0, from))?;
        let weight = self.stand_weight(from, to, others.len());
        lines.append(&mut others)?;
        lines.extend_with_clones(self.between(to, self.lines.len()))?;
        Ok(House {
            heap: self.heap,
            lines,
            current,
            files: self.files.clone()?,
            earlier: self.remembered(weight)?,
        })
    }

    /// The same with another current line.
    pub fn at(&self, current: u64) -> Result<House, AllocError> {
        let mut next = self.clone()?;
        next.current = current;
        Ok(next)
    }

    /// The lines of a file.
    pub fn file(&self, name: &[u8]) -> Option<&Vec<Vec<u8>>> {
        self.files
            .iter()
            .find(|file| file.name.as_slice() == name)
            .map(|file| &file.lines)
    }

    fn refused(&self, why: Refusal, most_records: Option<u64>) -> Result<Turn, AllocError> {
        Ok(Turn {
            end: Err(why),
            rows: Vec::new(self.heap),
            next: self.clone()?,
            most_records,
        })
    }

    /// What a command of the core comes to, where there is room for what is to be kept then.
    fn obey(&self, room: u64, command: Command<'_>) -> Result<Turn, AllocError> {
        let most = self.most_records(command);
        // Not by `?`: a refusal is a turn, too.
        let Done { next, rows } = match self.done(command) {
            Ok(done) => done,
            Err(Halt::Refused(why)) => return self.refused(why, most),
            Err(Halt::Memory(error)) => return Err(error),
        };
        let weight = next.weight();
        if weight > self.weight() && weight > SHARE.saturating_mul(room) {
            return self.refused(Refusal::NoRoom, None);
        }
        let shown = (rows.len() as u64).saturating_mul(RECORDS_EACH);
        Ok(Turn {
            end: Ok(()),
            rows,
            next,
            most_records: most.map(|most| most.saturating_add(shown)),
        })
    }

    /// What is typed, on tapes of so much room.
    pub fn turn(&self, room: u64, typed: &[u8]) -> Result<Turn, AllocError> {
        match reading::read(typed) {
            None => self.refused(Refusal::Unreadable, None),
            Some(command) if !command.is_core() => self.refused(Refusal::Unknown, None),
            Some(command) => self.obey(room, command),
        }
    }
}
