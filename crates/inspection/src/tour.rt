//! The way through a file, record by record.

ghost use Rattle.std.specs.Prelude.{◌≡◌, ◌+◌, ◌*◌, ◌<◌, ◌≤◌, false, length, IfSome, OnSome};
ghost use Rattle.records.specs.Pages.{sealed};

use crate::damage::{Damage, Wrong};
use crate::due;
use crate::due::{Due, Owner};
use crate::kept::Kept;
use records::{Numbers, PAGE, Piece, Record, Splice};

/// How far one is in a file, and what the records so far say.
#[derive(Default, Drop)]
pub struct Tour {
    seen: u64,
    is_torn: bool,
    generation: Option<u32>,
    due: Option<Due>,
    kept: Kept,
}

impl Tour {
    pub fn new() -> Tour
        ensures { result.seen ≡ 0 }
    {
        Tour::default()
    }

    /// The generation that the head names, if there is one.
    pub fn generation(&self) -> Option<u32> {
        self.generation
    }

    /// The next record of the file, whole or what there is of it.
    fn look(&mut self, page: &[u8]) -> Option<Damage>
        ensures seen { self.new.seen ≤ self.old.seen + 1 }
        ensures torn { self.old.is_torn ≡ false → sealed page.now ≡ false → OnSome result (⊥) }
        ensures below { IfSome result (λ d. d.record ≤ self.old.seen) }
    {
        let record = self.seen;
        if self.is_torn {
            return Some(Damage {
                record: record.saturating_sub(1),
                wrong: Wrong::Torn,
            });
        }
        if !records::is_whole(page) {
            self.seen = record.saturating_add(1);
            self.is_torn = true;
            return None;
        }
        let looked = self.record(page);
        self.seen = record.saturating_add(1);
        looked.err().map(|wrong| Damage { record, wrong })
    }

    /// The next records of the file in a row, the last of them perhaps in part. The number of a damaged one is below how many there are so far.
    pub fn look_on(&mut self, pages: &[u8]) -> Option<Damage>
        ensures empty { length pages.now ≡ 0 → OnSome result (⊥) }
        ensures below { IfSome result (λ d. 512 * d.record < 512 * self.old.seen + length pages.now) }
    {
        // With `find_map` the proof of `below` doesn't close, since the closure would change the tour.
        for page in pages.chunks(PAGE) {
            let damage = self.look(page);
            if damage.is_some() {
                return damage;
            }
        }
        None
    }

    /// A record that was written whole.
    fn record(&mut self, page: &[u8]) -> Result<(), Wrong> {
        match records::decode_checked(page) {
            Record::Broken => Err(Wrong::Kind),
            Record::Head {
                generation,
                entries,
            } => self.head(generation, entries),
            _ if self.seen == 0 => Err(Wrong::NoHead),
            Record::Line(piece) => self.line(piece),
            Record::Copy { index, piece } => self.copy(index, piece),
            Record::Commit {
                splice,
                numbers,
                ..
            } => self.commit(splice, numbers),
        }
    }

    fn head(&mut self, generation: u32, entries: u32) -> Result<(), Wrong> {
        if self.seen > 0 {
            return Err(Wrong::LateHead);
        }
        if generation == 0 || u64::from(generation) > journal::LAST_GENERATION {
            return Err(Wrong::Generation);
        }
        self.generation = Some(generation);
        self.kept.begin(entries)
    }

    fn line(&mut self, piece: Piece<'_>) -> Result<(), Wrong> {
        self.due = due::after(self.due, Owner::Typed, piece)?;
        if piece.part == 0 {
            self.kept.note_line();
        }
        Ok(())
    }

    fn copy(&mut self, index: u32, piece: Piece<'_>) -> Result<(), Wrong> {
        if !self.kept.has(index) {
            return Err(Wrong::Index);
        }
        self.due = due::after(self.due, Owner::Entry(index), piece)?;
        Ok(())
    }

    fn commit(&mut self, splice: Splice<u32>, numbers: Numbers<u32>) -> Result<(), Wrong> {
        if self.due.is_some() {
            return Err(Wrong::Turn);
        }
        self.kept.commit(splice, numbers)
    }
}
