//! What each command of the core does to a plain house.

use crate::house::{Done, File, House, RECORDS_EACH};
use crate::reading::{Address, Base, Command, Deed, Given, Range};
use crate::refusal::{Halt, Refusal};
use std::alloc::{AllocError, Global};

/// How many bytes a line has at most.
pub const LONGEST: usize = 1_024;
/// How many files there are at most.
const MOST_FILES: usize = 64;

/// The lines from one to another.
#[derive(Clone, Copy)]
struct Span {
    from: u64,
    to: u64,
}

impl Span {
    fn one(line: u64) -> Span {
        Span {
            from: line,
            to: line,
        }
    }
}

impl File {
    /// The length of its name, the name, and how many lines it has.
    fn row(&self, heap: Global) -> Result<Vec<u8>, AllocError> {
        let name = self.name.as_slice();
        let lines = self.lines.len() as u64;
        let mut row = eight(heap, name.len() as u64)?;
        row.extend_from_slice(name)?;
        row.extend_from_slice(&lines.to_be_bytes())?;
        Ok(row)
    }
}

/// A number as eight bytes, the highest first.
fn eight(heap: Global, number: u64) -> Result<Vec<u8>, AllocError> {
    Vec::from_slice(heap, &number.to_be_bytes())
}

/// The line that is no longer than it may be.
fn fitting(line: &[u8]) -> Result<&[u8], Refusal> {
    if line.len() > LONGEST {
        Err(Refusal::TooLong)
    } else {
        Ok(line)
    }
}

/// How many lines are given.
fn given_count(given: Given<'_>) -> u64 {
    given.map_or(0, |text| text.split(|byte| *byte == b'\n').count() as u64)
}

impl House {
    /// How many lines the text has.
    fn count(&self) -> u64 {
        self.lines.len() as u64
    }

    /// The line that an address means, where one is at `current`.
    fn place(&self, current: u64, address: Address) -> Result<u64, Refusal> {
        let base = match address.base {
            Base::Current => current,
            Base::Last => self.count(),
            Base::Number(number) => number,
            Base::Sought => return Err(Refusal::Unknown),
        };
        base.saturating_add(address.on)
            .checked_sub(address.back)
            .filter(|line| *line <= self.count())
            .ok_or(Refusal::NoLine)
    }

    fn all(&self) -> Span {
        Span {
            from: 1,
            to: self.count(),
        }
    }

    /// What a deed takes where no range is said.
    fn usual(&self, deed: Deed<'_>) -> Span {
        let next = self.current.saturating_add(1);
        match deed {
            Deed::Join => Span {
                from: self.current,
                to: next,
            },
            Deed::Place => Span::one(self.count()),
            Deed::Save(_) => self.all(),
            Deed::GoTo => Span::one(next),
            _ => Span::one(self.current),
        }
    }

    fn lines_of(&self, command: Command<'_>) -> Result<Span, Refusal> {
        let Some(range) = command.range else {
            return Ok(self.usual(command.deed));
        };
        let span = match range {
            Range::All => return Ok(self.all()),
            Range::One(first) => Span::one(self.place(self.current, first)?),
            Range::Both(first, second) => Span {
                from: self.place(self.current, first)?,
                to: self.place(self.current, second)?,
            },
            Range::Then(first, second) => {
                let from = self.place(self.current, first)?;
                let to = self.place(from, second)?;
                Span { from, to }
            }
        };
        if span.from > span.to {
            return Err(Refusal::NoLine);
        }
        Ok(span)
    }

    /// A range with at least a line, all of which are there.
    fn real(&self, span: Span) -> Result<Span, Refusal> {
        if 1 <= span.from && span.from <= span.to && span.to <= self.count() {
            Ok(span)
        } else {
            Err(Refusal::NoLine)
        }
    }

    /// The last line of a range, or 0 before the first, if it is there.
    fn target(&self, span: Span) -> Result<u64, Refusal> {
        if span.to <= self.count() {
            Ok(span.to)
        } else {
            Err(Refusal::NoLine)
        }
    }

    fn lines_in(&self, span: Span) -> &[Vec<u8>] {
        self.between(span.from.saturating_sub(1) as usize, span.to as usize)
    }

    /// The lines of a range once more.
    fn copies(&self, span: Span) -> Result<Vec<Vec<u8>>, AllocError> {
        let mut copies = Vec::new(self.heap);
        copies.extend_with_clones(self.lines_in(span))?;
        Ok(copies)
    }

    /// The lines that are given, none of which is too long.
    fn given_lines(&self, given: Given<'_>) -> Result<Vec<Vec<u8>>, Halt> {
        let Some(text) = given else {
            return Ok(Vec::new(self.heap));
        };
        text.split(|byte| *byte == b'\n')
            .map(|line| -> Result<Vec<u8>, Halt> {
                Ok(Vec::from_slice(self.heap, fitting(line)?)?)
            })
            .try_collect(self.heap)
    }

    /// Other lines in place of those behind the first `from` up to the `to`th, where nothing is shown.
    fn put(&self, from: u64, to: u64, lines: Vec<Vec<u8>>, current: u64) -> Result<Done, Halt> {
        Ok(Done {
            next: self.replaced(from, to, lines, current)?,
            rows: Vec::new(self.heap),
        })
    }

    fn append(&self, span: Span, lines: Vec<Vec<u8>>) -> Result<Done, Halt> {
        let to = self.target(span)?;
        let current = to.saturating_add(lines.len() as u64);
        self.put(to, to, lines, current)
    }

    fn insert(&self, span: Span, lines: Vec<Vec<u8>>) -> Result<Done, Halt> {
        let to = self.target(span)?;
        let before = to.saturating_sub(1);
        let current = if lines.is_empty() {
            to
        } else {
            before.saturating_add(lines.len() as u64)
        };
        self.put(before, before, lines, current)
    }

    /// Other lines in place of a range; one is at the last of them, or where there are none at the line behind, or at the last.
    fn change(&self, span: Span, lines: Vec<Vec<u8>>) -> Result<Done, Halt> {
        let Span { from, to } = self.real(span)?;
        let before = from.saturating_sub(1);
        let current = if lines.is_empty() {
            let gone = to.saturating_sub(before);
            from.min(self.count().saturating_sub(gone))
        } else {
            before.saturating_add(lines.len() as u64)
        };
        self.put(before, to, lines, current)
    }

    fn join(&self, span: Span) -> Result<Done, Halt> {
        let Span { from, to } = self.real(span)?;
        let line = self.lines_in(span).concat(self.heap)?;
        fitting(line.as_slice())?;
        let lines = vec![in self.heap; line]?;
        self.put(from.saturating_sub(1), to, lines, from)
    }

    /// Lines shown; one is at the last of them.
    fn show(&self, span: Span) -> Result<Done, Halt> {
        Ok(Done {
            next: self.at(self.real(span)?.to)?,
            rows: self.copies(span)?,
        })
    }

    /// Lines shown with their numbers before them.
    fn show_numbered(&self, span: Span) -> Result<Done, Halt> {
        let Span { from, to } = self.real(span)?;
        let rows = (from..=to)
            .zip(self.lines_in(span))
            .map(|(number, line)| -> Result<Vec<u8>, AllocError> {
                let mut row = eight(self.heap, number)?;
                row.extend_from_slice(line.as_slice())?;
                Ok(row)
            })
            .try_collect(self.heap)?;
        Ok(Done {
            next: self.at(to)?,
            rows,
        })
    }

    /// A number shown.
    fn tell(&self, next: House, number: u64) -> Result<Done, Halt> {
        let row = eight(self.heap, number)?;
        Ok(Done {
            next,
            rows: vec![in self.heap; row]?,
        })
    }

    /// The house where the file of that name has these lines.
    fn with_file(&self, name: &[u8], lines: Vec<Vec<u8>>) -> Result<House, AllocError> {
        let mut next = self.clone()?;
        let mut files = next.files.iter_mut();
        if let Some(file) = files.find(|file| file.name.as_slice() == name) {
            file.lines = lines;
        } else {
            let name = Vec::from_slice(self.heap, name)?;
            next.files.push(File { name, lines })?;
        }
        Ok(next)
    }

    fn save(&self, command: Command<'_>, name: &[u8]) -> Result<Done, Halt> {
        if self.file(name).is_none() && self.files.len() >= MOST_FILES {
            return Err(Halt::Refused(Refusal::TooLong));
        }
        let span = self.lines_of(command)?;
        if !self.lines.is_empty() || span.to > 0 {
            self.real(span)?;
        }
        let lines = self.copies(span)?;
        let count = lines.len() as u64;
        self.tell(self.with_file(name, lines)?, count)
    }

    fn edit(&self, name: &[u8]) -> Result<Done, Halt> {
        let lines = self.file(name).ok_or(Refusal::NoFile)?.clone()?;
        let count = lines.len() as u64;
        self.tell(self.replaced(0, self.count(), lines, count)?, count)
    }

    fn list_files(&self) -> Result<Done, Halt> {
        Ok(Done {
            next: self.clone()?,
            rows: self
                .files
                .iter()
                .map(|file| file.row(self.heap))
                .try_collect(self.heap)?,
        })
    }

    /// What a command of the core does, where it isn't refused and there is room.
    pub(crate) fn done(&self, command: Command<'_>) -> Result<Done, Halt> {
        match command.deed {
            Deed::Append(given) => self.append(self.lines_of(command)?, self.given_lines(given)?),
            Deed::Insert(given) => self.insert(self.lines_of(command)?, self.given_lines(given)?),
            Deed::Change(given) => self.change(self.lines_of(command)?, self.given_lines(given)?),
            Deed::Delete => self.change(self.lines_of(command)?, Vec::new(self.heap)),
            Deed::Join => self.join(self.lines_of(command)?),
            Deed::Print => self.show(self.lines_of(command)?),
            Deed::Number => self.show_numbered(self.lines_of(command)?),
            Deed::Place => {
                let line = self.target(self.lines_of(command)?)?;
                self.tell(self.clone()?, line)
            }
            Deed::GoTo => self.show(Span::one(self.lines_of(command)?.to)),
            Deed::Save(name) => self.save(command, name),
            Deed::Edit(name) => self.edit(name),
            Deed::Files => self.list_files(),
            Deed::Later | Deed::LaterForMany => Err(Halt::Refused(Refusal::Unknown)),
        }
    }

    /// How many records a command may read and put on, but for the rows that it shows; none where that isn't bounded.
    pub(crate) fn most_records(&self, command: Command<'_>) -> Option<u64> {
        let given = match command.deed {
            Deed::Append(given) | Deed::Insert(given) | Deed::Change(given) => given_count(given),
            Deed::Save(_) | Deed::Edit(_) | Deed::Files => return None,
            _ => 0,
        };
        let lines = self.lines_of(command).map_or(
            1,
            |span| span.to.saturating_add(1).saturating_sub(span.from),
        );
        let each = given.saturating_add(lines).saturating_add(1);
        Some(RECORDS_EACH.saturating_mul(each))
    }
}
