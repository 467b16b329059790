//! The commands that are measured, and how each is typed.

use crate::fault::Fault;
use crate::texts::Text;
use std::alloc::Global;
use std::fmt;

#[derive(Clone, Copy, PartialEq, Eq)]
pub enum Deed {
    Append,
    Insert,
    Change,
    Delete,
    Join,
    Print,
    Number,
    GoTo,
    LineNumber,
    Write,
    Edit,
    Files,
}

impl fmt::Display for Deed {
    fn fmt<W: fmt::Write>(&self, f: &mut fmt::Formatter<W>) -> fmt::Result {
        f.write_str(match self {
            Deed::Append => "a",
            Deed::Insert => "i",
            Deed::Change => "c",
            Deed::Delete => "d",
            Deed::Join => "j",
            Deed::Print => "p",
            Deed::Number => "n",
            Deed::GoTo => "",
            Deed::LineNumber => "=",
            Deed::Write => "w",
            Deed::Edit => "e",
            Deed::Files => "f",
        })
    }
}

/// Where the lines are.
#[derive(Clone, Copy, PartialEq, Eq)]
pub enum Place {
    Front,
    Middle,
    End,
    /// The whole text, or none of it.
    All,
}

impl fmt::Display for Place {
    fn fmt<W: fmt::Write>(&self, f: &mut fmt::Formatter<W>) -> fmt::Result {
        f.pad(match self {
            Place::Front => "front",
            Place::Middle => "middle",
            Place::End => "end",
            Place::All => "all",
        })
    }
}

/// A command on so many lines.
#[derive(Clone, Copy)]
pub struct Case {
    pub deed: Deed,
    pub lines: u64,
    pub place: Place,
}

/// The commands on some lines, by how many.
pub const LINES: [(Deed, u64); 16] = [
    (Deed::Append, 1),
    (Deed::Insert, 1),
    (Deed::Change, 1),
    (Deed::Change, 10),
    (Deed::Change, 100),
    (Deed::Delete, 1),
    (Deed::Delete, 10),
    (Deed::Delete, 100),
    (Deed::Join, 2),
    (Deed::Print, 1),
    (Deed::Print, 10),
    (Deed::Print, 100),
    (Deed::Number, 1),
    (Deed::GoTo, 1),
    (Deed::LineNumber, 1),
    (Deed::Write, 10),
];

impl Case {
    /// The first of its lines.
    pub fn first(self, text: Text) -> u64 {
        match self.place {
            Place::Front | Place::All => 1,
            Place::Middle => text.lines / 2,
            Place::End => text.lines.saturating_add(1).saturating_sub(self.lines),
        }
    }

    /// The last of its lines.
    fn last(self, text: Text) -> u64 {
        self.first(text)
            .saturating_add(self.lines)
            .saturating_sub(1)
    }

    /// How many lines it gives.
    pub fn given(self) -> u64 {
        match self.deed {
            Deed::Append | Deed::Insert | Deed::Change => self.lines,
            _ => 0,
        }
    }

    /// Whether a bound is stated for it.
    pub fn is_bounded(self) -> bool {
        !matches!(self.deed, Deed::Edit | Deed::Files | Deed::Write)
    }

    /// Whether it puts in, takes out or shows one line, or says where one is.
    pub fn is_single(self) -> bool {
        self.is_bounded() && self.deed != Deed::Join && self.lines == 1
    }

    /// The records allowed where it shows so many rows.
    pub fn allowed(self, shown: u64) -> u64 {
        let units = self
            .lines
            .saturating_add(self.given())
            .saturating_add(shown);
        units.saturating_mul(256).saturating_add(256)
    }

    /// How it is typed.
    pub fn typed(self, heap: Global, text: Text) -> Result<String, Fault> {
        let first = self.first(text);
        let last = self.last(text);
        let deed = self.deed;
        let command = match (deed, self.place) {
            (Deed::Append, Place::Front) => format!(in heap; "0a")?,
            (Deed::Append | Deed::Insert | Deed::GoTo | Deed::LineNumber, _) => {
                format!(in heap; "{first}{deed}")?
            }
            (Deed::Write, Place::All) => format!(in heap; "w f00")?,
            (Deed::Write, _) => format!(in heap; "{first},{last}w f01")?,
            (Deed::Edit, _) => format!(in heap; "e f00")?,
            (Deed::Files, _) => format!(in heap; "f")?,
            _ => format!(in heap; "{first},{last}{deed}")?,
        };
        text.given(command, self.given())
    }

    /// What puts the text as it was, if it isn't.
    pub fn undone(self, heap: Global, text: Text) -> Result<Option<String>, Fault> {
        let first = self.first(text);
        let before = first.saturating_sub(1);
        Ok(match self.deed {
            Deed::Append | Deed::Insert => Some(format!(in heap; "d")?),
            Deed::Delete => Some(text.given(format!(in heap; "{before}a")?, self.lines)?),
            Deed::Join => Some(text.given(format!(in heap; "{first}c")?, 2)?),
            _ => None,
        })
    }
}

impl fmt::Display for Case {
    fn fmt<W: fmt::Write>(&self, f: &mut fmt::Formatter<W>) -> fmt::Result {
        let Case { deed, lines, place } = *self;
        match (deed, place) {
            (Deed::GoTo, _) => write!(f, "line alone {place:<6}"),
            (_, Place::All) => write!(f, "{deed}          {place:<6}"),
            _ => write!(f, "{deed} {lines:>4}     {place:<6}"),
        }
    }
}
