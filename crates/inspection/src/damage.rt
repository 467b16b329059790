//! What can be wrong with a record.

use thiserror::Error;

/// What is wrong with a record.
#[derive(Clone, Copy, Debug, Error)]
pub enum Wrong {
    /// It is not whole, and others stand behind it.
    #[error("it isn't whole, and others follow")]
    Torn,
    /// It is whole, and no record that there is.
    #[error("it is of no kind that there is")]
    Kind,
    /// It is the first one, and no head.
    #[error("a head should be there")]
    NoHead,
    /// It is a head, and not the first one.
    #[error("a head doesn't belong there")]
    LateHead,
    /// A head whose generation is none, or the other file's too.
    #[error("its generation is none, or the other file's")]
    Generation,
    /// The directory would have more entries than it can have.
    #[error("it has more lines than there can be")]
    Entries,
    /// A part that a line so long doesn't have, or a line that is too long.
    #[error("it is a part that no line has")]
    Piece,
    /// A part of a line that isn't the next one.
    #[error("it isn't the part of a line that comes next")]
    Turn,
    /// A copy for an entry that isn't there.
    #[error("it is for a line that isn't there")]
    Index,
    /// A change of entries that aren't there.
    #[error("it changes lines that aren't there")]
    Splice,
    /// More lines than entries, or a current line that isn't there.
    #[error("its numbers of lines don't fit")]
    Count,
    /// A file behind the last place, or with more lines than there are.
    #[error("its file doesn't fit")]
    File,
}

/// A record by its number, from 0 on, and what is wrong with it.
#[derive(Clone, Copy, Debug, Error)]
#[error("record {record}: {wrong}")]
pub struct Damage {
    pub record: u64,
    pub wrong: Wrong,
}
