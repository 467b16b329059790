//! Records of the log as pages of 512 bytes: written into lent bytes, and read from them without a copy. Laws of these pages are contracts of functions that do
//! nothing.
#![tactic(auto)]

ghost use Rattle.records.specs.Laws.{LinePacked, PageBack, RecopiedRight, TornBroken};

mod page;
mod reader;
mod writer;

pub use journal::{Also, Numbers, Source, Splice};
pub use reader::{decode, decode_checked, is_whole, piece_read};
pub use writer::{
    LowByte, copy_line, encode_commit, encode_head, encode_line, lay, line_to_copy, records_for,
    share_of,
};

/// How many bytes a page has.
pub const PAGE: usize = 512;
/// How many bytes of a line a record holds at most.
pub const SHARE: usize = 503;

/// Where the byte is that is 1 in every page that was written whole.
const SEAL: usize = 511;

/// The kinds of records, as byte 0 has them. No enum: they are bytes of a page as it lies on the tape, and `decode` alone tells them apart, for a `Record`.
const HEAD: u8 = 1;

const LINE: u8 = 2;

const COPY: u8 = 3;

const COMMIT: u8 = 4;

/// One record's share of a line that is so long.
#[derive(Clone, Copy)]
pub struct Piece<'a> {
    pub part: u8,
    pub long: u16,
    pub bytes: &'a [u8],
}

#[derive(Clone, Copy)]
pub enum Record<'a> {
    Head {
        generation: u32,
        entries: u32,
    },
    Line(Piece<'a>),
    /// A line carried to this tape, for an entry of the directory.
    Copy {
        index: u32,
        piece: Piece<'a>,
    },
    Commit {
        splice: Splice<u32>,
        numbers: Numbers<u32>,
        name: &'a [u8],
    },
    /// No record, or one that was not written whole. A case, and no `Option` of a record: the definition of a record has it, since replay is told over all that
    /// a tape holds, and ends there.
    Broken,
}

/// What was written is read back, and may be put on a tape.
pub fn page_back()
    ensures { PageBack }
{}

/// A page of which only the first half was written is broken, and so is one that isn't there.
pub fn torn_broken()
    ensures { TornBroken }
{}

/// The pieces of a line make the line again, are as many as `records_for` says, and fit their pages.
pub fn line_packed()
    ensures { LinePacked }
{}

/// The page of a line, or of a copy, made into that of a copy for another index.
pub fn recopied_right()
    ensures { RecopiedRight }
{}
