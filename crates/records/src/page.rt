//! A page that was written whole, and the numbers in it.
ghost use Rattle.std.specs.Prelude.{◌≡◌, ◌+◌, ◌<◌, ◌≤◌, true, false, length, slice_index, MatchOption};
ghost use Rattle.records.specs.Pages.{also_in_page, four_at, name_in_page, news_in_page, piece_in_page, sealed, source_by, splice_in_page};
ghost use Rattle.records.specs.Values.{piece_of, rec_of};
ghost use Rattle.journal.specs.Values.{also_of, news_of, source_of, splice_of};
ghost use Rattle.journal.specs.Log.{commit as a_commit};

use crate::{Also, Numbers, PAGE, Piece, Record, SEAL, Source, Splice};

/// How many bytes of a file's name a page has room for. A number of its own: this crate doesn't stand above `typed`, whose `LONGEST_NAME` is the same.
const NAME: u32 = 64;

/// A page that was written whole.
#[derive(Clone, Copy)]
pub(crate) struct Page<'a> {
    bytes: &'a [u8],
    ghost long: { 512 ≤ length bytes.now },
}

impl<'a> Page<'a> {
    /// The page, if it was written whole, as the seal at its end says.
    pub(crate) fn sealed(page: &'a [u8]) -> Option<Page<'a>>
        ensures { MatchOption result (sealed page.now ≡ false) (λ whole. (whole.bytes.now ≡ page.now) × (sealed page.now ≡ true)) }
    {
        if page.len() >= PAGE && page[SEAL] == 1 {
            Some(Page { bytes: page })
        } else {
            None
        }
    }

    /// The byte for the kind of record.
    pub(crate) fn kind(self) -> u8
        ensures { result ≡ slice_index self.entry.bytes.now 0 }
    {
        self.bytes[0]
    }

    /// The number of four bytes at an index, the highest first.
    pub(crate) fn number(self, at: usize) -> u32
        requires { at + 3 < 512 }
        ensures { result ≡ four_at self.entry.bytes.now at }
    {
        let page = self.bytes;
        u32::from_be_bytes([page[at], page[at + 1], page[at + 2], page[at + 3]])
    }

    pub(crate) fn piece(self) -> Piece<'a>
        ensures part { result.part ≡ slice_index self.entry.bytes.now 1 }
        ensures piece { piece_of result ≡ piece_in_page self.entry.bytes.now }
    {
        let page = self.bytes;
        let part = page[1];
        let long = u16::from_be_bytes([page[2], page[3]]);
        let here = crate::share_of(long as usize, part as usize);
        Piece {
            part,
            long,
            bytes: &page[8..8 + here],
        }
    }

    /// The kind is a number of the page as it lies on the tape, and a case from here on.
    fn source(self) -> Source<u32>
        ensures { source_of result ≡ source_by (four_at self.entry.bytes.now 9) (four_at self.entry.bytes.now 13) (four_at self.entry.bytes.now 17) }
    {
        match self.number(9) {
            0 => Source::Nothing,
            1 => Source::New,
            _ => Source::Copied {
                from: self.number(13),
                to: self.number(17),
            },
        }
    }

    fn splice(self) -> Splice<u32>
        ensures { splice_of result ≡ splice_in_page self.entry.bytes.now }
    {
        Splice {
            from: self.number(1),
            gone: self.number(5),
            source: self.source(),
        }
    }

    fn name(self) -> &'a [u8]
        ensures { result.now ≡ name_in_page self.entry.bytes.now }
    {
        let long = self.number(49).min(NAME) as usize;
        &self.bytes[53..53 + long]
    }

    /// The same of what else is said.
    fn also(self) -> Also<u32>
        ensures { also_of result (name_in_page self.entry.bytes.now) ≡ also_in_page self.entry.bytes.now }
    {
        match self.number(33) {
            0 => Also::Nothing,
            1 => Also::Push(self.number(37)),
            _ => Also::Store {
                slot: self.number(37),
                lines: self.number(41),
                weight: self.number(45),
            },
        }
    }

    pub(crate) fn commit(self) -> Record<'a>
        ensures { rec_of result ≡ a_commit (splice_in_page self.entry.bytes.now) (news_in_page self.entry.bytes.now) }
    {
        let numbers = Numbers {
            count: self.number(21),
            current: self.number(25),
            weight: self.number(29),
            also: self.also(),
        };
        Record::Commit {
            splice: self.splice(),
            numbers,
            name: self.name(),
        }
    }
}
