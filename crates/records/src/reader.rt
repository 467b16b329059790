//! Reading a page.
ghost use Rattle.std.specs.Prelude.{◌≡◌, ℕ, ◌+◌, ◌<◌, ◌≤◌, true, length};
ghost use Rattle.records.specs.Checked.{checked_record_of, part_in};
ghost use Rattle.records.specs.Pages.{beside as a_beside, record_of, sealed};
ghost use Rattle.records.specs.Values.{piece_of, rec_of};
ghost use Rattle.journal.specs.Values.{splice_of};
ghost use Rattle.journal.specs.Log.{piece_in};

use crate::page::Page;
use crate::{COMMIT, COPY, HEAD, LINE, Piece, Record, Source, Splice};

/// Whether a page was written whole, as the seal at its end says.
pub fn is_whole(page: &[u8]) -> bool
    ensures { result ≡ sealed page.now }
{
    Page::sealed(page).is_some()
}

/// The record that a page holds; whatever is not whole, or no record, is broken.
pub fn decode(page: &[u8]) -> Record<'_>
    ensures { rec_of result ≡ record_of page.now }
{
    let Some(page) = Page::sealed(page) else {
        return Record::Broken;
    };
    match page.kind() {
        HEAD => Record::Head {
            generation: page.number(1),
            entries: page.number(5),
        },
        LINE => Record::Line(page.piece()),
        COPY => Record::Copy {
            index: page.number(4),
            piece: page.piece(),
        },
        COMMIT => page.commit(),
        _ => Record::Broken,
    }
}

/// Whether what a splice copies lies before the entries that it takes out, or behind them.
fn beside(splice: Splice<u32>) -> bool
    ensures { result ≡ a_beside (splice_of splice) }
{
    match splice.source {
        Source::Nothing | Source::New => true,
        Source::Copied { from, to } => {
            let end = splice.from as u64 + splice.gone as u64;
            from <= to && (to <= splice.from || end <= from as u64)
        }
    }
}

/// The record that a page holds, if it can be believed: a commit that copies what it takes out is broken, too.
pub fn decode_checked(page: &[u8]) -> Record<'_>
    ensures { rec_of result ≡ checked_record_of page.now }
{
    let record = decode(page);
    match record {
        // No guard on the arm: behind one the proof doesn't know that all else is no commit.
        Record::Commit { splice, .. } => {
            if beside(splice) {
                record
            } else {
                Record::Broken
            }
        }
        _ => record,
    }
}

/// The share of a line that a page holds, and which part it is: nothing, as part 0, where it holds no line. No `Option`: the
/// definition has that piece for every other record, and `copy_line` makes a copy of it.
pub fn piece_read(page: &[u8]) -> Piece<'_>
    ensures part { result.part ≡ part_in (checked_record_of page.now) }
    ensures piece { piece_of result ≡ piece_in (checked_record_of page.now) }
    ensures short { length result.bytes.now ≤ 503 }
{
    match decode_checked(page) {
        Record::Line(piece) | Record::Copy { piece, .. } => piece,
        _ => Piece {
            part: 0,
            long: 0,
            bytes: &[],
        },
    }
}
