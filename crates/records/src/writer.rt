//! Writing a page, over the front of a lent row, which has to be as long: no array, since the row is longer and is lent as a slice, and no struct that holds the
//! row, since one call writes a whole page, so that it would be made anew for each call and do nothing else.
ghost use Rattle.std.specs.Prelude.{◌≡◌, ℕ, ◌+◌, ◌-◌, ◌*◌, ◌%◌, ◌<◌, ◌≤◌, List, [], ◌∷◌, ◌++◌, length, drop, map, slice_set};
ghost use Rattle.journal.specs.Log.{commit as a_commit, copy as a_copy, head as a_head, line as a_line, piece as a_piece, piece_in};
ghost use Rattle.records.specs.Lines.{records_for, share};
ghost use Rattle.records.specs.Pages.{also_kind, also_number, closed, entry_in, fours, name_in, page_of, recopied, source_from, source_kind, source_to};
ghost use Rattle.records.specs.Checked.{checked_record_of};
ghost use Rattle.records.specs.Values.{low_bytes, name_for};
ghost use Rattle.journal.specs.Values.{also_of, news_of, source_of, splice_of};

use crate::reader::piece_read;
use crate::{Also, COMMIT, COPY, HEAD, LINE, Numbers, PAGE, SHARE, Source, Splice};

/// How many records a line of so many bytes takes.
pub fn records_for(long: usize) -> usize
    ensures { result ≡ records_for long }
{
    1 + long.saturating_sub(1) / SHARE
}

/// How many of a line's bytes are in a part.
pub fn share_of(long: usize, part: usize) -> usize
    requires { part < 65536 }
    ensures { result ≡ share long part }
{
    let left = long.saturating_sub(SHARE * part);
    left.min(SHARE)
}

/// What a page takes a byte from: a byte, or a cell of memory, of which it is the lowest.
pub trait LowByte: Copy {
    ghost low: { Self → ℕ };

    fn low(self) -> u8
        ensures { result ≡ low self };
}

impl LowByte for u8 {
    ghost low = { λ byte. byte };

    fn low(self) -> u8 {
        self
    }
}

impl LowByte for u64 {
    ghost low = { λ cell. cell % 256 };

    fn low(self) -> u8 {
        (self % 256) as u8
    }
}

/// The low bytes of cells over as many bytes.
pub fn lay<B: LowByte>(out: &mut [u8], cells: &[B])
    requires { length out.old ≡ length cells.now }
    ensures { out.new ≡ map B.low cells.now }
{
    // An index, since the proof knows nothing of `out` after `iter_mut().zip(cells)`.
    for (i, cell) in cells.iter().enumerate() {
        out[i] = cell.low();
    }
}

/// The seal of a page, at its end.
fn seal(out: &mut [u8])
    requires { 0 < length out.old }
    ensures { out.new ≡ slice_set out.old (length out.old - 1) 1 }
{
    let end = out.len() - 1;
    out[end] = 1;
}

/// The end of a page: bytes, zeros behind them, and the seal.
fn close<B: LowByte>(out: &mut [u8], cells: &[B])
    requires { length cells.now < length out.old }
    ensures { out.new ≡ closed (length out.old - 1) (map B.low cells.now) }
{
    let end = out.len() - 1;
    lay(&mut out[..cells.len()], cells);
    out[cells.len()..end].fill(0);
    seal(out);
}

/// Numbers of four bytes each, the highest first.
fn put_numbers(out: &mut [u8], numbers: &[u32])
    requires { length out.old ≡ 4 * length numbers.now }
    ensures { out.new ≡ fours numbers.now }
{
    // An index, since the proof knows nothing of `out` after `chunks_exact_mut(4).zip(numbers)`.
    for (i, n) in numbers.iter().enumerate() {
        out[4 * i..4 * i + 4].copy_from_slice(&n.to_be_bytes());
    }
}

pub fn encode_head(out: &mut [u8], generation: u32, entries: u32)
    requires { 512 ≤ length out.old }
    ensures { out.new ≡ page_of (a_head generation entries) ++ drop 512 out.old }
{
    out[0] = HEAD;
    put_numbers(&mut out[1..9], &[generation, entries]);
    close::<u8>(&mut out[9..PAGE], &[]);
}

/// A part of a line that is so long, whose bytes lie in cells of memory.
pub fn encode_line(out: &mut [u8], part: u8, long: u16, cells: &[u64])
    requires { (512 ≤ length out.old) × (length cells.now ≤ 503) }
    ensures { out.new ≡ page_of (a_line part (a_piece long (low_bytes cells.now))) ++ drop 512 out.old }
{
    let [high, low] = long.to_be_bytes();
    out[0..8].copy_from_slice(&[LINE, part, high, low, 0, 0, 0, 0]);
    close(&mut out[8..PAGE], cells);
}

/// The page of a line, or of a copy, as that of a copy for an entry of the directory.
pub fn line_to_copy(read: &[u8], out: &mut [u8], index: u32)
    requires { (512 ≤ length read.now) × (512 ≤ length out.old) }
    ensures { out.new ≡ recopied index read.now ++ drop 512 out.old }
{
    out[0] = COPY;
    out[1..4].copy_from_slice(&read[1..4]);
    out[4..8].copy_from_slice(&index.to_be_bytes());
    out[8..PAGE].copy_from_slice(&read[8..PAGE]);
}

/// The page of a copy for an entry of the directory, over the front of what is put on, from the page of a line, or of a copy, that was read; and how long that
/// line is. A page that holds no line gives a copy of nothing.
pub fn copy_line(read: &[u8], out: &mut [u8], index: u32, part: u8) -> u16
    requires { 512 ≤ length out.old }
    ensures laid { out.new ≡ page_of (a_copy index part (piece_in (checked_record_of read.now))) ++ drop 512 out.old }
    ensures long { result ≡ (piece_in (checked_record_of read.now)).long }
{
    let piece = piece_read(read);
    let [high, low] = piece.long.to_be_bytes();
    out[0..4].copy_from_slice(&[COPY, part, high, low]);
    out[4..8].copy_from_slice(&index.to_be_bytes());
    close(&mut out[8..PAGE], piece.bytes);
    piece.long
}

/// The numbers that a page has for a source, read back by `Page::source` alone.
fn source_numbers(source: Source<u32>) -> (u32, u32, u32)
    ensures { result ≡ (source_kind (source_of source), source_from (source_of source), source_to (source_of source)) }
{
    match source {
        Source::Nothing => (0, 0, 0),
        Source::New => (1, 0, 0),
        Source::Copied { from, to } => (2, from, to),
    }
}

/// The numbers that a page has for what else is said, read back by `Page::also` alone.
fn also_numbers(also: Also<u32>) -> (u32, u32, u32, u32)
    ensures { (name : List ℕ) → result ≡ (also_kind (also_of also name), also_number (also_of also name), (entry_in (also_of also name)).lines, (entry_in (also_of also name)).size) }
{
    match also {
        Also::Nothing => (0, 0, 0, 0),
        Also::Push(weight) => (1, weight, 0, 0),
        Also::Store {
            slot,
            lines,
            weight,
        } => (2, slot, lines, weight),
    }
}

/// The name, if a file is stored.
fn stored_name(also: Also<u32>, name: &[u64]) -> &[u64]
    ensures { result.now ≡ name_for also name.now }
{
    match also {
        Also::Nothing | Also::Push(_) => &[],
        Also::Store { .. } => name,
    }
}

/// A commit; the name of a file that it stores lies in cells of memory. No struct of the three: it would be generic in what
/// the name is made of (a read one has bytes), and be taken apart at once wherever it comes.
pub fn encode_commit(out: &mut [u8], splice: Splice<u32>, numbers: Numbers<u32>, name: &[u64])
    requires { (512 ≤ length out.old) × (length name.now ≤ 64) }
    ensures { out.new ≡ page_of (a_commit (splice_of splice) (news_of numbers (low_bytes name.now))) ++ drop 512 out.old }
{
    let name = stored_name(numbers.also, name);
    let (source, from, to) = source_numbers(splice.source);
    let (also, number, lines, weight) = also_numbers(numbers.also);
    out[0] = COMMIT;
    put_numbers(
        &mut out[1..21],
        &[splice.from, splice.gone, source, from, to],
    );
    put_numbers(
        &mut out[21..53],
        &[
            numbers.count,
            numbers.current,
            numbers.weight,
            also,
            number,
            lines,
            weight,
            name.len() as u32,
        ],
    );
    close(&mut out[53..PAGE], name);
}
