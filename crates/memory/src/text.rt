//! Text in the cells: lines given, or bytes that are shown or joined.

ghost use Rattle.std.specs.Prelude.{◌≡◌, ℕ, ◌+◌, ◌-◌, ◌<◌, ◌≤◌, ◌++◌, map, length, take, drop, nat_le};
ghost use Rattle.std.specs.Prelude.{not, ◌%◌, ◌==◌};
ghost use Rattle.std.specs.List.{take_while};
ghost use Rattle.commands.specs.Code.{when};
ghost use Rattle.memory.specs.Abstract.{text_of, line_end as ending};
ghost use Rattle.memory.specs.Registers.{part};
ghost use Rattle.memory.specs.Sections.{low, cells_in, laid_low, extended, newline as ended};

use crate::{BYTE, CELLS, Lines, TEXT};

/// Between lines stands this byte.
const NEWLINE: u64 = 10;

/// Bytes over the low bytes of as many cells.
fn lay_low(cells: &mut [u64], bytes: &[u8])
    requires { length cells.old ≡ length bytes.now }
    ensures { cells.new ≡ laid_low bytes.now cells.old }
{
    // An index, since the proof knows nothing of `cells` after `iter_mut().zip(bytes)`.
    for (i, byte) in bytes.iter().enumerate() {
        cells[i] = cells[i] / BYTE * BYTE + *byte as u64 % BYTE;
    }
}

/// Bytes over the low bytes of cells, from one on, which are there.
fn lay_from(cells: &mut [u64], at: usize, bytes: &[u8])
    requires { at + length bytes.now ≤ length cells.old }
    ensures { cells.new ≡ take at cells.old ++ laid_low bytes.now (drop at cells.old) }
{
    lay_low(&mut cells[at..at + bytes.len()], bytes);
}

/// More bytes behind the first `at`. Says how many there are then, or None where there are too many, and then nothing is changed.
pub fn extend(memory: &mut [u64], at: u64, bytes: &[u8]) -> Option<u64>
    requires { (length memory.old ≡ 262144) × (at ≤ 65536) }
    ensures done { result ≡ when (nat_le (at + length bytes.now) 65536) (at + length bytes.now) }
    ensures memory { memory.new ≡ extended at bytes.now memory.old }
{
    if bytes.len() > TEXT - at as usize {
        return None;
    }
    lay_from(&mut memory[CELLS..CELLS + TEXT], at as usize, bytes);
    Some(at + bytes.len() as u64)
}

/// A text, from the first cell on. Says how many bytes it has, or None where it is too long, and then nothing is changed.
pub fn keep(memory: &mut [u64], bytes: &[u8]) -> Option<u64>
    requires { length memory.old ≡ 262144 }
    ensures done { result ≡ when (nat_le (0 + length bytes.now) 65536) (0 + length bytes.now) }
    ensures memory { memory.new ≡ extended 0 bytes.now memory.old }
{
    extend(memory, 0, bytes)
}

/// Cells of the text, from one on.
pub fn text_cells(memory: &[u64], from: u64, n: u64) -> &[u64]
    requires { (length memory.now ≡ 262144) × (from + n ≤ 65536) }
    ensures cells { result.now ≡ take n (drop from (cells_in memory.now)) }
    ensures long { length result.now ≡ n }
{
    let cells = &memory[CELLS..CELLS + TEXT];
    &cells[from as usize..(from + n) as usize]
}

/// The low bytes of cells over as many bytes: `records::lay`, told in the words of this crate.
pub fn copy_low(cells: &[u64], out: &mut [u8])
    requires { length out.old ≡ length cells.now }
    ensures { out.new ≡ map low cells.now }
{
    records::lay(out, cells);
}

/// Bytes of the text over the front of a row.
pub fn copy_out(memory: &[u64], from: u64, n: u64, out: &mut [u8])
    requires { (length memory.now ≡ 262144) × ((from + n ≤ 65536) × (n ≤ length out.old)) }
    ensures { out.new ≡ map low (take n (drop from (cells_in memory.now))) ++ drop n out.old }
{
    copy_low(text_cells(memory, from, n), &mut out[..n as usize]);
}

/// How many of the low bytes of cells stand before a newline.
fn line_long(cells: &[u64]) -> usize
    ensures { result ≡ length (take_while (λ cell. not (cell % 256 == 10)) cells.now) }
{
    cells
        .iter()
        .take_while(|cell| **cell % BYTE != NEWLINE)
        .count()
}

/// The place of the first newline among the low bytes of cells from `from` on, or behind the last.
#[tactic(auto, using(crate::proofs::Texting::newline_from))]
fn newline(cells: &[u64], from: usize) -> usize
    requires { from ≤ length cells.now }
    ensures { result ≡ ended from (drop from (map low cells.now)) }
{
    from + line_long(&cells[from..])
}

/// Where the line ends that begins at `from` in the first `len` bytes: at the next newline, or behind the last byte.
pub fn line_end(memory: &[u64], lines: Lines, from: u64, len: u64) -> u64
    requires { (length memory.now ≡ 262144) × ((from ≤ len) × (len ≤ 65536)) }
    ensures end { result ≡ ending lines from (text_of len memory.now) }
    ensures behind { from ≤ result }
    ensures within { result ≤ len }
{
    match lines {
        Lines::Given => newline(text_cells(memory, 0, len), from as usize) as u64,
        Lines::Joined | Lines::Nothing => len,
    }
}
