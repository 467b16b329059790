//! The directory: where the lines of all files and of the text are.

ghost use Rattle.std.specs.Prelude.{◌≡◌, ℕ, ◌+◌, ◌-◌, ◌*◌, ◌/◌, ◌%◌, ◌<◌, ◌≤◌, ◌&&◌, length, nat_lt, slice_index, slice_set};
ghost use Rattle.commands.specs.Code.{when};
ghost use Rattle.memory.specs.Sections.{packed_position, entry_position, entry_at, next_at, with_entry, cleared, with_high, with_pending, pending_filled, can_put, can_splice, can_copy, pending_spliced, nothing_spliced, copied_spliced};

use crate::{BYTE, CELLS, DIRECTORY, TEXT, WORDS};
use lines::Cut;

/// Above a record's number an entry has its tape.
const TAPE: u64 = 1_048_576;
/// One more than the largest entry.
const ENTRY: u64 = 2_097_152;

/// Where a line's first record is.
#[derive(Clone, Copy)]
pub struct Position {
    pub tape: u64,
    pub at: u64,
}

/// No `From` either way: a name says that the number is an entry, and `entry` drops what has no room in one, where `From` would lose nothing.
impl Position {
    fn from_entry(entry: u64) -> Position
        ensures { result ≡ entry_position entry }
    {
        Position {
            tape: entry / TAPE,
            at: entry % TAPE,
        }
    }

    /// The low bit of the tape and 20 bits of the record.
    fn entry(self) -> u64
        ensures { result ≡ packed_position self.tape self.at }
    {
        self.tape % 2 * TAPE + self.at % TAPE
    }
}

/// Entry `i` of `entries`. Where there are fewer, a hole: record 0 of tape 0, which is never a line. Total, as its definition is, so that no caller
/// needs a bound.
pub fn entry(memory: &[u64], entries: u64, i: u64) -> Position
    requires { length memory.now ≡ 262144 }
    ensures { result ≡ entry_at entries i memory.now }
{
    if i < entries {
        Position::from_entry(lines::get(&memory[DIRECTORY..DIRECTORY + WORDS], i as usize))
    } else {
        Position { tape: 0, at: 0 }
    }
}

/// Entry `i` is this position, if the directory has that many.
pub fn set_entry(memory: &mut [u64], i: u64, position: Position)
    requires { length memory.old ≡ 262144 }
    ensures { memory.new ≡ with_entry i position memory.old }
{
    lines::set(
        &mut memory[DIRECTORY..DIRECTORY + WORDS],
        i as usize,
        position.entry(),
    );
}

/// The first entry from `i` on, of `entries`, that lies on a tape; or where they end.
pub fn next_on(memory: &[u64], entries: u64, i: u64, tape: u64) -> u64
    requires { length memory.now ≡ 262144 }
    ensures { result ≡ next_at tape i entries memory.now }
{
    lines::next_on(
        &memory[DIRECTORY..DIRECTORY + WORDS],
        i as usize,
        entries as usize,
        tape,
    ) as u64
}

/// All entries are holes.
pub fn clear(memory: &mut [u64])
    requires { length memory.old ≡ 262144 }
    ensures { memory.new ≡ cleared memory.old }
{
    memory[DIRECTORY..DIRECTORY + WORDS].fill(0);
}

/// An entry above the byte of cell `j`.
fn put_above(cells: &mut [u64], j: usize, entry: u64)
    requires { j < length cells.old }
    ensures { cells.new ≡ slice_set cells.old j (with_high (slice_index cells.old j) entry) }
{
    cells[j] = cells[j] % BYTE + BYTE * (entry % ENTRY);
}

/// The `j`th pending line is at this position. Says how many there are then, or None where there are too many, and then nothing is changed.
pub fn push_pending(memory: &mut [u64], j: u64, position: Position) -> Option<u64>
    requires { length memory.old ≡ 262144 }
    ensures done { result ≡ when (nat_lt j 65536) (j + 1) }
    ensures memory { memory.new ≡ with_pending j position memory.old }
{
    if j >= TEXT as u64 {
        return None;
    }
    put_above(
        &mut memory[CELLS..CELLS + TEXT],
        j as usize,
        position.entry(),
    );
    Some(j + 1)
}

/// The entries from `p` on are those of the first `k` pending lines. An index: both lie in the one memory, and split into two slices it would be
/// wanted all the same, since an entry is no item of a slice.
fn fill_pending(memory: &mut [u64], p: usize, k: usize)
    requires { (length memory.old ≡ 262144) × ((k ≤ 65536) × (p + k ≤ 524289)) }
    ensures { memory.new ≡ pending_filled p k memory.old }
{
    for i in 0..k {
        let entry = memory[CELLS + i] / BYTE;
        lines::set(&mut memory[DIRECTORY..DIRECTORY + WORDS], p + i, entry);
    }
}

/// In place of the entries that are cut: those of the first `pending` pending lines. Says how many entries there are then, or None where it
/// can't be done, and then nothing is changed.
pub fn splice_pending(memory: &mut [u64], cut: Cut, pending: u64) -> Option<u64>
    requires { length memory.old ≡ 262144 }
    ensures count { result ≡ when (can_put cut.count cut.from cut.gone pending) (cut.count - cut.gone + pending) }
    ensures memory { memory.new ≡ pending_spliced cut.count cut.from cut.gone pending memory.old }
{
    if pending > TEXT as u64 {
        return None;
    }
    let count = lines::make_room(
        &mut memory[DIRECTORY..DIRECTORY + WORDS],
        cut,
        pending as usize,
    )?;
    fill_pending(memory, cut.from, pending as usize);
    Some(count as u64)
}

/// The same, with nothing in their place.
pub fn splice_nothing(memory: &mut [u64], cut: Cut) -> Option<u64>
    requires { length memory.old ≡ 262144 }
    ensures count { result ≡ when (can_splice cut.count cut.from cut.gone 0) (cut.count - cut.gone + 0) }
    ensures memory { memory.new ≡ nothing_spliced cut.count cut.from cut.gone memory.old }
{
    let count = lines::splice(&mut memory[DIRECTORY..DIRECTORY + WORDS], cut, &[])?;
    Some(count as u64)
}

/// The same, with the entries from `x` up to `y` once more, which lie before those that go or behind them.
pub fn splice_copied(memory: &mut [u64], cut: Cut, x: u64, y: u64) -> Option<u64>
    requires { length memory.old ≡ 262144 }
    ensures count { result ≡ when (can_copy cut.count cut.from cut.gone x y) (cut.count - cut.gone + (y - x)) }
    ensures memory { memory.new ≡ copied_spliced cut.count cut.from cut.gone x y memory.old }
{
    let count = lines::duplicate(
        &mut memory[DIRECTORY..DIRECTORY + WORDS],
        cut,
        x as usize,
        y as usize,
    )?;
    Some(count as u64)
}
