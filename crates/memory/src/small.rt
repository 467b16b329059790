//! The small state beside the directory: weights of stands, and the table of files.

ghost use Rattle.std.specs.Prelude.{◌≡◌, ℕ, ◌+◌, ◌-◌, ◌*◌, ◌<◌, ◌≤◌, map, length, take, drop, nat_le, slice_index};
ghost use Rattle.std.specs.Prelude.{sum as std_sum, ◌%◌, ◌^◌, ◌==◌};
ghost use Rattle.std.specs.List.{list_all, zip};
ghost use Rattle.plain.specs.Device.{lesser};
ghost use Rattle.plain.specs.Pattern.{added_up, same};
ghost use Rattle.commands.specs.Code.{when, slot_as};
ghost use Rattle.commands.specs.Kept.{sum as summed};
ghost use Rattle.commands.specs.Plan.{look_up};
ghost use Rattle.commands.specs.Smalls.{entry_size, smalls_weight, oldest as first_weight};
ghost use Rattle.memory.specs.Abstract.{ring_of, files_of, small_of, file_head};
ghost use Rattle.memory.specs.Numbers.{capped};
ghost use Rattle.memory.specs.Registers.{part, with_part, TameKept};
ghost use Rattle.memory.specs.Sections.{low, files_in, name_in, ring_in, ring_count, ring_pushed, with_weight, over, name_kept, file_numbers, with_file, can_file, file_count, file_set};

use crate::{FILE, FILES, Kept, LIMIT, NAME, NAMES, RING, TABLE, WEIGHTS};
use commands::{FILE_WEIGHT, Slot};

/// One more weight behind the `n` that there are; a 65th drops the oldest.
fn push(ring: &mut [u64], n: usize, weight: u64)
    requires { length ring.old ≡ 64 }
    ensures { ring.new ≡ ring_pushed n weight ring.old }
{
    if n < WEIGHTS {
        ring[n] = weight % LIMIT;
        return;
    }
    ring.rotate_left(1);
    ring[WEIGHTS - 1] = weight % LIMIT;
}

/// One more weight in the ring, and how many there are then.
pub fn push_weight(memory: &mut [u64], ring: u64, weight: u64) -> u64
    requires { length memory.old ≡ 262144 }
    ensures count { result ≡ ring_count ring }
    ensures memory { memory.new ≡ with_weight ring weight memory.old }
{
    push(&mut memory[RING..RING + WEIGHTS], ring as usize, weight);
    ring.saturating_add(1).min(WEIGHTS as u64)
}

/// The numbers of registers, added up.
fn capped_sum(weights: &[u64]) -> u64
    requires { std_sum (map capped weights.now) < 2 ^ 64 }
    ensures { result ≡ std_sum (map capped weights.now) }
{
    weights.iter().map(|weight| *weight % LIMIT).sum()
}

fn sum(weights: &[u64]) -> u64
    requires { length weights.now ≤ 64 }
    ensures total { result ≡ summed (map capped weights.now) }
    ensures few { result ≤ 274877906944 }
{
    capped_sum(weights)
}

/// What all stands weigh.
pub fn ring_weight(memory: &[u64], ring: u64) -> u64
    requires { (length memory.now ≡ 262144) × (ring ≤ 64) }
    ensures total { result ≡ summed (ring_of ring memory.now) }
    ensures few { result ≤ 274877906944 }
{
    sum(&memory[RING..RING + ring as usize])
}

/// Weight `i` of the ring, the oldest first.
pub fn weight_at(memory: &[u64], i: u64) -> u64
    requires { (length memory.now ≡ 262144) × (i < 64) }
    ensures { result ≡ capped (slice_index (ring_in memory.now) i) }
{
    let ring = &memory[RING..RING + WEIGHTS];
    ring[i as usize] % LIMIT
}

/// What one more weight would drop.
pub fn oldest(memory: &[u64], ring: u64) -> u64
    requires { (length memory.now ≡ 262144) × (ring ≤ 64) }
    ensures { result ≡ first_weight (ring_of ring memory.now) }
{
    if ring < WEIGHTS as u64 {
        0
    } else {
        memory[RING] % LIMIT
    }
}

/// A file in the table. How many there are (at most 64) is a number of `Kept`, as is the ring's, since the table lies in the fixed memory: so the
/// functions below ask for that bound.
#[derive(Clone, Copy)]
pub struct File {
    /// How many bytes its name has.
    pub name: u64,
    pub lines: u64,
    /// What its lines weigh.
    pub size: u64,
}

/// The numbers of file `i`.
fn numbers(memory: &[u64], i: u64) -> &[u64]
    requires { (length memory.now ≡ 262144) × (i < 64) }
    ensures numbers { result.now ≡ part (67 * i) 67 (files_in memory.now) }
    ensures long { length result.now ≡ 67 }
{
    let table = &memory[FILES..FILES + FILE * TABLE];
    let at = FILE * i as usize;
    &table[at..at + FILE]
}

/// File `i` of the table.
pub fn file_at(memory: &[u64], i: u64) -> File
    requires { (length memory.now ≡ 262144) × (i < 64) }
    ensures { result ≡ file_head (part (67 * i) 67 (files_in memory.now)) }
{
    let numbers = numbers(memory, i);
    File {
        name: numbers[0] % 65,
        lines: numbers[1] % LIMIT,
        size: numbers[2] % LIMIT,
    }
}

/// The cells of its name.
pub fn file_name(memory: &[u64], i: u64) -> &[u64]
    requires { (length memory.now ≡ 262144) × (i < 64) }
    ensures { result.now ≡ take (file_head (part (67 * i) 67 (files_in memory.now))).name (drop 3 (part (67 * i) 67 (files_in memory.now))) }
{
    let numbers = numbers(memory, i);
    let long = (numbers[0] % 65) as usize;
    &numbers[3..3 + long]
}

// The two sums are loops: `(0..files).map(..).sum()` was tried, and its proof didn't close. A trait of what a file adds, for one loop in place of
// them, would with its two laws be longer than both.

/// Where the lines of all files end in the directory, and those of the text begin.
pub fn file_lines(memory: &[u64], files: u64) -> u64
    requires { (length memory.now ≡ 262144) × (files ≤ 64) }
    ensures total { result ≡ added_up (λ e. e.lines) (files_of files memory.now) }
    ensures few { result ≤ 274877906944 }
{
    let mut lines = 0;
    for i in 0..files {
        lines += file_at(memory, i).lines;
    }
    lines
}

/// What all files weigh. (`execution` has the same sum for one file: a method would ask for the bounds of both numbers, and be longer than the sum.)
pub fn file_weight(memory: &[u64], files: u64) -> u64
    requires { (length memory.now ≡ 262144) × (files ≤ 64) }
    ensures total { result ≡ added_up entry_size (files_of files memory.now) }
    ensures few { result ≤ 274877919232 }
{
    let mut weight = 0;
    for i in 0..files {
        let file = file_at(memory, i);
        weight += FILE_WEIGHT + file.name + file.size;
    }
    weight
}

/// What all that is kept weighs.
pub fn total_weight(memory: &[u64], kept: Kept) -> u64
    requires { (length memory.now ≡ 262144) × (TameKept kept) }
    ensures total { result ≡ smalls_weight (small_of kept memory.now) }
{
    kept.weight + ring_weight(memory, kept.ring) + file_weight(memory, kept.files)
}

/// Whether cells hold this name.
#[tactic(auto, using(crate::proofs::Filing::same_zip, crate::proofs::Filing::same_unlike))]
fn same_name(cells: &[u64], name: &[u8]) -> bool
    ensures { result ≡ same (map low cells.now) name.now }
{
    cells.len() == name.len() && same_bytes(cells, name)
}

/// Whether each cell holds the byte beside it.
fn same_bytes(cells: &[u64], name: &[u8]) -> bool
    ensures { result ≡ list_all (λ p. p.0 % 256 == p.1) (zip cells.now name.now) }
{
    cells
        .iter()
        .zip(name)
        .all(|(cell, byte)| *cell % 256 == u64::from(*byte))
}

/// Where the file of a name is in the table, or would come. A loop by hand, since it tells the lines of all files before it too, which `find` doesn't.
pub fn find_file(memory: &[u64], files: u64, name: &[u8]) -> Slot
    requires { (length memory.now ≡ 262144) × (files ≤ 64) }
    ensures { slot_as result ≡ look_up name.now 0 0 (files_of files memory.now) }
{
    let mut before = 0;
    for i in 0..files {
        let file = file_at(memory, i);
        if same_name(file_name(memory, i), name) {
            return Slot {
                found: true,
                place: i,
                before,
                lines: file.lines,
                size: file.size,
            };
        }
        before += file.lines;
    }
    Slot {
        found: false,
        place: files,
        before,
        lines: 0,
        size: 0,
    }
}

/// Bytes over the front of a section.
fn lay(section: &mut [u64], bytes: &[u8])
    requires { length bytes.now ≤ length section.old }
    ensures { section.new ≡ over bytes.now section.old }
{
    // An index, since the proof knows nothing of `section` after `iter_mut().zip(bytes)`.
    for (i, byte) in bytes.iter().enumerate() {
        section[i] = *byte as u64 % 256;
    }
}

/// A file that is put in the table.
#[derive(Clone, Copy)]
pub struct NewFile<'a> {
    pub name: &'a [u8],
    pub lines: u64,
    /// What its lines weigh.
    pub size: u64,
}

/// The numbers of a file.
fn put_file(numbers: &mut [u64], file: NewFile<'_>)
    requires { (length numbers.old ≡ 67) × (length file.name.now ≤ 64) }
    ensures { numbers.new ≡ file_numbers file.entry.name.now file.entry.lines file.entry.size numbers.old }
{
    numbers[0..3].copy_from_slice(&[
        file.name.len() as u64,
        file.lines % LIMIT,
        file.size % LIMIT,
    ]);
    lay(&mut numbers[3..67], file.name);
}

/// The same in place `i` of the table.
fn put_file_at(table: &mut [u64], i: usize, file: NewFile<'_>)
    requires { (length table.old ≡ 4288) × ((i < 64) × (length file.name.now ≤ 64)) }
    ensures { table.new ≡ with_part (67 * i) 67 table.old (file_numbers file.entry.name.now file.entry.lines file.entry.size (part (67 * i) 67 table.old)) }
{
    let at = FILE * i;
    put_file(&mut table[at..at + FILE], file);
}

/// The place of file `i` of `files`; past the last it is a new one.
fn place_of(files: u64, i: u64) -> u64
    ensures { result ≡ lesser i files }
{
    i.min(files)
}

/// How many files there are then.
fn files_with(files: u64, i: u64) -> u64
    requires { lesser i files < 64 }
    ensures { result ≡ file_count files i }
{
    if i < files { files } else { files + 1 }
}

/// File `i` of `files` is this one; past the last it is a new one. Says how many there are then, or None where there are too many or the name
/// is too long, and then nothing is changed.
pub fn set_file(memory: &mut [u64], files: u64, i: u64, file: NewFile<'_>) -> Option<u64>
    requires { length memory.old ≡ 262144 }
    ensures count { result ≡ when (can_file files i (length file.entry.name.now)) (file_count files i) }
    ensures memory { memory.new ≡ file_set files i file.entry.name.now file.entry.lines file.entry.size memory.old }
{
    let place = place_of(files, i);
    if place >= TABLE as u64 {
        return None;
    }
    if file.name.len() > NAMES {
        return None;
    }
    put_file_at(
        &mut memory[FILES..FILES + FILE * TABLE],
        place as usize,
        file,
    );
    Some(files_with(files, i))
}

/// The name that a command has. Says how many bytes it has, or None where it is too long, and then nothing is changed.
pub fn keep_name(memory: &mut [u64], name: &[u8]) -> Option<u64>
    requires { length memory.old ≡ 262144 }
    ensures done { result ≡ when (nat_le (length name.now) 64) (length name.now) }
    ensures memory { memory.new ≡ name_kept name.now memory.old }
{
    if name.len() > NAMES {
        return None;
    }
    lay(&mut memory[NAME..NAME + NAMES], name);
    Some(name.len() as u64)
}

/// The first `n` cells of that name.
pub fn kept_name(memory: &[u64], n: u64) -> &[u64]
    requires { (length memory.now ≡ 262144) × (n ≤ 64) }
    ensures { result.now ≡ take n (name_in memory.now) }
{
    let cells = &memory[NAME..NAME + NAMES];
    &cells[..n as usize]
}
