//! Single entries.

ghost use Rattle.std.specs.Prelude.{◌≡◌, ℕ, ◌+◌, ◌-◌, ◌*◌, ◌/◌, ◌%◌, ◌^◌, ◌<◌, ◌≤◌, length, slice_index, slice_set};
ghost use Rattle.lines.specs.Slots.{entry, field, packed, slots, spares, stored};

/// Bits in an entry.
const BITS: usize = 21;
/// Entries in a word.
const PER_WORD: usize = 3;
/// The largest entry, which is also the mask of one.
const MASK: u64 = (1 << 21) - 1;

/// The entry at place `k` of a word.
fn unpack(word: u64, k: usize) -> u64
    requires { k < 3 }
    ensures { result ≡ field word k }
{
    (word >> (BITS * k)) & MASK
}

/// The word with the low 21 bits of `v` at place `k`, and its other bits as they were.
fn pack(word: u64, k: usize, v: u64) -> u64
    requires { k < 3 }
    ensures { result ≡ packed word k v }
{
    let shift = BITS * k;
    word - (unpack(word, k) << shift) + ((v & MASK) << shift)
}

/// How many entries there is room for.
pub fn len(dir: &[u64]) -> usize
    ensures { result ≡ length (slots dir.now) }
{
    dir.len() * PER_WORD
}

/// The entry `i`, or 0 past the end: total, as its definition `slice_index` is, so that no caller needs a bound.
pub fn get(dir: &[u64], i: usize) -> u64
    ensures { result ≡ slice_index (slots dir.now) i }
{
    let w = i / PER_WORD;
    if w < dir.len() {
        unpack(dir[w], i % PER_WORD)
    } else {
        0
    }
}

/// Writes the low 21 bits of `v` into the entry `i`. Past the end it writes nothing.
pub fn set(dir: &mut [u64], i: usize, v: u64)
    ensures words { dir.new ≡ stored dir.old i v }
    ensures entries { slots dir.new ≡ slice_set (slots dir.old) i (entry v) }
    ensures spare { spares dir.new ≡ spares dir.old }
{
    let w = i / PER_WORD;
    if w < dir.len() {
        dir[w] = pack(dir[w], i % PER_WORD, v);
    }
}
