//! Entries put in, taken out, copied and moved. Loops go over indices: three entries share a word, so there is no slice of them to go over.

ghost use Rattle.std.specs.Prelude.{◌≡◌, ℕ, ◌+◌, ◌-◌, ◌≤◌, map, length, take, drop, IsErr, IsOk, Some, None, slice_range};
ghost use Rattle.lines.specs.Moves.{Duplicates, Splices, copied, edited, reversed, rotated, spliced, swapped};
ghost use Rattle.lines.specs.Slots.{entry, slots, spares};

use crate::cut::Cut;
use crate::entries::{get, len, set};

/// What was to be moved isn't there, or has no room where it was to go.
#[derive(Clone, Copy, PartialEq, Eq)]
pub struct OutOfRange;

/// Copies `n` entries to places further to the front, the first one first. No one function with `copy_up`: where the places overlap the order
/// must be this one here and the other one there, so it would be told the order as a flag.
fn copy_down(dir: &mut [u64], from: usize, n: usize, to: usize)
    requires { (to ≤ from) × (from + n ≤ length (slots dir.old)) }
    ensures entries { slots dir.new ≡ copied from n to (slots dir.old) }
    ensures spare { spares dir.new ≡ spares dir.old }
{
    for i in 0..n {
        let v = get(dir, from + i);
        set(dir, to + i, v);
    }
}

/// Copies `n` entries to places further back, the last one first.
fn copy_up(dir: &mut [u64], from: usize, n: usize, to: usize)
    requires { (from ≤ to) × (to + n ≤ length (slots dir.old)) }
    ensures entries { slots dir.new ≡ copied from n to (slots dir.old) }
    ensures spare { spares dir.new ≡ spares dir.old }
{
    for i in (0..n).rev() {
        let v = get(dir, from + i);
        set(dir, to + i, v);
    }
}

/// Copies the `n` entries from `from` on to the places from `to` on, both of which are there, whether they overlap or not. Where they stand
/// there already nothing is to be done.
fn copy_within(dir: &mut [u64], from: usize, n: usize, to: usize)
    requires { (from + n ≤ length (slots dir.old)) × (to + n ≤ length (slots dir.old)) }
    ensures entries { slots dir.new ≡ copied from n to (slots dir.old) }
    ensures spare { spares dir.new ≡ spares dir.old }
{
    if to == from {
        return;
    }
    if to < from {
        copy_down(dir, from, n, to);
    } else {
        copy_up(dir, from, n, to);
    }
}

/// Copies the `n` entries from `from` on to the places from `to` on, whether they overlap or not. Refused where these are no entries of the
/// directory, and then nothing is changed.
pub fn copy(dir: &mut [u64], from: usize, n: usize, to: usize) -> Result<(), OutOfRange>
    ensures done { from + n ≤ length (slots dir.old) → to + n ≤ length (slots dir.old) → (IsOk result) × (slots dir.new ≡ copied from n to (slots dir.old)) }
    ensures refused { (from + n ≤ length (slots dir.old) → to + n ≤ length (slots dir.old) → ⊥) → (IsErr result) × (dir.new ≡ dir.old) }
    ensures spare { spares dir.new ≡ spares dir.old }
{
    let room = len(dir);
    if n <= room && from <= room - n && to <= room - n {
        copy_within(dir, from, n, to);
        Ok(())
    } else {
        Err(OutOfRange)
    }
}

/// Writes the low 21 bits of each of `new` into the entries from `p` on, which are there.
fn fill_within(dir: &mut [u64], p: usize, new: &[u64])
    requires { p + length new.now ≤ length (slots dir.old) }
    ensures entries { slots dir.new ≡ spliced p (length new.now) (map entry new.now) (slots dir.old) }
    ensures spare { spares dir.new ≡ spares dir.old }
{
    for (i, v) in new.iter().enumerate() {
        set(dir, p + i, *v);
    }
}

/// Writes the low 21 bits of each of `new` into the entries from `p` on. Refused where they aren't all there, and then nothing is changed.
pub fn fill(dir: &mut [u64], p: usize, new: &[u64]) -> Result<(), OutOfRange>
    ensures done { p + length new.now ≤ length (slots dir.old) → (IsOk result) × (slots dir.new ≡ spliced p (length new.now) (map entry new.now) (slots dir.old)) }
    ensures refused { (p + length new.now ≤ length (slots dir.old) → ⊥) → (IsErr result) × (dir.new ≡ dir.old) }
    ensures spare { spares dir.new ≡ spares dir.old }
{
    let room = len(dir);
    if p <= room && new.len() <= room - p {
        fill_within(dir, p, new);
        Ok(())
    } else {
        Err(OutOfRange)
    }
}

/// Moves what stands behind the entries that are cut, so that `k` places are there in place of these, which have room.
fn open_gap(dir: &mut [u64], cut: Cut, k: usize)
    requires { Splices (length (slots dir.old)) cut.count cut.from cut.gone k }
    ensures entries { slots dir.new ≡ copied (cut.from + cut.gone) (cut.count - (cut.from + cut.gone)) (cut.from + k) (slots dir.old) }
    ensures spare { spares dir.new ≡ spares dir.old }
{
    let behind = cut.from + cut.gone;
    copy_within(dir, behind, cut.count - behind, cut.from + k);
}

/// Moves what stands behind the entries that are cut, so that `k` places are there in place of these, and says how many entries are in use
/// then. What the places hold is what stood there. None where it can't be done, and then nothing is changed: here and in `splice` and `duplicate`
/// a count comes back, and `OutOfRange` would say no more than None.
pub fn make_room(dir: &mut [u64], cut: Cut, k: usize) -> Option<usize>
    ensures done { Splices (length (slots dir.old)) cut.count cut.from cut.gone k → (result ≡ Some (cut.count - cut.gone + k)) × (slots dir.new ≡ copied (cut.from + cut.gone) (cut.count - (cut.from + cut.gone)) (cut.from + k) (slots dir.old)) }
    ensures refused { (Splices (length (slots dir.old)) cut.count cut.from cut.gone k → ⊥) → (result ≡ None) × (dir.new ≡ dir.old) }
    ensures spare { spares dir.new ≡ spares dir.old }
{
    if !cut.takes(len(dir), k) {
        return None;
    }
    open_gap(dir, cut, k);
    Some(cut.count - cut.gone + k)
}

/// In place of the entries that are cut: the low 21 bits of each of `new`. Says how many entries are in use then. None where that can't be
/// done, and then nothing is changed.
pub fn splice(dir: &mut [u64], cut: Cut, new: &[u64]) -> Option<usize>
    ensures done { Splices (length (slots dir.old)) cut.count cut.from cut.gone (length new.now) → (result ≡ Some (cut.count - cut.gone + length new.now)) × (slots dir.new ≡ edited cut.count cut.from cut.gone (map entry new.now) (slots dir.old)) }
    ensures refused { (Splices (length (slots dir.old)) cut.count cut.from cut.gone (length new.now) → ⊥) → (result ≡ None) × (dir.new ≡ dir.old) }
    ensures spare { spares dir.new ≡ spares dir.old }
{
    if !cut.takes(len(dir), new.len()) {
        return None;
    }
    open_gap(dir, cut, new.len());
    fill_within(dir, cut.from, new);
    Some(cut.count - cut.gone + new.len())
}

/// In place of the entries that are cut: a copy of the entries `x..y`, which lie before those or behind them. Says how many entries are in
/// use then. None where that can't be done, and then nothing is changed.
pub fn duplicate(dir: &mut [u64], cut: Cut, x: usize, y: usize) -> Option<usize>
    ensures done { Duplicates (length (slots dir.old)) cut.count cut.from cut.gone x y → (result ≡ Some (cut.count - cut.gone + (y - x))) × (slots dir.new ≡ edited cut.count cut.from cut.gone (slice_range (slots dir.old) x y) (slots dir.old)) }
    ensures refused { (Duplicates (length (slots dir.old)) cut.count cut.from cut.gone x y → ⊥) → (result ≡ None) × (dir.new ≡ dir.old) }
    ensures spare { spares dir.new ≡ spares dir.old }
{
    if x > y || !cut.takes(len(dir), y - x) {
        return None;
    }
    let n = y - x;
    // Those behind move with what stands there.
    let from = if y <= cut.from {
        x
    } else if cut.from + cut.gone <= x && y <= cut.count {
        x - cut.gone + n
    } else {
        return None;
    };
    open_gap(dir, cut, n);
    copy_within(dir, from, n, cut.from);
    Some(cut.count - cut.gone + n)
}

/// Exchanges the entries `i` and `j`.
fn swap(dir: &mut [u64], i: usize, j: usize)
    ensures entries { slots dir.new ≡ swapped i j (slots dir.old) }
    ensures spare { spares dir.new ≡ spares dir.old }
{
    let x = get(dir, i);
    let y = get(dir, j);
    set(dir, i, y);
    set(dir, j, x);
}

/// Reverses the entries `lo..hi`, which are there.
fn reverse_within(dir: &mut [u64], lo: usize, hi: usize)
    requires { (lo ≤ hi) × (hi ≤ length (slots dir.old)) }
    ensures entries { slots dir.new ≡ reversed lo hi (slots dir.old) }
    ensures spare { spares dir.new ≡ spares dir.old }
{
    for i in 0..(hi - lo) / 2 {
        swap(dir, lo + i, hi - 1 - i);
    }
}

/// Reverses the entries `lo..hi`. Refused where that is no range of the directory, and then nothing is changed.
pub fn reverse(dir: &mut [u64], lo: usize, hi: usize) -> Result<(), OutOfRange>
    ensures done { lo ≤ hi → hi ≤ length (slots dir.old) → (IsOk result) × (slots dir.new ≡ reversed lo hi (slots dir.old)) }
    ensures refused { (lo ≤ hi → hi ≤ length (slots dir.old) → ⊥) → (IsErr result) × (dir.new ≡ dir.old) }
    ensures spare { spares dir.new ≡ spares dir.old }
{
    if lo <= hi && hi <= len(dir) {
        reverse_within(dir, lo, hi);
        Ok(())
    } else {
        Err(OutOfRange)
    }
}

/// Moves the entries `mid..hi` in front of the entries `lo..mid`. Refused where these are no ranges of the directory, and then nothing is
/// changed.
pub fn rotate(dir: &mut [u64], lo: usize, mid: usize, hi: usize) -> Result<(), OutOfRange>
    ensures done { lo ≤ mid → mid ≤ hi → hi ≤ length (slots dir.old) → (IsOk result) × (slots dir.new ≡ rotated lo mid hi (slots dir.old)) }
    ensures refused { (lo ≤ mid → mid ≤ hi → hi ≤ length (slots dir.old) → ⊥) → (IsErr result) × (dir.new ≡ dir.old) }
    ensures spare { spares dir.new ≡ spares dir.old }
{
    if lo <= mid && mid <= hi && hi <= len(dir) {
        reverse_within(dir, lo, mid);
        reverse_within(dir, mid, hi);
        reverse_within(dir, lo, hi);
        Ok(())
    } else {
        Err(OutOfRange)
    }
}
