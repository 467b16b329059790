//! Entries by what they hold.

ghost use Rattle.lines.specs.Slots.{next_on, slots};
ghost use Rattle.std.specs.Prelude.{◌≡◌};

use crate::entries::{get, len};

/// The place of an entry's top bit, which says on which tape its line is.
const TAPE_BIT: u64 = 20;

/// The first of the places `from..to` whose entry is of `tape`. Where there is none, `to`, or the end if that comes first, or `from` if that
/// comes last.
pub fn next_on(dir: &[u64], from: usize, to: usize, tape: u64) -> usize
    ensures { result ≡ next_on tape from to (slots dir.now) }
{
    let end = to.min(len(dir)).max(from);
    (from..end)
        .find(|i| get(dir, *i) >> TAPE_BIT == tape)
        .unwrap_or(end)
}
