//! How much the lines take that are put on for a command.

ghost use Rattle.std.specs.Prelude.{◌≡◌, ℕ, ◌+◌, ◌-◌, ◌*◌, ◌<◌, ◌≤◌, length};
ghost use Rattle.commands.specs.Kept.{lines_size};
ghost use Rattle.engine.specs.Packing.{lines_records, records_of as recorded};
ghost use Rattle.plain.specs.Pattern.{added_up};
ghost use Rattle.memory.specs.Abstract.{text_of, job_lines};
ghost use Rattle.memory.specs.Bounds.{records_bound, records_small, weight_bound, weight_small};

use crate::{Lines, line_end};
use commands::LINE_WEIGHT;

/// How many records a line of so many bytes takes. Not `records::records_for`: the machine's definition has three for all that is longer.
pub fn records_of(long: u64) -> u64
    ensures { result ≡ recorded long }
{
    if long > 1_006 {
        3
    } else if long > 503 {
        2
    } else {
        1
    }
}

/// What a line adds to a sum over all that are put on, by its length.
trait Measure {
    ghost size: { ℕ → ℕ };

    ghost most: { ℕ };

    fn of(long: u64) -> u64
        requires { long ≤ 65536 }
        ensures { result ≡ size long };

    /// Each byte adds at most so much, as does the line itself.
    ghost bound: { (n : ℕ) → size n ≤ most * (n + 1) };

    ghost small: { most ≤ 65 };
}

/// What it weighs.
struct Weight;

impl Measure for Weight {
    ghost size = { λ n. 64 + n };

    ghost most = { 65 };

    fn of(long: u64) -> u64 {
        LINE_WEIGHT + long
    }

    ghost bound = { weight_bound };

    ghost small = { weight_small };
}

/// How many records it takes.
struct Records;

impl Measure for Records {
    ghost size = { recorded };

    ghost most = { 3 };

    fn of(long: u64) -> u64 {
        records_of(long)
    }

    ghost bound = { records_bound };

    ghost small = { records_small };
}

/// What the lines come to that are put on, of a text of `len` bytes. `lines` and `len` are two of the fields of a `Job`: a struct of both would be
/// made anew for each call, and a `Job` has a plan and a name besides, which aren't looked at.
fn total<M: Measure>(memory: &[u64], lines: Lines, len: u64) -> u64
    requires { (length memory.now ≡ 262144) × (len ≤ 65536) }
    ensures total { result ≡ added_up (λ l. M.size (length l)) (job_lines lines (text_of len memory.now)) }
    ensures few { result ≤ M.most * 65537 }
{
    let mut sum = 0;
    let mut at = 0;
    let mut more = lines.some();
    // By hand: the next line begins where `line_end` says, and std tells little of a closure that remembers it, as its calls change it.
    while more {
        let end = line_end(memory, lines, at, len);
        sum += M::of(end - at);
        more = end < len;
        at = end + 1;
    }
    sum
}

/// What the lines weigh that are put on, of a text of `len` bytes.
pub fn lines_weight(memory: &[u64], lines: Lines, len: u64) -> u64
    requires { (length memory.now ≡ 262144) × (len ≤ 65536) }
    ensures total { result ≡ lines_size (job_lines lines (text_of len memory.now)) }
    ensures few { result ≤ 4259905 }
{
    total::<Weight>(memory, lines, len)
}

/// How many records they take.
pub fn lines_records(memory: &[u64], lines: Lines, len: u64) -> u64
    requires { (length memory.now ≡ 262144) × (len ≤ 65536) }
    ensures total { result ≡ lines_records (job_lines lines (text_of len memory.now)) }
    ensures few { result ≤ 196611 }
{
    total::<Records>(memory, lines, len)
}
