//! What a commit makes of what is kept, the same for a command that is done and for one that is replayed.

ghost use Rattle.std.specs.Prelude.{◌≡◌, ℕ, ◌+◌, ◌-◌, ◌<◌, ◌≤◌, true, length};
ghost use Rattle.commands.specs.Code.{when};
ghost use Rattle.journal.specs.Values.{source_of, splice_of, also_of, news_of};
ghost use Rattle.memory.specs.Commit.{can_by, came_by, spliced_by, can_note, counts_by, noted_by, can_apply, kept_after, applied};
ghost use Rattle.memory.specs.Sections.{can_file as filed};

use crate::{
    Kept, NAMES, NewFile, TABLE, push_weight, set_file, splice_copied, splice_nothing,
    splice_pending,
};
use journal::{Also, Numbers, Source, Splice};
use lines::Cut;

/// How many weights there are in the ring, and how many files.
#[derive(Clone, Copy)]
struct Counts {
    ring: u64,
    files: u64,
}

/// The splice of the first `entries` entries, and how many there are then; None where it can't be done.
fn splice_entries(
    memory: &mut [u64],
    entries: u64,
    pending: u64,
    splice: Splice<u32>,
) -> Option<u64>
    requires { length memory.old ≡ 262144 }
    ensures count { result ≡ when (can_by (source_of splice.source) entries splice.from splice.gone pending) (entries - splice.gone + came_by (source_of splice.source) pending) }
    ensures memory { memory.new ≡ spliced_by (source_of splice.source) entries splice.from splice.gone pending memory.old }
{
    let cut = Cut {
        count: entries as usize,
        from: splice.from as usize,
        gone: splice.gone as usize,
    };
    match splice.source {
        Source::Nothing => splice_nothing(memory, cut),
        Source::New => splice_pending(memory, cut, pending),
        Source::Copied { from, to } => splice_copied(memory, cut, from as u64, to as u64),
    }
}

/// Whether a file that is stored has room.
fn can_note(files: u64, also: Also<u32>, name: &[u8]) -> bool
    ensures { result ≡ can_note (also_of also name.now) files }
{
    match also {
        Also::Nothing | Also::Push(_) => true,
        Also::Store { slot, .. } => { files.min(slot as u64) < TABLE as u64 && name.len() <= NAMES }
    }
}

/// What a commit says besides the numbers of the text.
fn note(memory: &mut [u64], counts: Counts, also: Also<u32>, name: &[u8]) -> Counts
    requires { length memory.old ≡ 262144 }
    ensures counts { result ≡ counts_by (also_of also name.now) counts.ring counts.files }
    ensures memory { memory.new ≡ noted_by (also_of also name.now) counts.ring counts.files memory.old }
{
    match also {
        Also::Nothing => counts,
        Also::Push(weight) => Counts {
            ring: push_weight(memory, counts.ring, weight as u64),
            files: counts.files,
        },
        Also::Store {
            slot,
            lines,
            weight,
        } => {
            let file = NewFile {
                name,
                lines: lines as u64,
                size: weight as u64,
            };
            let files = set_file(memory, counts.files, slot as u64, file);
            Counts {
                ring: counts.ring,
                files: files.unwrap_or(counts.files),
            }
        }
    }
}

/// Applies a commit, with the name of a file that it stores, and says what is kept then. None where it can't be done, and then nothing is
/// changed.
pub fn apply(
    memory: &mut [u64],
    kept: Kept,
    splice: Splice<u32>,
    numbers: Numbers<u32>,
    name: &[u8],
) -> Option<Kept>
    requires { length memory.old ≡ 262144 }
    ensures kept { result ≡ when (can_apply kept (splice_of splice) (news_of numbers name.now)) (kept_after kept (splice_of splice) (news_of numbers name.now)) }
    ensures memory { memory.new ≡ applied kept (splice_of splice) (news_of numbers name.now) memory.old }
{
    if !can_note(kept.files, numbers.also, name) {
        return None;
    }
    let entries = splice_entries(memory, kept.entries, kept.pending, splice)?;
    let counts = Counts {
        ring: kept.ring,
        files: kept.files,
    };
    let counts = note(memory, counts, numbers.also, name);
    Some(Kept {
        entries,
        pending: 0,
        count: numbers.count as u64,
        current: numbers.current as u64,
        weight: numbers.weight as u64,
        ring: counts.ring,
        files: counts.files,
    })
}
