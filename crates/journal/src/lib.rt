//! The log on two tapes: what replaying records gives, what a stop leaves of them, how what is needed is carried to the other tape, and how an engine above it is
//! run beside the plain house. Each law is the contract of a function that does nothing.
#![tactic(auto)]

ghost use Rattle.std.specs.Prelude.{◌≡◌, ◌<◌, ◌==◌};
ghost use Rattle.journal.specs.Log.{choose, next_generation};
ghost use Rattle.journal.specs.Tapes.{which_of};
ghost use Rattle.journal.specs.Laws.{ApplyNatural, CommitAllAtOnce, CompactionKeepsLines, NoFullTape, StopKeepsState, TornTailUnseen, WithinGrant};

mod commit;

pub use commit::{Also, Numbers, Source, Splice};

/// The generation after which 1 comes again.
pub const LAST_GENERATION: u64 = 3;

/// A tape by its place on the device.
#[derive(Clone, Copy)]
pub enum Tape {
    First,
    Second,
}

/// The generation behind one: they are 1, 2 and 3 in turn.
pub fn generation_after(generation: u64) -> u64
    requires { generation < 4294967296 }
    ensures { result ≡ next_generation generation }
{
    if generation == LAST_GENERATION {
        1
    } else {
        generation + 1
    }
}

/// Whether a tape of generation `newer` was begun for compaction of one of generation `older`.
fn follows(newer: u32, older: u32) -> bool
    ensures { result ≡ (newer == next_generation older) }
{
    u64::from(newer) == generation_after(u64::from(older))
}

/// Which tape counts, by the generations that the heads of both name, 0 where there is no head: of two the older one, since the newer may not have everything
/// yet; none where there is no head at all. No `Option` of a generation, since the definition of the generation of a tape has 0 for no head.
pub fn counting(first: u32, second: u32) -> Option<Tape>
    ensures { which_of result ≡ choose first second }
{
    match (first, second) {
        (0, 0) => None,
        (_, 0) => Some(Tape::First),
        (0, _) => Some(Tape::Second),
        _ if follows(second, first) => Some(Tape::First),
        _ => Some(Tape::Second),
    }
}

/// A splice of the directory does the same to positions and to the lines that lie there.
pub fn apply_natural()
    ensures { ApplyNatural }
{}

/// Replay sees neither lines that no commit follows, nor a torn record and what stands behind it.
pub fn torn_tail_unseen()
    ensures { TornTailUnseen }
{}

/// A commit record changes the directory and the small state at once; a stop before it leaves both as they were.
pub fn commit_all_at_once()
    ensures { CommitAllAtOnce }
{}

/// A stop at any moment of a command leaves on the tape that counts the state before the command, or the one after it.
pub fn stop_keeps_state()
    ensures { StopKeepsState }
{}

/// When no entry of the directory lies on the old tape any more, the new one alone has the same lines and the same small state.
pub fn compaction_keeps_lines()
    ensures { CompactionKeepsLines }
{}

/// Neither tape gets full before all has been carried.
pub fn no_full_tape()
    ensures { NoFullTape }
{}

/// A command that carries entries to the other tape stays within the records that are granted to it.
pub fn within_grant()
    ensures { WithinGrant }
{}
