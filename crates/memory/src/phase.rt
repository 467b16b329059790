//! What the last act was.

ghost use Rattle.std.specs.Prelude.{◌≡◌};
ghost use Rattle.memory.specs.Numbers.{phase_of as decoded, phase_number as numbered};

#[derive(Clone, Copy, PartialEq, Eq, Default)]
pub enum Phase {
    /// A command ended.
    #[default]
    Idle = 0,
    /// The first record of tape 0 was asked for.
    WakeFirst = 1,
    /// And of tape 1.
    WakeSecond = 2,
    /// A record of the tape that counts was asked for.
    Replaying = 3,
    /// No tape counts: tape 0 was begun anew.
    FreshBegun = 4,
    /// Its head was put on.
    FreshHead = 5,
    /// It was fastened.
    FreshFast = 6,
    /// The other tape was begun anew.
    CompactBegun = 7,
    /// Its head, or a record of the small state, was put on.
    SettingUp = 8,
    /// A record of an entry was asked for.
    CarryRead = 9,
    /// And put on the other tape.
    CarryPut = 10,
    /// The other tape was fastened.
    CompactFast = 11,
    /// The old tape was begun anew.
    Switched = 12,
    /// A record of a line was asked for.
    Fetching = 13,
    /// A line was shown.
    RowShown = 14,
    /// A record of a new line was put on.
    LinePut = 15,
    /// The commit was put on.
    CommitPut = 16,
    /// The tape that counts was fastened.
    CommitFast = 17,
    /// A number was shown.
    CountShown = 18,
    /// A row of the table of files was shown.
    FileShown = 19,
}

/// The phases by their numbers. They stand here once more, since there is no cast from a number to an enum.
const PHASES: [Phase; 20] = [
    Phase::Idle,
    Phase::WakeFirst,
    Phase::WakeSecond,
    Phase::Replaying,
    Phase::FreshBegun,
    Phase::FreshHead,
    Phase::FreshFast,
    Phase::CompactBegun,
    Phase::SettingUp,
    Phase::CarryRead,
    Phase::CarryPut,
    Phase::CompactFast,
    Phase::Switched,
    Phase::Fetching,
    Phase::RowShown,
    Phase::LinePut,
    Phase::CommitPut,
    Phase::CommitFast,
    Phase::CountShown,
    Phase::FileShown,
];

/// The phase of a number; of others than these, idle.
impl From<u64> for Phase {
    ghost from_gives = { λ n phase. phase ≡ decoded n };

    fn from(n: u64) -> Self {
        PHASES.get(n as usize).copied().unwrap_or_default()
    }
}

impl From<Phase> for u64 {
    ghost from_gives = { λ phase n. n ≡ numbered phase };

    fn from(phase: Phase) -> Self {
        phase as u64
    }
}
