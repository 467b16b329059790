//! Why a command is refused.
ghost use Rattle.std.specs.Prelude.{◌≡◌};
ghost use Rattle.commands.specs.Code.{refusal_number};

#[derive(Clone, Copy, PartialEq, Eq)]
pub enum Refusal {
    /// It can't be read.
    Unreadable = 1,
    /// It isn't known yet.
    Unknown = 2,
    /// There is no such file.
    NoFile = 3,
    /// There is no such line, the second stands before the first, or there is none where one is needed.
    NoLine = 4,
    /// A line would be too long, or there would be too many files.
    TooLarge = 7,
    /// There is no room for what would be kept.
    NoRoom = 8,
}

impl Refusal {
    /// The number that is said.
    pub fn number(self) -> u64
        ensures { result ≡ refusal_number self }
    {
        self as u64
    }
}
