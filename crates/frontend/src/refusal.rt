//! That a command is refused, and why, in words.

use thiserror::Error;

/// The number by which a command is refused.
#[derive(Clone, Copy, Debug, Error)]
#[error("refused {0}")]
pub struct Refused(pub u64);

/// What a refusal's number says.
#[derive(Clone, Copy, Debug, Error)]
pub enum Reason {
    #[error("it can't be read")]
    Unreadable,
    #[error("it isn't known yet")]
    Unknown,
    #[error("no such mark or file")]
    NoSuchName,
    #[error("no such line")]
    NoSuchLine,
    #[error("nothing matches")]
    NoMatch,
    #[error("nothing was replaced")]
    NotReplaced,
    #[error("a line is too long, or there are too many files")]
    TooMuch,
    #[error("no room")]
    NoRoom,
    #[error("nothing to take back or do again")]
    NoHistory,
    #[error("no pattern was given, or it is none")]
    NoPattern,
}

/// What is refused is told by a number, as the promise has it, so numbers are matched here. No command is refused with another, and it comes back.
impl TryFrom<Refused> for Reason {
    type Error = Refused;

    fn try_from(refused: Refused) -> Result<Reason, Refused> {
        match refused.0 {
            1 => Ok(Reason::Unreadable),
            2 => Ok(Reason::Unknown),
            3 => Ok(Reason::NoSuchName),
            4 => Ok(Reason::NoSuchLine),
            5 => Ok(Reason::NoMatch),
            6 => Ok(Reason::NotReplaced),
            7 => Ok(Reason::TooMuch),
            8 => Ok(Reason::NoRoom),
            9 => Ok(Reason::NoHistory),
            10 => Ok(Reason::NoPattern),
            _ => Err(refused),
        }
    }
}
