//! Why a command is refused.

use std::alloc::AllocError;
use thiserror::Error;

/// Why a command is refused.
#[derive(Clone, Copy, Debug, PartialEq, Eq)]
pub enum Refusal {
    Unreadable,
    Unknown,
    NoFile,
    NoLine,
    TooLong,
    NoRoom,
}

/// A number with which no command is refused.
#[derive(Clone, Copy, PartialEq, Eq)]
pub struct NoRefusal(pub u64);

/// The number is the one that a house tells, so numbers are matched here.
impl TryFrom<u64> for Refusal {
    type Error = NoRefusal;

    fn try_from(number: u64) -> Result<Refusal, NoRefusal> {
        match number {
            1 => Ok(Refusal::Unreadable),
            2 => Ok(Refusal::Unknown),
            3 => Ok(Refusal::NoFile),
            4 => Ok(Refusal::NoLine),
            7 => Ok(Refusal::TooLong),
            8 => Ok(Refusal::NoRoom),
            _ => Err(NoRefusal(number)),
        }
    }
}

/// Why a command comes to no end of its own.
#[derive(Debug, Drop, Error)]
pub enum Halt {
    #[error("refused")]
    Refused(#[from] Refusal),
    #[error("there is not enough memory")]
    Memory(#[from(alloc)] AllocError),
}
