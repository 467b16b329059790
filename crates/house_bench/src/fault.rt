//! Why the measuring ends early.

use crate::machine::Refusal;
use std::alloc::AllocError;
use std::io;
use thiserror::Error;

#[derive(Debug, Drop, Error)]
pub enum Fault {
    /// It was called with something else than `all`.
    #[error("usage: house_bench [all]")]
    Usage,
    #[error("standard output: {0}")]
    Console(#[from] io::Error),
    #[error("there is not enough memory")]
    Memory(#[from(alloc)] AllocError),
    #[error("the house asks for a tape that isn't there")]
    Tape,
    #[error("the house puts more on a tape than it has room for")]
    Full,
    #[error("the house doesn't end a command")]
    Endless,
    /// A command that was to be done is refused.
    #[error("a command is refused: {}", .0.0)]
    Refused(#[from] Refusal),
    #[error("compaction began or ended where it wasn't to")]
    Compaction,
    #[error("a bound is exceeded")]
    Exceeded,
}
