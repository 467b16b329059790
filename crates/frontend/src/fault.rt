//! Why the program ends before its input does.

use inspection::Damage;
use std::alloc::AllocError;
use std::io;
use thiserror::Error;

/// What is wrong with the arguments.
#[derive(Clone, Copy, Debug, Error)]
pub enum Misuse {
    #[error("there are only the options --room and --help")]
    NotRoomOrHelp,
    #[error("there are only the options --room, --help and --version")]
    NotRoomHelpOrVersion,
    #[error("--room needs a number of records behind it")]
    NoRoom,
    #[error("the room is a number from 1024 to 1048576")]
    BadRoom,
    #[error("there are two files to name, or none")]
    Files,
    #[error("the two files have to be different ones")]
    SameFile,
}

/// An act that no device can do. No house that is proved asks for one.
#[derive(Clone, Copy, Debug, Error)]
pub enum Astray {
    #[error("the house asks for a tape that isn't there")]
    Tape,
    #[error("the house shows more than a row has room for")]
    Row,
    #[error("the house puts more on a tape than it has room for")]
    Full,
    #[error("the house doesn't come up")]
    Power,
    #[error("the house doesn't end a command")]
    Endless,
}

/// What is wrong with a file.
#[derive(Debug, Drop, Error)]
pub enum Trouble {
    #[error("it can't be opened: {0}")]
    Open(io::Error),
    #[error("it can't be locked: {0}")]
    Lock(io::Error),
    #[error("it can't be read: {0}")]
    Read(io::Error),
    #[error("it can't be written: {0}")]
    Append(io::Error),
    #[error("it can't be made durable: {0}")]
    Sync(io::Error),
    #[error("it can't be emptied: {0}")]
    Begin(io::Error),
    #[error("another editor works on it")]
    Locked,
    #[error("it is no regular file")]
    Irregular,
    #[error("it is damaged at {0}")]
    Damaged(Damage),
    #[error("it has more than the {0} records that there is room for")]
    TooLong(u64),
}

impl Trouble {
    /// The trouble as a fault of the file of that name.
    pub fn of(self, name: &String) -> Fault {
        name.clone().map_or_else(
            Fault::from,
            |name| Fault::File {
                name,
                trouble: self,
            },
        )
    }
}

/// Why the program ends early. An error of a file is told with the file's name, so one that comes by itself is of the console.
#[derive(Debug, Drop, Error)]
pub enum Fault {
    #[error("{0} (see --help)")]
    Usage(#[from] Misuse),
    #[error("{name}: {trouble}")]
    File { name: String, trouble: Trouble },
    #[error("standard input or output: {0}")]
    Console(#[from] io::Error),
    #[error("there is not enough memory")]
    Memory(#[from(alloc)] AllocError),
    #[error("{0}")]
    House(#[from] Astray),
}
