//! From the bytes typed to a command.
//!
//! `read` is the whole of it; what it hands back are structs and enums over parts of the bytes typed, nothing is copied.
#![tactic(auto)]

mod addresses;
mod commands;
mod deeds;
mod given;

pub use addresses::{Address, Place, Range, Reach};
pub use commands::{Command, LONGEST_TYPED, Simple, read};
pub use deeds::{Deed, LONGEST_NAME, Which};
pub use given::{LONGEST, Lines};
