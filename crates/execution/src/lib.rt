//! A command that was typed: it is decided, lines are walked over, and it is looked whether there is room for what it brings.
#![tactic(auto)]

mod command;
mod room;
mod walk;

pub use command::obey;
pub use walk::{fetched, walk_on};
