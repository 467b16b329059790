//! A plain house, written once more from the rules: a text of lines, where one is in it, files, and what the changes before weigh. It shares
//! nothing with the machine, so that what the machine does can be held against it.

#![tactic(auto)]

mod deeds;
mod house;
mod reading;
mod refusal;

pub use deeds::LONGEST;
pub use house::{File, House, LINE, Turn};
use reading::Deed;
pub use refusal::{NoRefusal, Refusal};

/// Whether lines are typed behind a command line.
pub fn takes_lines(line: &[u8]) -> bool {
    reading::read(line).is_some_and(|command| {
        matches!(
            command.deed,
            Deed::Append(_) | Deed::Insert(_) | Deed::Change(_)
        )
    })
}
