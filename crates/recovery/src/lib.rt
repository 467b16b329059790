//! Power comes: which tape counts, and what its records say.
#![tactic(auto)]

mod fresh;
mod heads;
mod replay;

pub use fresh::{fresh_first, fresh_next};
pub use heads::{wake, woke_first, woke_second};
pub use replay::replay_record;
