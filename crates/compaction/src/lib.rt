//! Compaction: entries are carried to the other tape, which then counts.
#![tactic(auto)]

mod entries;
mod tapes;

pub use entries::{after_carry, carry, carry_piece};
pub use tapes::{NO_LIMIT, after_switch, begin_old, begin_other, one_tape, put_head, set_up_next};
