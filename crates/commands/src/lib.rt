//! What each command does to what is kept: which lines it speaks of, whether it is refused, and the plan of what is done; and that this is what the plain
//! house does.
#![tactic(auto)]

mod bounds;
mod decide;
mod laws;
mod plan;
mod refusal;
mod weights;

pub use bounds::{Bounds, command_bounds, known};
pub use decide::{FILES, plan_command};
pub use journal::{Source, Splice};
pub use laws::{
    begins_alike, plans_stand, reads_few, reads_well, smalls_weigh, totals_stand, turns_alike,
    turns_allowed, typed_allowed, weighs_alike,
};
pub use plan::{Plan, Rows, Sizes, Slot, Span, Update, Walk};
pub use refusal::Refusal;
pub use weights::{FILE_WEIGHT, LINE_WEIGHT, file_total, no_room, stand_size, text_total};
