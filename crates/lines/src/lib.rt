//! The directory of lines: an entry for each line says on which tape and from which record on it is. It lies in lent words,
//! three entries of 21 bits in each, since 524,288 of them have to fit the fixed memory. Of `count` entries in use a splice or a copy says how many there are then; what stands behind those is free.
#![tactic(auto)]

mod cut;
mod entries;
mod find;
mod moves;

pub use cut::Cut;
pub use entries::{get, len, set};
pub use find::next_on;
pub use moves::{OutOfRange, copy, duplicate, fill, make_room, reverse, rotate, splice};
