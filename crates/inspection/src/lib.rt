//! Damage that can be seen from the records of a file themselves, found before any of them is believed. What a power cut leaves is none: the last
//! record may be torn.

#![tactic(auto)]

mod damage;
mod due;
mod kept;
mod tour;

pub use damage::{Damage, Wrong};
pub use tour::Tour;
