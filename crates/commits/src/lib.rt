//! The end of a command: its lines and its commit are put on the tapes, and its last rows are shown.
//!
//! Here and in the crates above, registers, memory and row are lent side by side and not as one struct: what a function doesn't take, or takes as `&`, it
//! can't change, and with one struct each contract would have to say so.
#![tactic(auto)]

mod commit;
mod line_parts;
mod news;
mod putting;
mod rows;
mod targets;

pub use journal::{Also, Numbers};
pub use news::{LIMIT, clamp, news_of, numbers, splice};
pub use protocol::Told;
pub use putting::{after_commit, after_fast, after_line, put_next, start_pass};
pub use rows::{LOST, NUMBER, end_done, finish, put_number, refuse, show_files};
pub use targets::passive;
