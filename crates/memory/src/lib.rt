//! The memory of the machine: registers as nested structs, and the sections behind them, all in one lent slice of 262,144 numbers.
//!
//! | from | to | what |
//! |---|---|---|
//! | 0 | 64 | registers |
//! | 64 | 128 | the ring: weights of earlier stands, the oldest first |
//! | 128 | 4,416 | files: 64 times a name's length, lines, their weight, and 64 bytes of the name |
//! | 4,416 | 4,480 | the name of a file that a command has |
//! | 4,480 | 70,016 | cells: in each the low 8 bits are a byte of text, the bits above are the position of a pending line |
//! | 70,016 | 244,779 | the directory, three entries of 21 bits in each number |
//! | 244,779 | 262,144 | not used |
//!
//! How many places of a section are in use is a register: the memory holds numbers only, so no struct has both.
#![tactic(auto)]

mod carrying;
mod commit;
mod directory;
mod job;
mod kept;
mod laws;
mod measures;
mod phase;
mod plans;
mod registers;
mod small;
mod tapes;
mod text;
mod walking;

pub use carrying::Carrying;
pub use commit::apply;
pub use directory::{
    Position, clear, entry, next_on, push_pending, set_entry, splice_copied, splice_nothing,
    splice_pending,
};
pub use job::{Job, Lines};
pub use kept::Kept;
pub use laws::{begins_empty, commits_as_logged, loads_back};
pub use measures::{lines_records, lines_weight, records_of};
pub use phase::Phase;
pub use registers::Registers;
pub use small::{
    File, NewFile, file_at, file_lines, file_name, file_weight, find_file, keep_name, kept_name,
    oldest, push_weight, ring_weight, set_file, total_weight, weight_at,
};
pub use tapes::Tapes;
pub use text::{copy_low, copy_out, extend, keep, line_end, text_cells};
pub use walking::{Putting, Walking};

/// How many numbers the memory has. Its length stands in each contract, as no type carries it: `step` is lent a slice by its caller, and this crate owns none.
pub const MEMORY: usize = 262_144;
/// Where the ring begins, and how many weights it has room for.
const RING: usize = 64;

const WEIGHTS: usize = 64;
/// Where the table of files begins, how many it has room for, how many numbers each takes, and how many bytes a name has at most.
const FILES: usize = 128;

const TABLE: usize = commands::FILES as usize;

const FILE: usize = 67;

pub const NAMES: usize = typed::LONGEST_NAME;
/// Where the name is that a command has.
const NAME: usize = 4_416;
/// Where the cells begin, and how many there are.
const CELLS: usize = 4_480;

pub const TEXT: usize = 65_536;
/// A cell has a byte, and above it the entry of a pending line.
const BYTE: u64 = 256;
/// Where the directory begins, and how many numbers it takes.
const DIRECTORY: usize = 70_016;

const WORDS: usize = 174_763;
/// How many entries it has room for.
pub const ENTRIES: usize = 3 * WORDS;

/// A register holds 32 bits, so that no sum of two overflows, whatever the memory held.
pub const LIMIT: u64 = 4_294_967_296;
