//! The numbers of what is kept from command to command; the lists are in the sections of the memory.

ghost use Rattle.std.specs.Prelude.{◌≡◌, ◌≤◌, length};
ghost use Rattle.memory.specs.Registers.{kept_in as loaded, kept_numbers as numbers};

use crate::{ENTRIES, LIMIT, TABLE, TEXT, WEIGHTS};

#[derive(Clone, Copy, Default)]
pub struct Kept {
    /// How many entries the directory has.
    pub entries: u64,
    /// How many lines were put on since the last commit.
    pub pending: u64,
    /// How many lines the text has.
    pub count: u64,
    /// The current one.
    pub current: u64,
    /// What the lines of the text weigh.
    pub weight: u64,
    /// How many stands there are.
    pub ring: u64,
    /// How many files there are.
    pub files: u64,
}

impl Kept {
    pub fn load(section: &[u64]) -> Kept
        requires { 7 ≤ length section.now }
        ensures { result ≡ loaded section.now }
    {
        Kept {
            entries: section[0] % (ENTRIES as u64 + 1),
            pending: section[1] % (TEXT as u64 + 1),
            count: section[2] % LIMIT,
            current: section[3] % LIMIT,
            weight: section[4] % LIMIT,
            ring: section[5] % (WEIGHTS as u64 + 1),
            files: section[6] % (TABLE as u64 + 1),
        }
    }

    pub fn store(self, section: &mut [u64])
        requires { length section.old ≡ 7 }
        ensures { section.new ≡ numbers self }
    {
        section.copy_from_slice(&[
            self.entries % LIMIT,
            self.pending % LIMIT,
            self.count % LIMIT,
            self.current % LIMIT,
            self.weight % LIMIT,
            self.ring % LIMIT,
            self.files % LIMIT,
        ]);
    }
}
