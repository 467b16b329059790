//! Carrying an entry to the other tape.

ghost use Rattle.std.specs.Prelude.{◌≡◌, ◌≤◌, length};
ghost use Rattle.memory.specs.Registers.{carrying_in as loaded, carrying_numbers as numbers};

use crate::LIMIT;

#[derive(Clone, Copy, Default)]
pub struct Carrying {
    pub index: u64,
    /// Which of its records is next.
    pub part: u64,
    /// The length of its line.
    pub long: u64,
    /// Where its first record comes.
    pub start: u64,
    /// How many entries may be carried.
    pub quota: u64,
    /// Whether this is a wake-up.
    pub waking: bool,
}

impl Carrying {
    pub fn load(section: &[u64]) -> Carrying
        requires { 6 ≤ length section.now }
        ensures { result ≡ loaded section.now }
    {
        Carrying {
            index: section[0] % LIMIT,
            part: section[1] % LIMIT,
            long: section[2] % LIMIT,
            start: section[3] % LIMIT,
            quota: section[4] % LIMIT,
            waking: section[5] == 1,
        }
    }

    pub fn store(self, section: &mut [u64])
        requires { length section.old ≡ 6 }
        ensures { section.new ≡ numbers self }
    {
        section.copy_from_slice(&[
            self.index % LIMIT,
            self.part % LIMIT,
            self.long % LIMIT,
            self.start % LIMIT,
            self.quota % LIMIT,
            u64::from(self.waking),
        ]);
    }
}
