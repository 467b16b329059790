//! The walk over lines of the text, and putting on what a command brings.

ghost use Rattle.std.specs.Prelude.{◌≡◌, ◌≤◌, length};
ghost use Rattle.memory.specs.Registers.{walking_in as walked, walking_numbers as steps, putting_in as loaded, putting_numbers as numbers};

use crate::LIMIT;

#[derive(Clone, Copy, Default)]
pub struct Walking {
    /// How many lines are before the next one.
    pub line: u64,
    /// Which of its records is asked for.
    pub part: u64,
    /// What the lines weigh that were walked over.
    pub went: u64,
    /// How many bytes in the cells are to be shown or joined.
    pub bytes: u64,
}

impl Walking {
    pub fn load(section: &[u64]) -> Walking
        requires { 4 ≤ length section.now }
        ensures { result ≡ walked section.now }
    {
        Walking {
            line: section[0] % LIMIT,
            part: section[1] % LIMIT,
            went: section[2] % LIMIT,
            bytes: section[3] % 65_537,
        }
    }

    pub fn store(self, section: &mut [u64])
        requires { length section.old ≡ 4 }
        ensures { section.new ≡ steps self }
    {
        section.copy_from_slice(&[
            self.line % LIMIT,
            self.part % LIMIT,
            self.went % LIMIT,
            self.bytes % LIMIT,
        ]);
    }
}

#[derive(Clone, Copy, Default)]
pub struct Putting {
    /// Whether it is put on the other tape.
    pub second: bool,
    /// Whether a line is left; a register of its own in the fixed memory, so no `Option` of `at`.
    pub more: bool,
    /// Where the first line that is left begins in the text.
    pub at: u64,
    /// Which record of it is next.
    pub part: u64,
}

impl Putting {
    pub fn load(section: &[u64]) -> Putting
        requires { 4 ≤ length section.now }
        ensures { result ≡ loaded section.now }
    {
        Putting {
            second: section[0] == 1,
            more: section[1] == 1,
            at: section[2] % 65_537,
            part: section[3] % LIMIT,
        }
    }

    pub fn store(self, section: &mut [u64])
        requires { length section.old ≡ 4 }
        ensures { section.new ≡ numbers self }
    {
        section.copy_from_slice(&[
            u64::from(self.second),
            u64::from(self.more),
            self.at % LIMIT,
            self.part % LIMIT,
        ]);
    }
}
