//! The two tapes.

ghost use Rattle.std.specs.Prelude.{◌≡◌, ◌≤◌, length};
ghost use Rattle.memory.specs.Registers.{tapes_in as loaded, tapes_numbers as numbers};

use crate::LIMIT;

#[derive(Clone, Copy, Default)]
pub struct Tapes {
    /// How many records a tape has room for.
    pub room: u64,
    /// The tape that counts, 0 or 1: a number, as in the memory and in each entry of the directory.
    pub active: u64,
    pub generation: u64,
    /// How many records are on it.
    pub used: u64,
    /// Whether entries are being carried to the other tape. No `Option` of what stands below: each register has its place in the fixed memory, and
    /// what it holds while nothing is carried is kept too.
    pub busy: bool,
    /// How many records are on that one.
    pub other: u64,
    /// Before this entry of the directory none is left to carry.
    pub cursor: u64,
}

impl Tapes {
    pub fn load(section: &[u64]) -> Tapes
        requires { 7 ≤ length section.now }
        ensures { result ≡ loaded section.now }
    {
        Tapes {
            room: section[0] % LIMIT,
            active: section[1] % 2,
            generation: section[2] % LIMIT,
            used: section[3] % LIMIT,
            busy: section[4] == 1,
            other: section[5] % LIMIT,
            cursor: section[6] % LIMIT,
        }
    }

    pub fn store(self, section: &mut [u64])
        requires { length section.old ≡ 7 }
        ensures { section.new ≡ numbers self }
    {
        section.copy_from_slice(&[
            self.room % LIMIT,
            self.active % LIMIT,
            self.generation % LIMIT,
            self.used % LIMIT,
            u64::from(self.busy),
            self.other % LIMIT,
            self.cursor % LIMIT,
        ]);
    }
}
