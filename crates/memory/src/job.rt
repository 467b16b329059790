//! What is done for a command.

ghost use Rattle.std.specs.Prelude.{◌≡◌, ◌≤◌, length};
ghost use Rattle.memory.specs.Abstract.{some_lines};
ghost use Rattle.memory.specs.Numbers.{lines_of as decoded, lines_number as numbered};
ghost use Rattle.memory.specs.Registers.{job_in as loaded, job_numbers as numbers};

use crate::{LIMIT, plans};
use commands::Plan;

/// What of the text in the cells is put on.
#[derive(Clone, Copy, PartialEq, Eq, Default)]
pub enum Lines {
    /// None of it.
    #[default]
    Nothing = 0,
    /// Its lines, between bytes 10.
    Given = 1,
    /// One line, which is all of it.
    Joined = 2,
}

/// The lines of a number; of others than these, nothing.
impl From<u64> for Lines {
    ghost from_gives = { λ n lines. lines ≡ decoded n };

    fn from(n: u64) -> Self {
        // Matched, since there is no cast from a number to an enum.
        match n {
            1 => Lines::Given,
            2 => Lines::Joined,
            _ => Lines::Nothing,
        }
    }
}

impl From<Lines> for u64 {
    ghost from_gives = { λ lines n. n ≡ numbered lines };

    fn from(lines: Lines) -> Self {
        lines as u64
    }
}

impl Lines {
    /// Whether there is a line.
    pub fn some(self) -> bool
        ensures { result ≡ some_lines self }
    {
        !matches!(self, Lines::Nothing)
    }
}

#[derive(Clone, Copy, Default)]
pub struct Job {
    pub plan: Plan,
    /// How many bytes the name of a file has.
    pub name: u64,
    /// What its lines weigh.
    pub size: u64,
    pub lines: Lines,
    /// How many bytes of text are in the cells.
    pub text: u64,
}

impl Job {
    pub fn load(section: &[u64]) -> Job
        requires { 19 ≤ length section.now }
        ensures { result ≡ loaded section.now }
    {
        Job {
            name: section[0] % 65,
            size: section[1] % LIMIT,
            lines: Lines::from(section[2]),
            text: section[3] % 65_537,
            plan: plans::load(&section[4..19]),
        }
    }

    pub fn store(self, section: &mut [u64])
        requires { length section.old ≡ 19 }
        ensures { section.new ≡ numbers self }
    {
        section[0..4].copy_from_slice(&[
            self.name % LIMIT,
            self.size % LIMIT,
            u64::from(self.lines),
            self.text % LIMIT,
        ]);
        plans::store(self.plan, &mut section[4..19]);
    }
}
