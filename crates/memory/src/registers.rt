//! The first numbers of the memory, as nested structs.

ghost use Rattle.std.specs.Prelude.{◌≡◌, ◌≤◌, length};
ghost use Rattle.memory.specs.Registers.{loaded, stored};

use crate::{Carrying, Job, Kept, Phase, Putting, Tapes, Walking};

/// No type carries what is asked of them (`Tame` of those that were loaded, `Loose` of those that a step has begun to change): an invariant would have to
/// hold between any two changes of a step, and the tame become loose there.
#[derive(Clone, Copy, Default)]
pub struct Registers {
    pub phase: Phase,
    pub tapes: Tapes,
    pub kept: Kept,
    pub job: Job,
    pub walking: Walking,
    pub putting: Putting,
    pub carrying: Carrying,
}

impl Registers {
    /// The registers at the front of the memory, whatever it holds.
    pub fn load(memory: &[u64]) -> Registers
        requires { 48 ≤ length memory.now }
        ensures { result ≡ loaded memory.now }
    {
        Registers {
            phase: Phase::from(memory[0]),
            tapes: Tapes::load(&memory[1..8]),
            kept: Kept::load(&memory[8..15]),
            job: Job::load(&memory[15..34]),
            walking: Walking::load(&memory[34..38]),
            putting: Putting::load(&memory[38..42]),
            carrying: Carrying::load(&memory[42..48]),
        }
    }

    /// Puts them there; what is behind them is as it was.
    pub fn store(self, memory: &mut [u64])
        requires { 48 ≤ length memory.old }
        ensures { memory.new ≡ stored self memory.old }
    {
        memory[0] = u64::from(self.phase);
        self.tapes.store(&mut memory[1..8]);
        self.kept.store(&mut memory[8..15]);
        self.job.store(&mut memory[15..34]);
        self.walking.store(&mut memory[34..38]);
        self.putting.store(&mut memory[38..42]);
        self.carrying.store(&mut memory[42..48]);
    }
}
