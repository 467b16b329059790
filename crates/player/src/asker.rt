//! A machine that is woken on a copy of the tapes and asked what it knows.

ghost use Rattle.std.specs.Iterator.{at_most};

use crate::fault::Fault;
use crate::guess::Guess;
use crate::machine::{Cue, MANY, Machine};
use crate::tape::Device;
use std::alloc::{AllocError, Global};
use std::num::Saturating;

/// How many files are looked into each time.
const FILES: usize = 3;
/// Each such time the room is measured too.
const SCALE_EACH: u64 = 8;
/// What the heaviest line weighs.
const HEAVIEST: u64 = model::LINE + model::LONGEST as u64;

#[derive(Drop)]
pub struct Asker {
    heap: Global,
    machine: Machine,
    asked: Saturating<u64>,
    pub comparisons: Saturating<u64>,
}

/// The tapes that the machine is woken on, and the houses that it may be.
#[derive(Drop)]
struct Woken {
    device: Device,
    guess: Guess,
}

/// What so many weights are cut into, so that each is what a line may weigh.
#[derive(Drop)]
struct Weights(u64);

impl Iterator for Weights {
    type Item = u64;

    ghost remaining = { λ s. at_most s.0 };

    fn next(&mut self) -> Option<u64> {
        if self.0 < model::LINE {
            return None;
        }
        let weight = if self.0 <= HEAVIEST {
            self.0
        } else {
            HEAVIEST.min(self.0 - model::LINE)
        };
        self.0 -= weight;
        Some(weight)
    }
}

/// Lines behind the last that weigh so much together.
fn lines_of(heap: Global, sum: u64) -> Result<Vec<u8>, AllocError> {
    let mut text = Vec::from_slice(heap, b"$a")?;
    for weight in Weights(sum) {
        let bytes = weight.saturating_sub(model::LINE) as usize;
        text.push(b'\n')?;
        text.resize(text.len().saturating_add(bytes), b'x')?;
    }
    Ok(text)
}

impl Asker {
    pub fn new(heap: Global) -> Result<Asker, AllocError> {
        Ok(Asker {
            heap,
            machine: Machine::new(heap)?,
            asked: Saturating(0),
            comparisons: Saturating(0),
        })
    }

    /// A command, done by the machine and by the houses that it may be.
    fn put(&mut self, woken: &mut Woken, text: &[u8]) -> Result<(), Fault> {
        self.comparisons += 1;
        let ran = self
            .machine
            .run(&mut woken.device, Cue::Command(text), MANY)?;
        woken.guess = woken.guess.kept(text, &ran)?;
        Ok(())
    }

    /// The names of some files, others each time.
    fn names(&self, guess: &Guess) -> Result<Vec<Vec<u8>>, AllocError> {
        let Some(house) = guess.any() else {
            return Ok(Vec::new(self.heap));
        };
        let files = house.files.as_slice();
        let turn = self.asked.0.checked_rem(files.len() as u64).unwrap_or(0);
        let (before, behind) = files.split_at(files.len().min(turn as usize));
        behind
            .iter()
            .chain(before)
            .take(FILES)
            .map(|file| file.name.clone())
            .try_collect(self.heap)
    }

    fn ask_files(&mut self, woken: &mut Woken) -> Result<(), Fault> {
        for name in self.names(&woken.guess)? {
            let text = [b"e ".as_slice(), name.as_slice()].concat(self.heap)?;
            self.put(woken, text.as_slice())?;
            self.put(woken, b"%p")?;
        }
        Ok(())
    }

    /// Whether the house takes what just fits, and nothing more.
    fn measure(&mut self, woken: &mut Woken) -> Result<(), Fault> {
        let Some(house) = woken.guess.only() else {
            return Ok(());
        };
        let slack = house.slack(woken.device.room);
        let surplus = lines_of(self.heap, slack.saturating_add(1))?;
        let full = lines_of(self.heap, slack)?;
        self.put(woken, surplus.as_slice())?;
        self.put(woken, full.as_slice())
    }

    /// Whether the machine knows what one of these houses knows.
    fn ask(&mut self, woken: &mut Woken) -> Result<(), Fault> {
        self.put(woken, b".=")?;
        self.put(woken, b"f")?;
        self.put(woken, b"%n")?;
        self.ask_files(woken)?;
        if self.asked.0 % SCALE_EACH == 0 {
            self.measure(woken)?;
        }
        Ok(())
    }

    /// Whether a machine that is woken on this device is one of these houses; a difference where it is none.
    pub fn wakes_as(&mut self, device: Device, guess: &Guess) -> Result<(), Fault> {
        self.asked += 1;
        let guess = guess.clone()?;
        let mut woken = Woken { device, guess };
        let ran = self.machine.wake(&mut woken.device, MANY)?;
        if ran.end != Some(Ok(())) || !ran.rows.is_empty() {
            return Err(Fault::difference());
        }
        self.ask(&mut woken)
    }
}
