//! The house on its tapes beside the plain houses that it may be, as a day goes on.

use crate::asker::Asker;
use crate::day::{Day, Scene};
use crate::fault::Fault;
use crate::guess::Guess;
use crate::machine::{Cue, MANY, Machine, Ran};
use crate::tape::{Device, Stop};
use model::Refusal;
use std::alloc::Global;
use std::fmt;
use std::num::Saturating;
use std::ops::AddAssign;

/// How much was tried: commands, those refused and those for which there was no room, how often a tape was begun anew, stops, and comparisons.
#[derive(Clone, Copy, Default)]
pub struct Counts {
    pub commands: Saturating<u64>,
    pub refused: Saturating<u64>,
    pub no_room: Saturating<u64>,
    pub begun: Saturating<u64>,
    pub stops: Saturating<u64>,
    pub comparisons: Saturating<u64>,
}

// By hand: no derive adds.
impl AddAssign for Counts {
    fn add_assign(&mut self, more: Counts) {
        self.commands += more.commands;
        self.refused += more.refused;
        self.no_room += more.no_room;
        self.begun += more.begun;
        self.stops += more.stops;
        self.comparisons += more.comparisons;
    }
}

impl fmt::Display for Counts {
    fn fmt<W: fmt::Write>(&self, f: &mut fmt::Formatter<W>) -> fmt::Result {
        let Counts {
            commands,
            refused,
            no_room,
            begun,
            stops,
            comparisons,
        } = *self;
        writeln!(
            f,
            "  {commands} commands, {refused} refused, {no_room} of them for want of room; {begun} tapes begun"
        )?;
        write!(f, "  {stops} stops, {comparisons} comparisons")
    }
}

#[derive(Drop)]
pub struct Stage {
    pub machine: Machine,
    pub device: Device,
    pub guess: Guess,
    pub counts: Counts,
    is_up: bool,
}

/// How many acts there are at most.
fn most_acts(stop: Option<Stop>) -> u64 {
    stop.map_or(MANY, |stop| stop.acts)
}

impl Stage {
    pub fn new(heap: Global, room: u64) -> Result<Stage, Fault> {
        Ok(Stage {
            machine: Machine::new(heap)?,
            device: Device::new(heap, room),
            guess: Guess::new(heap, room)?,
            counts: Counts::default(),
            is_up: false,
        })
    }

    /// The power goes.
    fn fall(&mut self, stop: Stop) -> Result<(), Fault> {
        self.counts.stops += 1;
        self.device = self.device.left(stop)?;
        self.is_up = false;
        Ok(())
    }

    /// Power comes, where there is none. A difference where the house does not come up as it should.
    pub fn power(&mut self, stop: Option<Stop>) -> Result<(), Fault> {
        if self.is_up {
            return Ok(());
        }
        let ran = self.machine.wake(&mut self.device, most_acts(stop))?;
        let is_up = ran.end == Some(Ok(())) || (ran.end.is_none() && stop.is_some());
        if !is_up || !ran.rows.is_empty() {
            return Err(Fault::difference());
        }
        self.is_up = true;
        if let Some(stop) = stop {
            self.fall(stop)?;
        }
        Ok(())
    }

    /// How much was tried, and how often a tape was begun on the way.
    pub fn tried(&self, asker: &Asker) -> Counts {
        Counts {
            begun: self.device.begun,
            comparisons: self.counts.comparisons + asker.comparisons,
            ..self.counts
        }
    }

    /// What the house did in all, held against the plain houses.
    pub fn settle(&mut self, text: &[u8], ran: &Ran<'_>) -> Result<(), Fault> {
        self.counts.commands += 1;
        self.counts.comparisons += 1;
        if let Some(Err(why)) = ran.end {
            self.counts.refused += 1;
            self.counts.no_room += u64::from(why == Refusal::NoRoom);
        }
        self.guess = self.guess.kept(text, ran)?;
        Ok(())
    }

    pub fn command(&mut self, text: &[u8], stop: Option<Stop>) -> Result<(), Fault> {
        self.power(None)?;
        let ran = self
            .machine
            .run(&mut self.device, Cue::Command(text), most_acts(stop))?;
        if ran.end.is_some() || stop.is_none() {
            self.settle(text, &ran)?;
        } else {
            self.guess = self.guess.stopped(text, ran.rows.as_slice())?;
        }
        if let Some(stop) = stop {
            self.fall(stop)?;
        }
        Ok(())
    }

    /// One scene; after a stop the tapes are copied and what a machine knows on them is asked.
    pub fn play(&mut self, scene: &Scene, asker: &mut Asker) -> Result<(), Fault> {
        match scene {
            Scene::Power(stop) => self.power(*stop)?,
            Scene::Typed { text, stop } => self.command(text.as_slice(), *stop)?,
            Scene::Watch => {}
        }
        if scene.stop().is_some() {
            asker.wakes_as(self.device.clone()?, &self.guess)?;
        }
        Ok(())
    }
}

/// A day from its beginning.
pub fn play(day: &Day) -> Result<Counts, Fault> {
    let mut stage = Stage::new(day.heap, day.room)?;
    let mut asker = Asker::new(day.heap)?;
    for (index, scene) in day.scenes.iter().enumerate() {
        stage
            .play(scene, &mut asker)
            .map_err(|fault| fault.at(index))?;
    }
    Ok(stage.tried(&asker))
}

/// At which scene a day shows a difference, if it shows one.
fn differs_at(day: &Day) -> Result<Option<usize>, Fault> {
    match play(day) {
        Err(Fault::Differs(trail)) => Ok(trail.scene),
        played => played.map(|_| None),
    }
}

/// A day that still shows a difference, once without what comes after it and without parts of so many scenes, the last first.
fn thinned(day: &Day, size: usize) -> Result<Day, Fault> {
    let size = size.max(1);
    let mut short = day.clone()?;
    let mut from = short.scenes.len();
    // Where the next part begins depends on what was found, so the count only ends it.
    for _ in 0..day.scenes.len() {
        if let Some(index) = differs_at(&short)? {
            short.scenes.truncate(index.saturating_add(1));
        }
        if from == 0 {
            break;
        }
        from = from.min(short.scenes.len()).saturating_sub(size);
        let shorter = short.without(from, size)?;
        if differs_at(&shorter)?.is_some() {
            short = shorter;
        }
    }
    Ok(short)
}

/// The shortest day found that still shows a difference: without what comes after it, then without ever smaller parts.
pub fn shortened(day: &Day) -> Result<Day, Fault> {
    let mut short = day.clone()?;
    for shift in 0..usize::BITS {
        let size = day.scenes.len() >> shift;
        short = thinned(&short, size)?;
        if size == 0 {
            break;
        }
    }
    Ok(short)
}
