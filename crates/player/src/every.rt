//! A day with every stop tried: in each command after each act, and in the wake-ups behind it.

use crate::asker::Asker;
use crate::day::{Day, Scene};
use crate::fault::{Fault, Trail};
use crate::guess::Guess;
use crate::machine::{Cue, MANY, Machine, Ran};
use crate::stage::{Counts, Stage};
use crate::tape::{Device, Stays, Stop};
use std::alloc::{AllocError, Global};
use std::num::Saturating;

/// More combinations than these are thinned out.
const MOST_CHOICES: usize = 16;
/// Of a wake-up the first so many acts are each stopped at, then those that fasten or begin a tape, and some that put a record on.
const FIRST_ACTS: u64 = 24;

const SOME_ACTS: u64 = 16;
/// Each so many stops the wake-up behind it is stopped too, and more seldom where a tape has many records.
const WAKE_EACH: u64 = 5;

const LONG_WAKE_EACH: u64 = 97;

const LONG: usize = 200;

#[derive(Drop)]
struct Trials {
    heap: Global,
    stage: Stage,
    asker: Asker,
    waking: Machine,
    tried: Saturating<u64>,
}

/// What may be left of so many loose records: none, one, all but one, all; and half of the next.
fn choices(heap: Global, loose: usize) -> Result<Vec<Stays>, AllocError> {
    let loose = loose as u64;
    (0..=loose)
        .filter(|count| [0, 1, loose.saturating_sub(1), loose].contains(count))
        .flat_map(|count| [
            Stays {
                count,
                is_half: false,
            },
            Stays {
                count,
                is_half: true,
            },
        ])
        .filter(|stays| stays.count < loose || !stays.is_half)
        .collect(heap)
}

/// What may be left of both tapes.
fn combinations(heap: Global, loose: [usize; 2]) -> Result<Vec<[Stays; 2]>, AllocError> {
    let [first, second] = loose;
    let seconds = choices(heap, second)?;
    let mut both = Vec::new(heap);
    for first in choices(heap, first)? {
        both.extend(seconds.iter().map(|second| [first, *second]))?;
    }
    Ok(both)
}

impl Trials {
    fn new(heap: Global, room: u64) -> Result<Trials, Fault> {
        Ok(Trials {
            heap,
            stage: Stage::new(heap, room)?,
            asker: Asker::new(heap)?,
            waking: Machine::new(heap)?,
            tried: Saturating(0),
        })
    }

    /// A stop of a wake-up, with nothing left, with all, and with a half.
    fn stop_waking(&mut self, device: &Device, acts: u64, guess: &Guess) -> Result<(), Fault> {
        for (count, is_half) in [(0, false), (MANY, false), (0, true)] {
            if is_half && device.loose() == [0, 0] {
                continue;
            }
            let stays = [Stays { count, is_half }; 2];
            let stop = Stop { acts, stays };
            self.stage.counts.stops += 1;
            self.asker
                .wakes_as(device.left(stop)?, guess)
                .map_err(|fault| fault.after_again(stop))?;
        }
        Ok(())
    }

    // Here and in `command` not by `run`: between two acts stops are tried.
    /// A wake-up on these tapes, stopped at its acts.
    fn wake_with_stops(&mut self, mut device: Device, guess: &Guess) -> Result<(), Fault> {
        self.waking.forget();
        let mut ran = Ran::new(self.heap, Cue::Power);
        let mut seen = device.turns;
        for _ in 0..MANY {
            if ran.end.is_some() {
                break;
            }
            let before = device.changes;
            self.waking.act(&mut device, &mut ran)?;
            let is_some = device.changes != before && ran.acts.0 % SOME_ACTS == 0;
            if device.turns != seen || is_some || ran.acts.0 <= FIRST_ACTS {
                seen = device.turns;
                self.stop_waking(&device, ran.acts.0, guess)?;
            }
        }
        Ok(())
    }

    /// One stop, and what a machine knows that is woken then.
    fn try_stop(&mut self, stop: Stop, guess: &Guess) -> Result<(), Fault> {
        self.tried += 1;
        self.stage.counts.stops += 1;
        let left = self.stage.device.left(stop)?;
        let each = if left.is_longer_than(LONG) {
            LONG_WAKE_EACH
        } else {
            WAKE_EACH
        };
        if self.tried.0 % each == 0 {
            self.wake_with_stops(left.clone()?, guess)?;
        }
        self.asker.wakes_as(left, guess)
    }

    /// All stops after so many acts, in a sensible set of combinations.
    fn try_stops(&mut self, acts: u64, guess: &Guess) -> Result<(), Fault> {
        let combinations = combinations(self.heap, self.stage.device.loose())?;
        let each = if combinations.len() > MOST_CHOICES {
            4
        } else {
            1
        };
        for (turn, stays) in (self.tried.0.saturating_add(1)..).zip(combinations) {
            if turn % each == 0 {
                let stop = Stop { acts, stays };
                self.try_stop(stop, guess)
                    .map_err(|fault| fault.after(stop))?;
            }
        }
        Ok(())
    }

    /// A command with all its stops. Where an act changes no tape, the stop behind it is the one before it.
    fn command(&mut self, text: &[u8]) -> Result<(), Fault> {
        self.stage.power(None)?;
        let either = self.stage.guess.stopped(text, &[])?;
        let mut ran = Ran::new(self.heap, Cue::Command(text));
        let mut seen = None;
        for _ in 0..MANY {
            if ran.end.is_some() {
                break;
            }
            let changes = Some(self.stage.device.changes);
            if seen != changes {
                seen = changes;
                self.try_stops(ran.acts.0, &either)?;
            }
            self.stage.machine.act(&mut self.stage.device, &mut ran)?;
        }
        self.stage.settle(text, &ran)?;
        let after = self.stage.guess.clone()?;
        self.try_stops(ran.acts.0, &after)
    }

    /// The first power, with all its stops.
    fn first_power(&mut self) -> Result<(), Fault> {
        let device = self.stage.device.clone()?;
        let guess = self.stage.guess.clone()?;
        self.wake_with_stops(device, &guess)
    }

    fn scene(&mut self, scene: &Scene, is_watched: bool) -> Result<(), Fault> {
        match scene {
            Scene::Typed { text, stop: None } if is_watched => self.command(text.as_slice()),
            _ => self.stage.play(scene, &mut self.asker),
        }
    }
}

/// The day up to a difference, with the stops that show it.
pub fn shown(day: &Day, trail: Trail) -> Result<Day, Fault> {
    let count = trail.scene.map_or(0, |index| index.saturating_add(1));
    let mut shown = day.clone()?;
    shown.scenes.truncate(count);
    if let Some(Scene::Typed { stop, .. }) = shown.scenes.last_mut()
        && trail.stop.is_some()
    {
        *stop = trail.stop;
    }
    shown.scenes.push(Scene::Power(trail.again))?;
    Ok(shown)
}

/// A day with every stop tried.
pub fn every(day: &Day) -> Result<Counts, Fault> {
    let mut trials = Trials::new(day.heap, day.room)?;
    let mut is_watched = !day.scenes.iter().any(|scene| matches!(scene, Scene::Watch));
    if is_watched {
        trials.first_power()?;
    }
    for (index, scene) in day.scenes.iter().enumerate() {
        trials
            .scene(scene, is_watched)
            .map_err(|fault| fault.at(index))?;
        is_watched = is_watched || matches!(scene, Scene::Watch);
    }
    Ok(trials.stage.tried(&trials.asker))
}
