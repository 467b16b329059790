//! Days: what is typed, when power stops and comes, read from text and written again.

use crate::fault::Fault;
use crate::tape::{Stays, Stop};
use std::alloc::{AllocError, Global};
use std::io::Write;

/// How many records a tape has room for unless it is said.
pub const USUAL_ROOM: u64 = 1_024;
/// What a long line of a day consists of.
const LONG: u8 = b'x';

/// One thing that happens.
#[derive(Clone, Drop)]
pub enum Scene {
    /// Power comes, and perhaps stops again.
    Power(Option<Stop>),
    /// A command, and perhaps a stop in its midst.
    Typed { text: Vec<u8>, stop: Option<Stop> },
    /// From here on every stop is tried.
    Watch,
}

#[derive(Clone, Drop)]
pub struct Day {
    /// Where all of it lies.
    pub heap: Global,
    pub room: u64,
    pub scenes: Vec<Scene>,
}

/// The numbers that are written in a text, whatever stands between. `model` reads its own, as it shares nothing.
fn numbers(heap: Global, text: &[u8]) -> Result<Vec<u64>, AllocError> {
    text.split(|byte| !byte.is_ascii_digit())
        .filter(|digits| !digits.is_empty())
        .map(|digits| {
            digits.iter().fold(0, |number: u64, digit| {
                number
                    .saturating_mul(10)
                    .saturating_add(u64::from(digit.saturating_sub(b'0')))
            })
        })
        .collect(heap)
}

/// The number at this place, or 0.
fn nth(numbers: &[u64], index: usize) -> u64 {
    numbers.get(index).copied().unwrap_or(0)
}

fn stop_of(numbers: &[u64]) -> Option<Stop> {
    let acts = *numbers.first()?;
    let stays = [(1, 2), (3, 4)].map(|(count, half)| Stays {
        count: nth(numbers, count),
        is_half: nth(numbers, half) == 1,
    });
    Some(Stop { acts, stays })
}

/// A line given: itself, or so many bytes, or so many lines with their numbers.
fn give(text: &mut Vec<u8>, line: &[u8]) -> Result<(), Fault> {
    let number = nth(numbers(*text.allocator(), line)?.as_slice(), 0);
    if line.starts_with(b"!lines ") {
        for index in 0..number {
            write!(text, "\n{index}")?;
        }
        return Ok(());
    }
    text.push(b'\n')?;
    if line.starts_with(b"!long ") {
        text.resize(text.len().saturating_add(number as usize), LONG)?;
    } else {
        text.extend_from_slice(line)?;
    }
    Ok(())
}

/// A day that is being read: the stop said before the next command, and a command whose lines are being given.
#[derive(Drop)]
struct Reading {
    day: Day,
    stop: Option<Stop>,
    open: Option<Vec<u8>>,
}

impl Reading {
    fn scene(&mut self, scene: Scene) -> Result<(), Fault> {
        self.day.scenes.push(scene)?;
        Ok(())
    }

    /// The command that was typed, with the lines given.
    fn typed(&mut self, text: Vec<u8>) -> Result<(), Fault> {
        let stop = self.stop.take();
        self.scene(Scene::Typed { text, stop })
    }

    /// The last command so many times more.
    fn again(&mut self, times: u64) -> Result<(), Fault> {
        let scenes = &mut self.day.scenes;
        if let Some(last) = scenes.last() {
            let last = last.clone()?;
            scenes.resize(scenes.len().saturating_add(times as usize), last)?;
        }
        Ok(())
    }

    /// A line that says what happens beside typing.
    fn direct(&mut self, number: u64, line: &[u8]) -> Result<(), Fault> {
        let numbers = numbers(self.day.heap, line)?;
        let numbers = numbers.as_slice();
        if line.starts_with(b"!room ") {
            self.day.room = nth(numbers, 0);
        } else if line.starts_with(b"!stop ") {
            self.stop = stop_of(numbers);
        } else if line.starts_with(b"!power") {
            self.scene(Scene::Power(stop_of(numbers)))?;
        } else if line.starts_with(b"!watch") {
            self.scene(Scene::Watch)?;
        } else if line.starts_with(b"!again ") {
            self.again(nth(numbers, 0))?;
        } else {
            return Err(Fault::Day(number));
        }
        Ok(())
    }

    /// The next line of the day, and its number.
    fn take(&mut self, number: u64, line: &[u8]) -> Result<(), Fault> {
        match self.open.take() {
            Some(text) if line == b".".as_slice() => self.typed(text),
            Some(mut text) => {
                give(&mut text, line)?;
                self.open = Some(text);
                Ok(())
            }
            None if line.starts_with(b"!") => self.direct(number, line),
            None => {
                let text = Vec::from_slice(self.day.heap, line)?;
                if model::takes_lines(line) {
                    self.open = Some(text);
                    Ok(())
                } else {
                    self.typed(text)
                }
            }
        }
    }
}

/// A day, read from its lines.
pub fn read(heap: Global, text: &[u8]) -> Result<Day, Fault> {
    let mut reading = Reading {
        day: Day::new(heap, USUAL_ROOM),
        stop: None,
        open: None,
    };
    let lines = text
        .split_inclusive(|byte| *byte == b'\n')
        .filter_map(|line| line.strip_suffix(b"\n"));
    for (number, line) in (1..).zip(lines) {
        reading.take(number, line)?;
    }
    if let Some(text) = reading.open.take() {
        reading.typed(text)?;
    }
    Ok(reading.day)
}

/// The command without the lines given.
fn first_line(text: &[u8]) -> &[u8] {
    text.split(|byte| *byte == b'\n').next().unwrap_or(text)
}

impl Scene {
    pub fn stop(&self) -> Option<Stop> {
        match self {
            Scene::Power(stop) | Scene::Typed { stop, .. } => *stop,
            Scene::Watch => None,
        }
    }

    fn write<W: Write>(&self, out: &mut W) -> Result<(), Fault> {
        match self {
            Scene::Power(None) => out.write_all(b"!power\n")?,
            Scene::Power(Some(stop)) => writeln!(out, "!power {stop}")?,
            Scene::Watch => out.write_all(b"!watch\n")?,
            Scene::Typed { text, stop } => {
                if let Some(stop) = stop {
                    writeln!(out, "!stop {stop}")?;
                }
                let text = text.as_slice();
                out.write_all(text)?;
                out.write_all(b"\n")?;
                if model::takes_lines(first_line(text)) {
                    out.write_all(b".\n")?;
                }
            }
        }
        Ok(())
    }
}

impl Day {
    /// A day without scenes.
    pub fn new(heap: Global, room: u64) -> Day {
        Day {
            heap,
            room,
            scenes: Vec::new(heap),
        }
    }

    /// The day as text.
    pub fn write<W: Write>(&self, out: &mut W) -> Result<(), Fault> {
        let room = self.room;
        writeln!(out, "!room {room}")?;
        for scene in self.scenes.iter() {
            scene.write(out)?;
        }
        Ok(())
    }

    /// The same without the scenes from one on, so many.
    pub fn without(&self, from: usize, count: usize) -> Result<Day, AllocError> {
        let front = self.scenes.iter().take(from);
        let rest = self.scenes.iter().skip(from.saturating_add(count));
        Ok(Day {
            heap: self.heap,
            room: self.room,
            scenes: front
                .chain(rest)
                .map(|scene| scene.clone())
                .try_collect(self.heap)?,
        })
    }
}
