//! Texts of many lines, and tapes that are nearly full.

ghost use Rattle.std.specs.Prelude.{◌<◌};

use crate::fault::Fault;
use crate::machine::Machine;
use std::alloc::Global;

/// The most bytes that are typed for lines given.
const TYPED: u64 = 65_000;
// The next three are the house's, which hands on none of them but by what it does.
/// How many files there are.
const FILES: u64 = 64;
/// How many stands there are that can be taken back.
const STANDS: u64 = 64;
/// The most records of a tape.
const MOST_ROOM: u64 = 1_048_576;
/// Records for what else is kept.
const SPARE: u64 = 8_192;

/// A text: how many lines it has, and how many bytes a line.
#[derive(Clone, Copy)]
pub struct Text {
    pub lines: u64,
    pub width: u64,
}

impl Text {
    /// How many lines can be given at once, at least one.
    pub fn most_given(self) -> u64
        ensures { 0 < result }
    {
        (TYPED / self.width.saturating_add(1)).max(1)
    }

    /// How many lines are changed at a time to fill a tape.
    fn stride(self) -> u64 {
        (self.lines / 200).clamp(10, 400)
    }

    /// Records of a tape that the text has room on: with a file that has all of its lines, the stand before this file was edited, and others of changes.
    /// A sixteenth of the tape's bytes is kept, 32 for each record.
    pub fn room(self) -> u64 {
        let line = self.width.saturating_add(64);
        let whole = line.saturating_mul(3).saturating_add(64);
        let stands = self
            .stride()
            .saturating_mul(line.saturating_add(64))
            .saturating_add(256)
            .saturating_mul(STANDS);
        let weight = whole.saturating_mul(self.lines).saturating_add(stands);
        (weight / 32).saturating_add(SPARE).min(MOST_ROOM)
    }

    /// A command, and so many lines of the text behind it.
    pub fn given(self, mut command: String, lines: u64) -> Result<String, Fault> {
        let heap = *command.allocator();
        let line = "x".repeat(heap, self.width as usize)?;
        let line = format!(in heap; "\n{line}")?;
        let lines = line.as_str().repeat(heap, lines as usize)?;
        command.push_str(lines.as_str())?;
        Ok(command)
    }
}

/// A text on a house.
#[derive(Drop)]
pub struct Bench<'a> {
    pub machine: Machine<'a>,
    pub text: Text,
}

impl<'a> Bench<'a> {
    /// The text, and files of one line each.
    pub fn build(rt: &'a HostRuntime, text: Text) -> Result<Bench<'a>, Fault> {
        let machine = Machine::new(rt, text.room())?;
        let mut bench = Bench { machine, text };
        bench.machine.wake()?;
        let most = text.most_given();
        for _ in 0..text.lines / most {
            bench.append(most)?;
        }
        if text.lines % most > 0 {
            bench.append(text.lines % most)?;
        }
        bench.write_files()?;
        Ok(bench)
    }

    pub fn rt(&self) -> &'a HostRuntime {
        self.machine.rt()
    }

    pub fn heap(&self) -> Global {
        self.machine.heap()
    }

    fn append(&mut self, lines: u64) -> Result<(), Fault> {
        let typed = self.text.given(format!(in self.heap(); "$a")?, lines)?;
        self.machine.done(typed.as_str())?;
        Ok(())
    }

    fn write_files(&mut self) -> Result<(), Fault> {
        let heap = self.heap();
        for file in 0..FILES {
            let typed = format!(in heap; "1,1w f{file:02}")?;
            self.machine.done(typed.as_str())?;
        }
        Ok(())
    }

    /// Changes lines of the text until the next record begins compaction.
    pub fn fill(&mut self) -> Result<(), Fault> {
        let lines = self.text.stride();
        let records = lines
            .saturating_mul(self.text.width / 503 + 1)
            .saturating_add(1);
        let typed = self
            .text
            .given(format!(in self.heap(); "1,{lines}c")?, lines)?;
        // The count only ends it, here and in `settle`: how much room a command takes is not known.
        for _ in 0..self.machine.left() {
            if self.machine.left() < records {
                break;
            }
            self.machine.done(typed.as_str())?;
        }
        let left = self.machine.left();
        self.machine.repeat(left, &["1"])?;
        if self.machine.compacting() {
            return Err(Fault::Compaction);
        }
        Ok(())
    }

    /// Stands that weigh as little as can be push out all others.
    pub fn lighten(&mut self) -> Result<(), Fault> {
        let typed = self.text.given(format!(in self.heap(); "1c")?, 1)?;
        self.machine.repeat(STANDS, &[typed.as_str()])
    }

    /// Shows lines until compaction has ended.
    pub fn settle(&mut self) -> Result<(), Fault> {
        for _ in 0..MOST_ROOM {
            if !self.machine.compacting() {
                return Ok(());
            }
            self.machine.done("1,100p")?;
        }
        Err(Fault::Compaction)
    }
}
