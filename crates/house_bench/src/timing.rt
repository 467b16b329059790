//! How long steps take, and to wake up. All of it goes to standard error.

use crate::clock::Kind;
use crate::fault::Fault;
use crate::texts::{Bench, Text};
use std::alloc::Global;
use std::fmt;
use std::time::Instant;

/// How often a command is done whose steps are timed.
const TURNS: u64 = 50;
/// How many small commands are timed together.
const COMMANDS: u64 = 10_000;
/// In longer texts they aren't.
const EDITED: u64 = 100_000;

/// What small commands do.
#[derive(Clone, Copy)]
enum Habit {
    /// All over the text: append, delete, change, show, go to a line.
    Mixed,
    /// The first line is shown.
    Showing,
    /// A line is put in at the front, and taken out again.
    Front,
}

impl fmt::Display for Habit {
    fn fmt<W: fmt::Write>(&self, f: &mut fmt::Formatter<W>) -> fmt::Result {
        f.write_str(match self {
            Habit::Mixed => "of all kinds",
            Habit::Showing => "that show the first line",
            Habit::Front => "at the front, 1i and 1d in turn",
        })
    }
}

impl Habit {
    /// How the command of a turn is typed.
    fn typed(self, heap: Global, turn: u64, text: Text) -> Result<String, Fault> {
        let line = turn.wrapping_mul(7_919) % text.lines.max(1) + 1;
        let (line, deed, given) = match self {
            Habit::Mixed => match turn % 5 {
                0 => (line, "a", 1),
                1 => (line, "d", 0),
                2 => (line, "c", 1),
                3 => (line, "p", 0),
                _ => (line, "", 0),
            },
            Habit::Showing => (1, "p", 0),
            Habit::Front if turn % 2 == 0 => (1, "i", 1),
            Habit::Front => (1, "d", 0),
        };
        text.given(format!(in heap; "{line}{deed}")?, given)
    }
}

impl Bench<'_> {
    /// How long the steps of a kind took since the clocks began.
    fn tell(&self, what: &str, kind: Kind) -> Result<(), Fault> {
        let clock = self.machine.clock(kind);
        eprintln!(self.rt(); "  {what}: {clock}")?;
        Ok(())
    }

    // Three functions: what is typed, and which steps are told of, differ in each.
    /// One line put in at the front and taken out again.
    fn front(&mut self) -> Result<(), Fault> {
        let put = self.text.given(format!(in self.heap(); "1i")?, 1)?;
        self.machine.start_clocks();
        self.machine.repeat(TURNS, &[put.as_str(), "1d"])?;
        self.tell("a splice applied at the front, by 1i and 1d", Kind::Commit)
    }

    /// The same lines shown again and again.
    fn shows(&mut self) -> Result<(), Fault> {
        self.machine.start_clocks();
        self.machine.repeat(TURNS, &["1,100p"])?;
        self.tell("a line shown", Kind::Show)?;
        self.tell("a line asked for", Kind::Ask)?;
        self.tell("the commit of a p, that moves nothing", Kind::Commit)
    }

    /// A compaction from its beginning to its end.
    fn carries(&mut self) -> Result<(), Fault> {
        self.machine.start_clocks();
        self.machine.done("1")?;
        self.settle()?;
        self.tell("a line carried", Kind::Carry)?;
        self.tell("the next one to carry asked for", Kind::Ask)
    }

    /// Power comes.
    fn wakes(&mut self, what: &str) -> Result<(), Fault> {
        let rt = self.rt();
        self.machine.start_clocks();
        let start = Instant::now(rt)?;
        let cost = self.machine.wake()?;
        let took = start.elapsed(rt)?.as_millis();
        let read = cost.read;
        let put = cost.put;
        eprintln!(rt; "  waking up {what}: {took} ms, {read} records read, {put} put on")?;
        Ok(())
    }

    /// Many commands on one line each, and waking up with all of them on the tape.
    fn edits(&mut self, habit: Habit) -> Result<(), Fault> {
        let rt = self.rt();
        let heap = self.heap();
        let start = Instant::now(rt)?;
        for turn in 0..COMMANDS {
            let typed = habit.typed(heap, turn, self.text)?;
            self.machine.done(typed.as_str())?;
        }
        let took = start.elapsed(rt)?.as_millis();
        eprintln!(rt; "  {COMMANDS} commands on one line each, {habit}: {took} ms")?;
        self.settle()?;
        self.wakes("after these")
    }

    /// All times of one text.
    fn time(&mut self) -> Result<(), Fault> {
        let lines = self.text.lines;
        eprintln!(self.rt(); "{lines} lines")?;
        self.wakes("with a text that was given")?;
        self.wakes("after that")?;
        self.front()?;
        self.shows()?;
        if lines <= EDITED {
            for habit in [Habit::Mixed, Habit::Showing, Habit::Front] {
                self.edits(habit)?;
            }
        }
        self.fill()?;
        self.carries()?;
        self.fill()?;
        self.wakes("with a tape nearly full")
    }

    /// All steps that were made to count the records of one text.
    pub fn tell_all(&self) -> Result<(), Fault> {
        let Text { lines, width } = self.text;
        eprintln!(self.rt(); "{lines} lines of {width} bytes, all steps of the counts")?;
        for (what, kind) in [
            ("a row shown", Kind::Show),
            ("a line carried", Kind::Carry),
            ("a record asked for", Kind::Ask),
            ("a line put on", Kind::Line),
            ("a commit put on and applied", Kind::Commit),
            ("all else", Kind::Other),
        ] {
            self.tell(what, kind)?;
        }
        Ok(())
    }
}

/// Times of texts of all sizes.
pub fn all(rt: &HostRuntime) -> Result<(), Fault> {
    for lines in [1_000, 10_000, 100_000, 400_000] {
        Bench::build(rt, Text { lines, width: 8 })?.time()?;
    }
    Ok(())
}
