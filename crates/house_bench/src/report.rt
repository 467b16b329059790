//! Records of every command on one text, at rest and while compaction runs, and what has to hold of them.

use crate::cases::{Case, Deed, LINES, Place};
use crate::fault::Fault;
use crate::machine::{Cost, Outcome, Refusal};
use crate::texts::{Bench, Text};
use std::alloc::Global;
use std::fmt;

/// The most records of a command on one line, at rest.
const SINGLE: u64 = 8;
/// The most records of a command that goes to a line and shows it.
const BEGUN: u64 = 768;

/// What a command took at rest and while compaction ran.
#[derive(Clone, Copy)]
pub struct Row {
    case: Case,
    rest: Outcome,
    busy: Outcome,
}

/// What was seen in all rows that were looked at.
#[derive(Clone, Copy, Default)]
pub struct Facts {
    /// The most records of a command on one line, at rest.
    single: u64,
    /// Whether a command by numbers took more than what is allowed.
    exceeded: bool,
    /// Whether at rest the records were others in a longer text.
    differs: bool,
    /// What the command took that began compaction, at most.
    begun: u64,
}

/// All commands that are measured, those that end compaction last.
fn cases(heap: Global, text: Text) -> Result<Vec<Case>, Fault> {
    let most = text.most_given();
    let on_lines = LINES.into_iter().flat_map(|(deed, lines)| {
        [Place::Front, Place::Middle, Place::End].map(|place| Case {
            deed,
            lines: lines.min(most),
            place,
        })
    });
    let on_all = [Deed::Files, Deed::Write, Deed::Edit].map(|deed| Case {
        deed,
        lines: 1,
        place: Place::All,
    });
    Ok(on_lines.chain(on_all).collect(heap)?)
}

impl Bench<'_> {
    /// Every command, first while no compaction runs, and then while one does.
    pub fn rows(&mut self, facts: &mut Facts) -> Result<Vec<Row>, Fault> {
        // Not collected, here and below: each step changes the machine and may fail.
        let mut rows = Vec::new(self.heap());
        for (case, rest) in self.at_rest()? {
            self.begin(facts)?;
            let busy = self.measure(case)?;
            rows.push(Row { case, rest, busy })?;
        }
        self.settle()?;
        Ok(rows)
    }

    /// Every command while no compaction runs.
    fn at_rest(&mut self) -> Result<Vec<(Case, Outcome)>, Fault> {
        let heap = self.heap();
        let mut outcomes = Vec::new(heap);
        for case in cases(heap, self.text)? {
            outcomes.push((case, self.measure(case)?))?;
            if self.machine.compacting() {
                return Err(Fault::Compaction);
            }
        }
        Ok(outcomes)
    }

    /// One command, after which the text is as it was.
    fn measure(&mut self, case: Case) -> Result<Outcome, Fault> {
        let heap = self.heap();
        let typed = case.typed(heap, self.text)?;
        let outcome = self.machine.command(typed.as_str())?;
        if outcome.is_err() {
            return Ok(outcome);
        }
        if let Some(undone) = case.undone(heap, self.text)? {
            self.machine.done(undone.as_str())?;
        }
        if case.deed == Deed::Edit {
            self.lighten()?;
        }
        Ok(outcome)
    }

    /// Begins compaction, if none runs, by a command on one line.
    fn begin(&mut self, facts: &mut Facts) -> Result<(), Fault> {
        if self.machine.compacting() {
            return Ok(());
        }
        self.fill()?;
        let cost = self.machine.done("1")?;
        facts.begun = facts.begun.max(cost.records());
        if self.machine.compacting() {
            Ok(())
        } else {
            Err(Fault::Compaction)
        }
    }

    /// A line for each command.
    pub fn print(&self, rows: &[Row]) -> Result<(), Fault> {
        let rt = self.rt();
        let Text { lines, width } = self.text;
        let room = self.text.room();
        println!(rt; "{lines} lines of {width} bytes, tapes of {room} records")?;
        println!(rt; "                  at rest         while compaction runs")?;
        println!(rt; "command    place     read     put    read     put allowed")?;
        for row in rows {
            rt.println(row)?;
        }
        Ok(())
    }
}

/// The records of a command in columns.
#[derive(Clone, Copy)]
struct Columns(Outcome);

impl fmt::Display for Columns {
    fn fmt<W: fmt::Write>(&self, f: &mut fmt::Formatter<W>) -> fmt::Result {
        match self.0 {
            Ok(Cost { read, put, .. }) => write!(f, " {read:>7} {put:>7}"),
            Err(Refusal(number)) => write!(f, "       refused {number}"),
        }
    }
}

impl fmt::Display for Row {
    fn fmt<W: fmt::Write>(&self, f: &mut fmt::Formatter<W>) -> fmt::Result {
        let Row { case, rest, busy } = *self;
        write!(f, "{case}{}{}", Columns(rest), Columns(busy))?;
        match busy {
            Ok(cost) if case.is_bounded() => write!(f, " {:>7}", case.allowed(cost.shown.0)),
            _ => Ok(()),
        }
    }
}

impl Row {
    /// Whether the command stayed within what is allowed.
    fn is_within(self, outcome: Outcome) -> bool {
        !self.case.is_bounded()
            || outcome.map_or(
                true,
                |cost| cost.records() <= self.case.allowed(cost.shown.0),
            )
    }

    /// The records that were read and put on at rest.
    fn records(self) -> Result<(u64, u64), Refusal> {
        self.rest.map(|cost| (cost.read.0, cost.put.0))
    }
}

impl Facts {
    /// Looks at the rows of one text.
    pub fn look(&mut self, rows: &[Row]) {
        for row in rows {
            if row.case.is_single() {
                self.single = self.single.max(row.rest.map_or(0, Cost::records));
            }
            self.exceeded = self.exceeded || !row.is_within(row.rest) || !row.is_within(row.busy);
        }
    }

    /// Compares the rows of one text with those of a shorter one, but for commands on all lines.
    pub fn compare(&mut self, shorter: &[Row], longer: &[Row]) {
        for (one, other) in shorter.iter().zip(longer) {
            if one.case.place != Place::All {
                self.differs = self.differs || one.records() != other.records();
            }
        }
    }

    /// Whether all holds.
    pub fn hold(&self) -> bool {
        self.single <= SINGLE && !self.differs && !self.exceeded && self.begun <= BEGUN
    }
}

/// Whether a bound is kept.
#[derive(Clone, Copy)]
struct Kept(bool);

impl fmt::Display for Kept {
    fn fmt<W: fmt::Write>(&self, f: &mut fmt::Formatter<W>) -> fmt::Result {
        f.write_str(if self.0 { "kept" } else { "exceeded" })
    }
}

impl fmt::Display for Facts {
    fn fmt<W: fmt::Write>(&self, f: &mut fmt::Formatter<W>) -> fmt::Result {
        let single = self.single;
        let begun = self.begun;
        let few = Kept(single <= SINGLE);
        let same = Kept(!self.differs);
        let within = Kept(!self.exceeded && begun <= BEGUN);
        writeln!(
            f,
            "one line put in, taken out or shown, at rest: at most {single} records of {SINGLE}: {few}"
        )?;
        writeln!(
            f,
            "at rest as many records in a longer text, for all but the whole text: {same}"
        )?;
        writeln!(
            f,
            "a line alone that begins compaction: at most {begun} records of {BEGUN}"
        )?;
        write!(
            f,
            "within 256 + 256 * (lines of the range + given + shown): {within}"
        )
    }
}
