//! How many records the commands of the house read and put on, on two tapes in memory, and how long its steps take. The counts go to standard output;
//! times vary, so they go to standard error.

#![tactic(auto)]

use fault::Fault;
use report::{Facts, Row};
use std::env;
use std::process::ExitCode;
use texts::{Bench, Text};

mod cases;
mod clock;
mod fault;
mod machine;
mod report;
mod tape;
mod texts;
mod timing;

/// The text that longer ones are compared with.
const SHORT: Text = Text {
    lines: 1_000,
    width: 8,
};
/// The most lines of a text whose records are counted without being asked.
const COUNTED: u64 = 10_000;
/// One with the longest lines.
const WIDE: Text = Text {
    lines: 500,
    width: 1_024,
};

/// Counts for one text, and times where they are asked for.
fn count(rt: &HostRuntime, text: Text, facts: &mut Facts, timed: bool) -> Result<Vec<Row>, Fault> {
    let mut bench = Bench::build(rt, text)?;
    let rows = bench.rows(facts)?;
    bench.print(rows.as_slice())?;
    facts.look(rows.as_slice());
    if timed {
        bench.tell_all()?;
    }
    Ok(rows)
}

/// Whether all is asked for, or only the counts of short texts.
fn asks_for_all(rt: &HostRuntime) -> Result<bool, Fault> {
    let mut all = false;
    for arg in env::args(rt)?.skip(1) {
        match arg.as_str() {
            "all" => all = true,
            _ => return Err(Fault::Usage),
        }
    }
    Ok(all)
}

fn run(rt: &HostRuntime) -> Result<(), Fault> {
    let all = asks_for_all(rt)?;
    let mut facts = Facts::default();
    let shorter = count(rt, SHORT, &mut facts, all)?;
    let _ = count(rt, WIDE, &mut facts, all)?;
    for lines in [10_000, 100_000, 400_000] {
        if all || lines <= COUNTED {
            let longer = count(rt, Text { lines, width: 8 }, &mut facts, all)?;
            facts.compare(shorter.as_slice(), longer.as_slice());
        }
    }
    rt.println(facts)?;
    if all {
        timing::all(rt)?;
    }
    if facts.hold() {
        Ok(())
    } else {
        Err(Fault::Exceeded)
    }
}

fn main(rt: HostRuntime) -> ExitCode {
    match run(&rt) {
        Ok(()) => ExitCode::SUCCESS,
        Err(fault) => {
            let _ = eprintln!(rt; "house_bench: {fault}");
            ExitCode::FAILURE
        }
    }
}
