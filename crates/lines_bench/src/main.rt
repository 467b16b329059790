//! How long the moves of a directory of 500,000 entries take. Times go to standard error, since they vary.

#![tactic(auto)]

use lines::Cut;
use std::alloc::Global;
use std::time::Instant;

/// Entries in use.
const COUNT: usize = 500_000;

/// As many words as the machine's memory has for them, which is room for 524,289.
const WORDS: usize = 174_763;

/// How often each is done.
const TURNS: u32 = 20;

/// A directory whose entries are the records from 1 on, on tape 0.
// Not by `lines::fill`: where that is called here, too, the moves are compiled otherwise, and take a fourth longer.
fn filled(heap: Global) -> anyhow::Result<Vec<u64>> {
    let mut dir = vec![in heap; 0; WORDS]?;
    for i in 0..COUNT {
        lines::set(dir.as_mut_slice(), i, i as u64 + 1);
    }
    Ok(dir)
}

/// What one of so many turns takes.
fn time<F: FnMut()>(rt: &HostRuntime, what: &str, mut turn: F) -> anyhow::Result<()>
    requires { F.IsAlwaysCallable turn }
{
    let start = Instant::now(rt)?;
    for _ in 0..TURNS {
        turn();
    }
    let micros = start.elapsed(rt)?.as_micros() / u128::from(TURNS);
    eprintln!(rt; "{what}: {micros} us")?;
    Ok(())
}

/// So many entries from the front.
const fn front(gone: usize) -> Cut {
    Cut {
        count: COUNT,
        from: 0,
        gone,
    }
}

fn run(rt: &HostRuntime) -> anyhow::Result<()> {
    let mut entries = filled(rt.alloc())?;
    let dir = entries.as_mut_slice();
    time(rt, "one entry put in at the front", || {
        let _ = lines::splice(dir, front(0), &[7]);
    })?;
    time(rt, "one entry taken out at the front", || {
        let _ = lines::splice(dir, front(1), &[]);
    })?;
    time(rt, "20,000 entries duplicated to the front", || {
        let _ = lines::duplicate(dir, front(10_000), 400_000, 420_000);
    })?;
    time(rt, "the first entry moved behind the last", || {
        let _ = lines::rotate(dir, 0, 1, COUNT);
    })?;
    let mut found = 0;
    time(rt, "no entry of the other tape found", || {
        found = lines::next_on(dir, 0, COUNT, 1).max(found);
    })?;
    println!(rt; "{found}")?;
    Ok(())
}

fn main(rt: HostRuntime) -> anyhow::Result<()> {
    run(&rt)
}
