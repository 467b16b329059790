//! Plays days on the house and on a plain house beside it, with power that stops.

#![tactic(auto)]

use day::{Day, USUAL_ROOM};
use fault::Fault;
use random::Chance;
use stage::Counts;
use std::process::ExitCode;
use std::{env, fs};

mod asker;
mod day;
mod days;
mod every;
mod fault;
mod guess;
mod machine;
mod random;
mod stage;
mod tape;

/// A day that shows a difference is printed as short as it can be found.
fn print_short(rt: &HostRuntime, day: &Day) -> Result<(), Fault> {
    stage::shortened(day)?.write(&mut rt.stdout())
}

/// What was tried, which is told.
fn told(rt: &HostRuntime, name: &str, counts: Counts) -> Result<Counts, Fault> {
    println!(rt; "{name}:\n{counts}")?;
    Ok(counts)
}

fn play_once(rt: &HostRuntime, name: &str, day: &Day) -> Result<Counts, Fault> {
    let played = stage::play(day);
    if let Err(Fault::Differs(_)) = &played {
        print_short(rt, day)?;
    }
    told(rt, name, played?)
}

fn play_every(rt: &HostRuntime, name: &str, day: &Day) -> Result<Counts, Fault> {
    let played = every::every(day);
    if let Err(Fault::Differs(trail)) = &played {
        println!(rt; "{name}:")?;
        print_short(rt, &every::shown(day, *trail)?)?;
    }
    told(rt, name, played?)
}

/// The days that are always played.
fn all(rt: &HostRuntime) -> Result<Counts, Fault> {
    let heap = rt.alloc();
    let mut counts = Counts::default();
    for known in days::DAYS {
        let day = day::read(heap, known.text.as_bytes())?;
        counts += play_every(rt, known.name, &day)?;
    }
    let tight = (1..=3).map(|seed| Chance {
        seed,
        steps: 600,
        room: USUAL_ROOM,
    });
    let wide = (4..=6).map(|seed| Chance {
        seed,
        steps: 900,
        room: 1_500,
    });
    for chance in tight.chain(wide) {
        let Chance { seed, room, .. } = chance;
        let name = format!(in heap; "random {seed}, room {room}")?;
        counts += play_once(rt, name.as_str(), &chance.day(heap)?)?;
    }
    told(rt, "all", counts)
}

fn file(rt: &HostRuntime, name: &String) -> Result<Day, Fault> {
    let text = fs::read(rt, name)?;
    day::read(rt.alloc(), text.as_slice())
}

fn number(word: &String) -> Result<u64, Fault> {
    Ok(word.as_str().parse::<u64>()?)
}

fn obey(rt: &HostRuntime, verb: &str, words: &[String]) -> Result<Counts, Fault> {
    match (verb, words) {
        ("play", [name, ..]) => play_once(rt, name.as_str(), &file(rt, name)?),
        ("every", [name, ..]) => play_every(rt, name.as_str(), &file(rt, name)?),
        ("random", [seed, steps, rest @ ..]) => {
            let chance = Chance {
                seed: number(seed)?,
                steps: number(steps)?,
                room: rest.first().map_or(Ok(USUAL_ROOM), number)?,
            };
            play_once(rt, "random", &chance.day(rt.alloc())?)
        }
        _ => Err(Fault::Usage),
    }
}

fn run(rt: &HostRuntime) -> Result<Counts, Fault> {
    let words: Vec<String> = env::args(rt)?.skip(1).collect(rt.alloc())?;
    match words.as_slice() {
        [] => all(rt),
        [verb, words @ ..] => obey(rt, verb.as_str(), words),
    }
}

fn main(rt: HostRuntime) -> ExitCode {
    match run(&rt) {
        Ok(_) => ExitCode::SUCCESS,
        Err(fault) => {
            let _ = eprintln!(rt; "player: {fault}");
            ExitCode::FAILURE
        }
    }
}
