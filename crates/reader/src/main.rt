//! Reads typed lines from standard input and prints how each is read, in words.
//!
//! After a command that takes lines the lines up to one with only a dot are given to it.

#![tactic(auto)]

mod failure;
mod input;
mod quoted;
mod words;

use failure::why_not;
use input::next_typed;
use quoted::Quoted;
use std::alloc::Global;
use std::io;
use std::io::BufReader;
use typed::read;
use words::Reading;

/// What was typed and how it is read, in one line.
fn reading(heap: Global, typed: &[u8]) -> io::Result<String> {
    let shown = Quoted(typed);
    let Some(command) = read(typed) else {
        let failed = why_not(heap, typed)?;
        return Ok(format!(in heap; "{shown}: can't be read, {failed}")?);
    };
    let command = Reading(command);
    Ok(format!(in heap; "{shown}: {command}")?)
}

fn main(rt: HostRuntime) -> io::Result<()> {
    let heap = rt.alloc();
    let mut input = BufReader::new(heap, rt.stdin())?;
    let mut typed = Vec::new(heap);
    // Counted, since a proof has to see an end, and an input has none that is known.
    for _ in 0..u64::MAX {
        let Some(typed) = next_typed(&mut input, &mut typed)? else {
            break;
        };
        rt.println(reading(heap, typed)?)?;
    }
    Ok(())
}
