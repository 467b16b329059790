//! What the program is called with.

ghost use Rattle.std.specs.Prelude.{◌≤◌, IfSome};

use crate::Editor;
use crate::fault::{Fault, Misuse};
use std::alloc::{AllocError, Global};
use std::env;

/// The rooms of which the promise speaks. They stand here since it is a definition, with no code that has them.
const LEAST_ROOM: u64 = 1_024;

const MOST_ROOM: u64 = 1_048_576;

const USUAL_ROOM: u64 = 65_536;

/// The two files and how many records each has room for.
#[derive(Drop)]
pub struct Options {
    pub room: u64,
    pub names: [String; 2],
}

#[derive(Drop)]
pub enum Call {
    Print(&'static str),
    Edit(Options),
}

/// A room as it is written, if a tape can have it.
fn room_of(text: &str) -> Option<u64>
    ensures { IfSome result (λ n. (1024 ≤ n) × (n ≤ 1048576)) }
{
    text.parse()
        .ok()
        .filter(|room| (LEAST_ROOM..=MOST_ROOM).contains(room))
}

fn usual_names(heap: Global) -> Result<[String; 2], AllocError> {
    Ok([
        String::from_str(heap, "house.0")?,
        String::from_str(heap, "house.1")?,
    ])
}

/// The names given, or those that are used where none is.
fn two_names(heap: Global, names: Vec<String>) -> Result<[String; 2], Fault> {
    if names.is_empty() {
        return Ok(usual_names(heap)?);
    }
    let names = <[String; 2]>::try_from(names).map_err(|_| Misuse::Files)?;
    if names[0] == names[1] {
        return Err(Fault::Usage(Misuse::SameFile));
    }
    Ok(names)
}

/// The room that is said behind `--room`.
fn said_room(next: Option<String>) -> Result<u64, Misuse> {
    let text = next.ok_or(Misuse::NoRoom)?;
    room_of(text.as_str()).ok_or(Misuse::BadRoom)
}

/// That there is no such option.
fn unknown<E: Editor>() -> Fault {
    Fault::Usage(E::VERSION.map_or(Misuse::NotRoomOrHelp, |_| Misuse::NotRoomHelpOrVersion))
}

/// What the arguments ask for.
pub fn read<E: Editor>(rt: &HostRuntime) -> Result<Call, Fault> {
    let heap = rt.alloc();
    let mut names = Vec::new(heap);
    let mut room = USUAL_ROOM;
    let mut args = env::args(rt)?.skip(1);
    while let Some(arg) = args.next() {
        match arg.as_str() {
            "--help" => return Ok(Call::Print(E::HELP)),
            "--version" => return E::VERSION.map(Call::Print).ok_or(unknown::<E>()),
            "--room" => room = said_room(args.next())?,
            other if other.starts_with("--") => return Err(unknown::<E>()),
            _ => names.push(arg)?,
        }
    }
    Ok(Call::Edit(Options {
        room,
        names: two_names(heap, names)?,
    }))
}
