//! What is typed: a command, with the lines that it is given.

ghost use Rattle.frontend.specs.Typing.{deeds, takes_lines, rows_of};
ghost use Rattle.plain.specs.Command.{reads};
ghost use Rattle.typed.specs.Answer.{listed};
ghost use Rattle.typed.specs.Meaning.{deed_of};
ghost use Rattle.std.specs.Prelude.{◌≡◌};

use crate::console::Console;
use crate::fault::Fault;
use crate::rows::Rows;
use typed::{Command, Deed};

/// What a command does to its lines, if it can be read.
fn deed(text: &[u8]) -> Option<Deed<'_>>
    ensures { listed deed_of result ≡ deeds (reads text.now) }
{
    match typed::read(text)? {
        Command::Plain(simple) | Command::Global { simple, .. } => Some(simple.deed),
    }
}

/// Whether lines are typed behind a command line. `reader` asks the same, but takes lines without a prompt and a console of its own.
fn takes_lines(line: &[u8]) -> bool
    ensures { result ≡ takes_lines (deeds (reads line.now)) }
{
    matches!(
        deed(line),
        Some(Deed::Append(_) | Deed::Insert(_) | Deed::Change(_))
    )
}

/// What the rows of a command hold.
pub fn rows(text: &[u8]) -> Rows
    ensures { result ≡ rows_of (deeds (reads text.now)) }
{
    match deed(text) {
        Some(Deed::Number) => Rows::Numbered,
        Some(Deed::LineNumber | Deed::Write(_) | Deed::Edit(_)) => Rows::Counts,
        Some(Deed::Files) => Rows::Files,
        _ => Rows::Lines,
    }
}

/// Lines up to one with only a dot, or to the end of the input, each behind a byte 10.
fn read_given(console: &mut Console, text: &mut Vec<u8>) -> Result<(), Fault> {
    let mut line = Vec::new(*text.allocator());
    // Counted, and not over the lines themselves: a person is asked before each.
    for _ in 0..u64::MAX {
        console.ask_given()?;
        let Some(line) = console.read_line(&mut line)? else {
            break;
        };
        if line == b".".as_slice() {
            break;
        }
        text.push(b'\n')?;
        text.extend_from_slice(line)?;
    }
    Ok(())
}

/// The next command in place of what `text` holds; none at the end of the input.
pub fn read_command<'a>(
    console: &mut Console,
    text: &'a mut Vec<u8>,
) -> Result<Option<&'a [u8]>, Fault> {
    if console.read_line(text)?.is_none() {
        return Ok(None);
    }
    if takes_lines(text.as_slice()) {
        read_given(console, text)?;
    }
    Ok(Some(text.as_slice()))
}
