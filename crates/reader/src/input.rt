//! What is typed, taken line by line.
ghost use Rattle.std.specs.Prelude.{◌≡◌};
ghost use Rattle.plain.specs.Command.{reads};
ghost use Rattle.reader.specs.Given.{takes_lines};

use std::io;
use std::io::BufRead;
use typed::{Command, Deed, read};

/// Whether lines are given after these bytes.
fn takes_lines(typed: &[u8]) -> bool
    ensures { result ≡ takes_lines (reads typed.now) }
{
    let Some(Command::Plain(simple) | Command::Global { simple, .. }) = read(typed) else {
        return false;
    };
    matches!(
        simple.deed,
        Deed::Append(_) | Deed::Insert(_) | Deed::Change(_)
    )
}

/// The next line in place of what `line` holds, without its newline; none at the end of the input. The buffer is lent: `split` would take memory for each line.
fn next_line<'a>(input: &mut impl BufRead, line: &'a mut Vec<u8>) -> io::Result<Option<&'a [u8]>> {
    line.clear();
    if input.read_until(b'\n', line)? == 0 {
        return Ok(None);
    }
    if line.last() == Some(&b'\n') {
        let _ = line.pop();
    }
    Ok(Some(line.as_slice()))
}

/// Lines up to one with only a dot, each put behind a newline.
fn take_lines(input: &mut impl BufRead, typed: &mut Vec<u8>) -> io::Result<()> {
    let mut line = Vec::new(*typed.allocator());
    // Counted, since a proof has to see an end, and an input has none that is known.
    for _ in 0..u64::MAX {
        let Some(line) = next_line(input, &mut line)? else {
            break;
        };
        if line == b".".as_slice() {
            break;
        }
        typed.push(b'\n')?;
        typed.extend_from_slice(line)?;
    }
    Ok(())
}

/// A typed line with the lines given after it, in place of what `typed` holds; none at the end of the input.
pub fn next_typed<'a>(
    input: &mut impl BufRead,
    typed: &'a mut Vec<u8>,
) -> io::Result<Option<&'a [u8]>> {
    if next_line(input, typed)?.is_none() {
        return Ok(None);
    }
    if takes_lines(typed.as_slice()) {
        take_lines(input, typed)?;
    }
    Ok(Some(typed.as_slice()))
}
