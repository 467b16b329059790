//! A whole command.
ghost use Rattle.std.specs.Prelude.{◌≡◌, ℕ, ◌<◌, length};
ghost use Rattle.plain.specs.Command.{simple, command, reads};
ghost use Rattle.typed.specs.Meaning.{range_of, simple_of, command_of};
ghost use Rattle.typed.specs.Answer.{whole, listed, all_of};

use crate::addresses::{Range, read_range, up_to};
use crate::deeds::{Deed, may_repeat, read_deed};

/// The most bytes that are typed.
pub const LONGEST_TYPED: usize = 65535;

/// A range, and what is to be done with it.
#[derive(Clone, Copy)]
pub struct Simple<'a> {
    pub range: Range<'a>,
    pub deed: Deed<'a>,
}

/// What was typed.
#[derive(Clone, Copy)]
pub enum Command<'a> {
    Plain(Simple<'a>),
    /// For each line of the range that matches the pattern, or for each that doesn't.
    Global {
        range: Range<'a>,
        matching: bool,
        pattern: &'a [u8],
        simple: Simple<'a>,
    },
}

/// A range and a deed, to the end.
fn read_simple(cs: &[u8]) -> Option<Simple<'_>>
    requires { length cs.now < 65536 }
    ensures { whole simple_of result ≡ simple cs.now }
{
    let (range, rest) = read_range(cs)?;
    let deed = read_deed(rest)?;
    Some(Simple { range, deed })
}

/// A pattern between slashes, and what is done for each line that matches it, or for each other.
fn global<'a>(range: Range<'a>, matching: bool, cs: &'a [u8]) -> Option<Command<'a>>
    requires { length cs.now < 65536 }
    ensures { whole command_of result ≡ all_of (range_of range.entry) matching cs.now }
{
    let [b'/', rest @ ..] = cs else {
        return None;
    };
    let (pattern, rest) = up_to(b'/', rest)?;
    let simple = read_simple(rest)?;
    may_repeat(&simple.deed).then_some(Command::Global {
        range,
        matching,
        pattern,
        simple,
    })
}

/// A command, to the end.
fn read_command(cs: &[u8]) -> Option<Command<'_>>
    requires { length cs.now < 65536 }
    ensures { whole command_of result ≡ command cs.now }
{
    let (range, rest) = read_range(cs)?;
    match rest {
        [b'g', rest @ ..] => global(range, true, rest),
        [b'v', rest @ ..] => global(range, false, rest),
        _ => {
            let deed = read_deed(rest)?;
            Some(Command::Plain(Simple { range, deed }))
        }
    }
}

/// The command that was typed, if these bytes are one: no more than `LONGEST_TYPED` of them are.
pub fn read(typed: &[u8]) -> Option<Command<'_>>
    ensures { listed command_of result ≡ reads typed.now }
{
    if typed.len() > LONGEST_TYPED {
        return None;
    }
    read_command(typed)
}
