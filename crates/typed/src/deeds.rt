//! What is to be done: the letter after a range, and what follows it.
ghost use Rattle.std.specs.Prelude.{◌≡◌, ℕ, ◌<◌, length};
ghost use Rattle.plain.specs.Command.{a_file, ended, which_of, deed, for_many};
ghost use Rattle.typed.specs.Meaning.{bytes, which_number, deed_of};
ghost use Rattle.typed.specs.Answer.{whole, a_swap};

use crate::addresses::{Address, number, or_here, up_to};
use crate::given::{Lines, given_lines};

/// The longest name of a file, in bytes.
pub const LONGEST_NAME: usize = 64;

/// The least that counts a match.
const FIRST_MATCH: u64 = 1;

/// Which match in a line is replaced.
#[derive(Clone, Copy)]
pub enum Which {
    All,
    /// The first is 1.
    Nth(u64),
}

/// What is to be done with a range of lines.
#[derive(Clone, Copy)]
pub enum Deed<'a> {
    Append(Lines<'a>),
    Insert(Lines<'a>),
    Change(Lines<'a>),
    Delete,
    Join,
    Move(Address<'a>),
    Copy(Address<'a>),
    Mark(u8),
    Print,
    /// Print with line numbers.
    Number,
    /// Show the number of a line.
    LineNumber,
    Substitute {
        pattern: &'a [u8],
        with: &'a [u8],
        which: Which,
    },
    /// An address alone.
    GoTo,
    Undo,
    Redo,
    Write(&'a [u8]),
    Edit(&'a [u8]),
    Read(&'a [u8]),
    /// List the files.
    Files,
}

/// One blank and a name of 1 to 64 bytes to the end.
fn file_name(cs: &[u8]) -> Option<&[u8]>
    ensures { whole bytes result ≡ a_file cs.now }
{
    let [b' ', name @ ..] = cs else {
        return None;
    };
    if name.is_empty() || name.len() > LONGEST_NAME || name.contains(&b'\n') {
        return None;
    }
    Some(name)
}

/// The deed, if nothing follows it.
fn alone<'a>(deed: Deed<'a>, cs: &[u8]) -> Option<Deed<'a>>
    ensures { whole deed_of result ≡ ended (deed_of deed.entry) cs.now }
{
    cs.is_empty().then_some(deed)
}

/// Which match is replaced: the first, all, or one from 1 to 999.
fn which_match(cs: &[u8]) -> Option<Which>
    ensures { whole which_number result ≡ which_of cs.now }
{
    match cs {
        [] => Some(Which::Nth(1)),
        [b'g'] => Some(Which::All),
        _ => {
            let (n, rest) = number(cs)?;
            let fits = n >= FIRST_MATCH && rest.is_empty() && cs.len() <= 3;
            fits.then_some(Which::Nth(n))
        }
    }
}

/// A pattern, what is put in place of a match, and which match.
fn substitution(cs: &[u8]) -> Option<Deed<'_>>
    ensures { whole deed_of result ≡ a_swap cs.now }
{
    let [b'/', rest @ ..] = cs else {
        return None;
    };
    let (pattern, rest) = up_to(b'/', rest)?;
    let (with, rest) = up_to(b'/', rest)?;
    let which = which_match(rest)?;
    Some(Deed::Substitute {
        pattern,
        with,
        which,
    })
}

/// What is to be done, by its letter; nothing may be left behind it.
pub(crate) fn read_deed(cs: &[u8]) -> Option<Deed<'_>>
    requires { length cs.now < 65536 }
    ensures { whole deed_of result ≡ deed cs.now }
{
    let [c, rest @ ..] = cs else {
        return Some(Deed::GoTo);
    };
    match *c {
        b'a' => Some(Deed::Append(given_lines(rest)?)),
        b'i' => Some(Deed::Insert(given_lines(rest)?)),
        b'c' => Some(Deed::Change(given_lines(rest)?)),
        b'd' => alone(Deed::Delete, rest),
        b'j' => alone(Deed::Join, rest),
        b'm' => {
            let (to, rest) = or_here(rest)?;
            alone(Deed::Move(to), rest)
        }
        b't' => {
            let (to, rest) = or_here(rest)?;
            alone(Deed::Copy(to), rest)
        }
        b'k' => match rest {
            [mark @ b'a'..=b'z'] => Some(Deed::Mark(*mark)),
            _ => None,
        },
        b'p' => alone(Deed::Print, rest),
        b'n' => alone(Deed::Number, rest),
        b'=' => alone(Deed::LineNumber, rest),
        b'u' => alone(Deed::Undo, rest),
        b'U' => alone(Deed::Redo, rest),
        b'w' => Some(Deed::Write(file_name(rest)?)),
        b'e' => Some(Deed::Edit(file_name(rest)?)),
        b'r' => Some(Deed::Read(file_name(rest)?)),
        b'f' => alone(Deed::Files, rest),
        b's' => substitution(rest),
        _ => None,
    }
}

/// Whether a deed may be done for many lines.
pub(crate) fn may_repeat(deed: &Deed<'_>) -> bool
    ensures { result ≡ for_many (deed_of deed.now) }
{
    !matches!(
        deed,
        Deed::Undo | Deed::Redo | Deed::Write(_) | Deed::Edit(_) | Deed::Read(_) | Deed::Files
    )
}
