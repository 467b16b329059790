//! Commands in words.
ghost use Rattle.std.specs.Prelude.{◌≡◌};
ghost use Rattle.plain.specs.House.{takes};
ghost use Rattle.typed.specs.Meaning.{itself, address_of, deed_of};
ghost use Rattle.typed.specs.Answer.{listed};
ghost use Rattle.reader.specs.Words.{bare, default_number, for_each, has_range};

use crate::quoted::Quoted;
use std::fmt;
use typed::{Address, Command, Deed, Lines, Place, Range, Reach, Simple, Which};

/// How many given lines are shown.
const SHOWN: usize = 3;

/// A pattern; an empty one is the last one given.
#[derive(Clone, Copy)]
struct Pattern<'a>(&'a [u8]);

impl fmt::Display for Pattern<'_> {
    fn fmt<W: fmt::Write>(&self, f: &mut fmt::Formatter<W>) -> fmt::Result {
        if self.0.is_empty() {
            return f.write_str("the last pattern");
        }
        let bytes = Quoted(self.0);
        write!(f, "/{bytes}/")
    }
}

/// A place in words.
#[derive(Clone, Copy)]
struct Spot<'a>(Place<'a>);

impl fmt::Display for Spot<'_> {
    fn fmt<W: fmt::Write>(&self, f: &mut fmt::Formatter<W>) -> fmt::Result {
        match self.0 {
            Place::Current => f.write_str("the current line"),
            Place::Last => f.write_str("the last line"),
            Place::Number(n) => write!(f, "line {n}"),
            Place::Mark(mark) => write!(f, "the line marked {}", char::from(mark)),
            Place::Next(text) => write!(f, "the next line with {}", Pattern(text)),
            Place::Previous(text) => write!(f, "the line before with {}", Pattern(text)),
        }
    }
}

/// An address in words.
#[derive(Clone, Copy)]
struct Line<'a>(Address<'a>);

impl fmt::Display for Line<'_> {
    fn fmt<W: fmt::Write>(&self, f: &mut fmt::Formatter<W>) -> fmt::Result {
        let address = self.0;
        write!(f, "{}", Spot(address.place))?;
        if address.on > 0 {
            write!(f, " and {} on", address.on)?;
        }
        if address.back > 0 {
            write!(f, " and {} back", address.back)?;
        }
        Ok(())
    }
}

/// The number that an address is, if it is nothing but a number.
fn bare_number(address: &Address<'_>) -> Option<u64>
    ensures { listed itself result ≡ bare (address_of address.now) }
{
    match address.place {
        Place::Number(n) if address.on == 0 && address.back == 0 => Some(n),
        _ => None,
    }
}

/// A range, and what is meant where none was typed.
#[derive(Clone, Copy)]
struct Extent<'a> {
    range: Range<'a>,
    otherwise: Otherwise,
}

impl fmt::Display for Extent<'_> {
    fn fmt<W: fmt::Write>(&self, f: &mut fmt::Formatter<W>) -> fmt::Result {
        let first = Line(self.range.first);
        let second = Line(self.range.second);
        match self.range.reach {
            Reach::Unspecified => write!(f, "{}", self.otherwise),
            Reach::All => f.write_str("all lines"),
            Reach::One => write!(f, "{first}"),
            Reach::FromFirst => write!(f, "from {first}, made the current line, to {second}"),
            Reach::Two => match (bare_number(&first.0), bare_number(&second.0)) {
                (Some(from), Some(to)) => write!(f, "lines {from} to {to}"),
                _ => write!(f, "from {first} to {second}"),
            },
        }
    }
}

/// Given lines: how many, the first few, and whether one is too long.
#[derive(Clone, Copy)]
struct Given<'a>(Lines<'a>);

fn show_first<W: fmt::Write>(lines: Lines<'_>, f: &mut fmt::Formatter<W>) -> fmt::Result {
    let mut rest = lines;
    let mut before = " (";
    // Each begins where the one before it ended: `nth` would go back to the start for each.
    for _ in 0..SHOWN {
        let Some((line, behind)) = rest.split_first() else {
            break;
        };
        let line = Quoted(line);
        write!(f, "{before}\"{line}\"")?;
        before = ", ";
        rest = behind;
    }
    Ok(())
}

impl fmt::Display for Given<'_> {
    fn fmt<W: fmt::Write>(&self, f: &mut fmt::Formatter<W>) -> fmt::Result {
        let lines = self.0;
        match lines.count() {
            0 => return f.write_str("no line"),
            1 => f.write_str("1 line")?,
            n => write!(f, "{n} lines")?,
        }
        show_first(lines, f)?;
        if lines.nth(SHOWN).is_some() {
            f.write_str(", ...")?;
        }
        if !lines.all_short() {
            f.write_str("; not all short enough")?;
        }
        f.write_str(")")
    }
}

/// Which matches, in words.
#[derive(Clone, Copy)]
struct Matches(Which);

impl fmt::Display for Matches {
    fn fmt<W: fmt::Write>(&self, f: &mut fmt::Formatter<W>) -> fmt::Result {
        match self.0 {
            Which::All => f.write_str("every match"),
            Which::Nth(1) => f.write_str("the first match"),
            Which::Nth(n) => write!(f, "match {n}"),
        }
    }
}

/// What is done, in words.
#[derive(Clone, Copy)]
struct Done<'a>(Deed<'a>);

impl fmt::Display for Done<'_> {
    fn fmt<W: fmt::Write>(&self, f: &mut fmt::Formatter<W>) -> fmt::Result {
        match self.0 {
            Deed::Append(lines) => write!(f, "with {} put after it", Given(lines)),
            Deed::Insert(lines) => write!(f, "with {} put before it", Given(lines)),
            Deed::Change(lines) => write!(f, "replaced by {}", Given(lines)),
            Deed::Delete => f.write_str("deleted"),
            Deed::Join => f.write_str("joined into one"),
            Deed::Move(to) => write!(f, "moved after {}", Line(to)),
            Deed::Copy(to) => write!(f, "copied after {}", Line(to)),
            Deed::Mark(mark) => write!(f, "marked {}", char::from(mark)),
            Deed::Print => f.write_str("shown"),
            Deed::Number => f.write_str("shown with numbers"),
            Deed::LineNumber => f.write_str("its number shown"),
            Deed::Substitute {
                pattern,
                with,
                which,
            } => {
                write!(
                    f,
                    "{} of {} replaced by \"{}\"",
                    Matches(which),
                    Pattern(pattern),
                    Quoted(with)
                )
            },
            Deed::GoTo => f.write_str("made the current line and shown"),
            Deed::Undo => f.write_str("the last change taken back"),
            Deed::Redo => f.write_str("what was taken back last done again"),
            Deed::Write(name) => write!(f, "written to the file \"{}\"", Quoted(name)),
            Deed::Edit(name) => write!(f, "the text replaced by the file \"{}\"", Quoted(name)),
            Deed::Read(name) => write!(
                f,
                "with the lines of the file \"{}\" put after it",
                Quoted(name)
            ),
            Deed::Files => f.write_str("the files listed"),
        }
    }
}

/// Whether a range typed before this counts.
fn takes_range(deed: &Deed<'_>) -> bool
    ensures { result ≡ has_range (deed_of deed.now) }
{
    !matches!(deed, Deed::Undo | Deed::Redo | Deed::Edit(_) | Deed::Files)
}

/// What is meant where no range was typed.
#[derive(Clone, Copy)]
enum Otherwise {
    Current,
    CurrentAndNext,
    Last,
    All,
    Next,
    /// Of a global command, the line for which it is done.
    Itself,
}

impl fmt::Display for Otherwise {
    fn fmt<W: fmt::Write>(&self, f: &mut fmt::Formatter<W>) -> fmt::Result {
        f.write_str(match self {
            Otherwise::Current => "the current line",
            Otherwise::CurrentAndNext => "the current line and the next",
            Otherwise::Last => "the last line",
            Otherwise::All => "all lines",
            Otherwise::Next => "the next line",
            Otherwise::Itself => "the line itself",
        })
    }
}

/// What a deed takes if no range was typed.
#[tactic(auto, unfolding(plain::specs::House::takes))]
fn default_range(deed: &Deed<'_>) -> Otherwise
    ensures { default_number result ≡ takes (deed_of deed.now) }
{
    match deed {
        Deed::Join => Otherwise::CurrentAndNext,
        Deed::LineNumber | Deed::Read(_) => Otherwise::Last,
        Deed::Write(_) => Otherwise::All,
        Deed::GoTo => Otherwise::Next,
        _ => Otherwise::Current,
    }
}

/// The same for each line of a global command: an address alone that isn't one is the line itself.
#[tactic(auto, unfolding(plain::specs::House::takes, plain::specs::House::is_go))]
fn default_for_each(deed: &Deed<'_>) -> Otherwise
    ensures { default_number result ≡ for_each (deed_of deed.now) }
{
    match deed {
        Deed::GoTo => Otherwise::Itself,
        _ => default_range(deed),
    }
}

/// A simple command, and what is meant where no range was typed.
#[derive(Clone, Copy)]
struct Sentence<'a> {
    simple: Simple<'a>,
    otherwise: Otherwise,
}

impl fmt::Display for Sentence<'_> {
    fn fmt<W: fmt::Write>(&self, f: &mut fmt::Formatter<W>) -> fmt::Result {
        let Simple { range, deed } = self.simple;
        let otherwise = self.otherwise;
        let done = Done(deed);
        if takes_range(&deed) {
            let extent = Extent { range, otherwise };
            return write!(f, "{extent}, {done}");
        }
        write!(f, "{done}")?;
        match range.reach {
            Reach::Unspecified => Ok(()),
            _ => f.write_str(" (the range is left aside)"),
        }
    }
}

/// A command in words.
#[derive(Clone, Copy)]
pub struct Reading<'a>(pub Command<'a>);

impl fmt::Display for Reading<'_> {
    fn fmt<W: fmt::Write>(&self, f: &mut fmt::Formatter<W>) -> fmt::Result {
        match self.0 {
            Command::Plain(simple) => {
                let otherwise = default_range(&simple.deed);
                write!(f, "{}", Sentence { simple, otherwise })
            }
            Command::Global {
                range,
                matching,
                pattern,
                simple,
            } => {
                let extent = Extent {
                    range,
                    otherwise: Otherwise::All,
                };
                let having = if matching { "with" } else { "without" };
                let otherwise = default_for_each(&simple.deed);
                let simple = Sentence { simple, otherwise };
                write!(
                    f,
                    "{extent}, for each {having} {}: {simple}",
                    Pattern(pattern)
                )
            }
        }
    }
}
