//! Lines given behind a command.
ghost use Rattle.std.specs.Prelude.{◌≡◌, ℕ, [], length, take, drop, position, ◌==◌};
ghost use Rattle.plain.specs.Command.{given, lines_of};
ghost use Rattle.plain.specs.House.{short_all};
ghost use Rattle.typed.specs.Meaning.{bytes, lines_in};
ghost use Rattle.typed.specs.Answer.{whole, listed, parted};

/// The lines given behind a command, as they were typed: none, or lines with a newline between two of them, as many newlines and one line
/// more.
#[derive(Clone, Copy)]
pub struct Lines<'a> {
    pub text: Option<&'a [u8]>,
}

/// The longest line that a text takes, in bytes.
pub const LONGEST: usize = 1024;

impl<'a> Lines<'a> {
    /// The first line and the lines behind it.
    pub fn split_first(self) -> Option<(&'a [u8], Lines<'a>)>
        ensures { parted result ≡ lines_in self.entry }
    {
        let text = self.text?;
        match newline(text) {
            Some(i) => Some((
                &text[..i],
                Lines {
                    text: Some(&text[i + 1..]),
                },
            )),
            None => Some((text, Lines { text: None })),
        }
    }

    /// How many lines there are.
    pub fn count(self) -> usize
        ensures { result ≡ length (lines_in self.entry) }
    {
        self.text.map_or(0, |text| lines_of(text))
    }

    /// The line with `n` lines before it.
    pub fn nth(self, n: usize) -> Option<&'a [u8]>
        ensures { listed bytes result ≡ take 1 (drop n (lines_in self.entry)) }
    {
        let mut lines = self;
        for _ in 0..n {
            let (_, rest) = lines.split_first()?;
            lines = rest;
        }
        let (line, _) = lines.split_first()?;
        Some(line)
    }

    /// Whether no line is longer than a text takes. By `split` and `all` it took twice the time where lines are short.
    pub fn all_short(self) -> bool
        ensures { result ≡ short_all (lines_in self.entry) }
    {
        let mut lines = self;
        while let Some((line, rest)) = lines.split_first() {
            if line.len() > LONGEST {
                return false;
            }
            lines = rest;
        }
        true
    }
}

/// The place of the first newline.
fn newline(text: &[u8]) -> Option<usize>
    ensures { result ≡ position (λ byte. byte == 10) text.now }
{
    text.iter().position(|byte| *byte == b'\n')
}

/// How many lines a text has: one more than it has newlines. Counted by hand: by `filter` and `count` it took more than twice the time.
fn lines_of(text: &[u8]) -> usize
    ensures { result ≡ length (lines_of [] text.now) }
{
    let mut n = 1;
    for b in text {
        if *b == b'\n' {
            n += 1;
        }
    }
    n
}

/// What stands behind the letter of a command that takes lines.
pub(crate) fn given_lines(cs: &[u8]) -> Option<Lines<'_>>
    ensures { whole lines_in result ≡ given cs.now }
{
    match cs {
        [] => Some(Lines { text: None }),
        [b'\n', text @ ..] => Some(Lines { text: Some(text) }),
        _ => None,
    }
}
