//! Rows that the house shows, written for people.

ghost use Rattle.std.specs.Prelude.{◌≡◌, ◌<◌, length, take, drop, IfSome, MatchOption};
ghost use Rattle.protocol.specs.Events.{from_eight};

use std::io;
use std::io::Write;

/// What the rows of a command hold. A number has eight bytes, the highest first.
#[derive(Clone, Copy)]
pub enum Rows {
    /// A line each.
    Lines,
    /// A number and a line.
    Numbered,
    /// A number.
    Counts,
    /// The length of a file's name, the name, and how many lines it has.
    Files,
    /// The current line's number, which a person is asked for a command with.
    Prompt,
}

/// The number at the front of a row, and what stands behind it.
fn number(row: &[u8]) -> Option<(u64, &[u8])>
    ensures { MatchOption result (length row.now < 8) (λ p. (p.0 ≡ from_eight 0 (take 8 row.now)) × (p.1.now ≡ drop 8 row.now)) }
{
    let rest = row.get(8..)?;
    Some((protocol::number_of(row), rest))
}

/// The name at the front of a file's row, and what stands behind it.
fn name(row: &[u8]) -> Option<(&[u8], &[u8])>
    ensures { IfSome result (λ p. (p.0.now ≡ take (from_eight 0 (take 8 row.now)) (drop 8 row.now)) × (p.1.now ≡ drop (from_eight 0 (take 8 row.now)) (drop 8 row.now))) }
{
    let (len, rest) = number(row)?;
    rest.split_at_checked(len as usize)
}

// Three functions, as what is read and what is written behind it differ; only "or the row as it is" is the same.
fn write_numbered<W: Write>(out: &mut W, row: &[u8]) -> io::Result<()> {
    let Some((number, line)) = number(row) else {
        return out.write_all(row);
    };
    write!(out, "{number} ")?;
    out.write_all(line)
}

fn write_count<W: Write>(out: &mut W, row: &[u8]) -> io::Result<()> {
    let Some((number, _)) = number(row) else {
        return out.write_all(row);
    };
    write!(out, "{number}")
}

fn write_file<W: Write>(out: &mut W, row: &[u8]) -> io::Result<()> {
    let Some((name, count)) = name(row) else {
        return out.write_all(row);
    };
    out.write_all(name)?;
    out.write_all(b" ")?;
    write_count(out, count)
}

fn write_prompt<W: Write>(out: &mut W, row: &[u8]) -> io::Result<()> {
    write_count(out, row)?;
    out.write_all(b"> ")
}

impl Rows {
    /// A row as a line of text, a prompt without its end. One that hasn't the bytes that it should have is written as it is.
    pub fn write<W: Write>(self, out: &mut W, row: &[u8]) -> io::Result<()> {
        match self {
            Rows::Lines => out.write_all(row)?,
            Rows::Numbered => write_numbered(out, row)?,
            Rows::Counts => write_count(out, row)?,
            Rows::Files => write_file(out, row)?,
            Rows::Prompt => return write_prompt(out, row),
        }
        out.write_all(b"\n")
    }
}
