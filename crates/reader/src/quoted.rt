//! Bytes, so that they can be printed.
use std::fmt;

/// More bytes than these are cut short.
const MOST: usize = 80;

const KEPT: usize = 32;

/// Bytes as they are if they are printable, or else by their two digits; long ones cut short.
#[derive(Clone, Copy)]
pub struct Quoted<'a>(pub &'a [u8]);

fn show_byte<W: fmt::Write>(b: u8, f: &mut fmt::Formatter<W>) -> fmt::Result {
    match b {
        b'\n' => f.write_str("\\n"),
        b' '..=b'~' => f.write_char(char::from(b)),
        _ => write!(f, "\\x{b:02x}"),
    }
}

fn show_all<W: fmt::Write>(bytes: &[u8], f: &mut fmt::Formatter<W>) -> fmt::Result {
    for b in bytes {
        show_byte(*b, f)?;
    }
    Ok(())
}

impl fmt::Display for Quoted<'_> {
    fn fmt<W: fmt::Write>(&self, f: &mut fmt::Formatter<W>) -> fmt::Result {
        let bytes = self.0;
        if bytes.len() <= MOST {
            return show_all(bytes, f);
        }
        let all = bytes.len();
        show_all(&bytes[0..KEPT], f)?;
        write!(f, "... ({all} bytes)")
    }
}
