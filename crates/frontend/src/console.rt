//! What is typed and what is shown: bytes, of which only the one that ends a line has a meaning.

use crate::refusal::{Reason, Refused};
use crate::rows::Rows;
use crate::terminals::Terminals;
use std::io;
use std::io::{BufRead, BufReader, BufWriter, Stdin, Stdout, Write};

/// Stands before each line that is given to a command.
const GIVEN: &[u8] = b": ";

/// Standard input, line by line, and standard output.
#[derive(Drop)]
pub struct Console {
    input: BufReader<Stdin>,
    output: BufWriter<Stdout>,
    terminals: Terminals,
}

impl Console {
    pub fn new(rt: &HostRuntime, terminals: Terminals) -> io::Result<Console> {
        let heap = rt.alloc();
        Ok(Console {
            input: BufReader::new(heap, rt.stdin())?,
            output: BufWriter::new(heap, rt.stdout())?,
            terminals,
        })
    }

    /// Whether a prompt is wanted.
    pub fn is_typed(&self) -> bool {
        self.terminals.input
    }

    /// Asks a person for the next line that is given to a command.
    pub fn ask_given(&mut self) -> io::Result<()> {
        if !self.is_typed() {
            return Ok(());
        }
        self.output.write_all(GIVEN)?;
        self.output.flush()
    }

    /// A person's last prompt gets its end.
    pub fn leave(&mut self) -> io::Result<()> {
        if self.is_typed() {
            self.output.write_all(b"\n")?;
        }
        self.output.flush()
    }

    /// The next line in place of what `line` holds, without the byte that ends it, which the last one may lack; none at the end of the input. The buffer is
    /// lent: `split` would take memory for each line.
    pub fn read_line<'a>(&mut self, line: &'a mut Vec<u8>) -> io::Result<Option<&'a [u8]>> {
        line.clear();
        if self.input.read_until(b'\n', line)? == 0 {
            return Ok(None);
        }
        if line.last() == Some(&b'\n') {
            let _ = line.pop();
        }
        Ok(Some(line.as_slice()))
    }

    /// A row that the house shows.
    pub fn show(&mut self, rows: Rows, row: &[u8]) -> io::Result<()> {
        rows.write(&mut self.output, row)
    }

    /// That a command was refused, to a person in words too.
    pub fn refuse(&mut self, refused: Refused) -> io::Result<()> {
        match Reason::try_from(refused) {
            Ok(reason) if self.terminals.output => writeln!(self.output, "{refused}: {reason}"),
            _ => writeln!(self.output, "{refused}"),
        }
    }

    /// Whatever was shown can be seen then.
    pub fn flush(&mut self) -> io::Result<()> {
        self.output.flush()
    }
}
