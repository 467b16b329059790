//! A session: the house is told that there is power, and then each command; each act that it wants is done.

use crate::console::Console;
use crate::fault::{Astray, Fault};
use crate::machine::Machine;
use crate::options::Options;
use crate::progress::Progress;
use crate::refusal::Refused;
use crate::rows::Rows;
use crate::tape::{RECORD, Tapes};
use crate::terminals::Terminals;
use crate::{Editor, typing};
use protocol::{Event, Told};
use std::io;
use std::ops::ControlFlow;

/// The command that shows the current line's number.
const WHERE: &[u8] = b".=";

/// How a command ends.
type End = Result<(), Refused>;

/// The house, the record that was read last, and what the acts are done to.
#[derive(Drop)]
pub struct Session<E> {
    room: u64,
    machine: Machine<E>,
    page: Vec<u8>,
    tapes: Tapes,
    console: Console,
    terminals: Terminals,
}

impl<E: Editor> Session<E> {
    pub fn open(rt: &HostRuntime, options: Options) -> Result<Session<E>, Fault> {
        let heap = rt.alloc();
        let Options { room, names } = options;
        let terminals = E::terminals(rt);
        Ok(Session {
            room,
            machine: Machine::new(heap)?,
            page: Vec::new(heap),
            tapes: Tapes::open::<E>(rt, names, room)?,
            console: Console::new(rt, terminals)?,
            terminals,
        })
    }

    /// Power, and then what is typed, to the end of the input.
    pub fn talk(&mut self, rt: &HostRuntime) -> Result<(), Fault> {
        self.wake(rt)?;
        let mut text = Vec::new(rt.alloc());
        // Counted, since a proof has to see an end, and an input has none that is known.
        for _ in 0..u64::MAX {
            self.prompt()?;
            let Some(command) = typing::read_command(&mut self.console, &mut text)? else {
                break;
            };
            self.command(command)?;
        }
        self.console.leave()?;
        Ok(())
    }

    /// Power comes.
    fn wake(&mut self, rt: &HostRuntime) -> Result<(), Fault> {
        let room = self.room.to_be_bytes();
        let mut progress = Progress::new(rt, self.terminals.errors)?;
        self.tell(Event::Power, &room, Rows::Lines, || progress.tick(rt))?
            .map_err(|_| Astray::Power)?;
        progress.end(rt)?;
        Ok(())
    }

    /// Asks a person for a command, by the current line's number.
    fn prompt(&mut self) -> Result<(), Fault> {
        if self.console.is_typed() {
            let _ = self.tell(Event::Command, WHERE, Rows::Prompt, || Ok(()))?;
            self.console.flush()?;
        }
        Ok(())
    }

    fn command(&mut self, text: &[u8]) -> Result<(), Fault> {
        if let Err(refused) = self.tell(Event::Command, text, typing::rows(text), || Ok(()))? {
            self.console.refuse(refused)?;
        }
        self.console.flush()?;
        Ok(())
    }

    /// One event, and all acts that follow from it.
    fn tell<F: FnMut() -> io::Result<()>>(
        &mut self,
        event: Event,
        bytes: &[u8],
        rows: Rows,
        mut after_act: F,
    ) -> Result<End, Fault>
        requires { F.IsAlwaysCallable after_act }
    {
        let mut told = self.machine.tell(event, bytes);
        // A `House` need not promise that its acts end, so they are counted.
        for _ in 0..u64::MAX {
            told = match self.act(told, rows)? {
                ControlFlow::Continue(Event::Record) => self
                    .machine
                    .tell(Event::Record, self.page.as_slice()),
                ControlFlow::Continue(event) => self.machine.tell(event, &[]),
                ControlFlow::Break(end) => return Ok(end),
            };
            after_act()?;
        }
        Err(Fault::House(Astray::Endless))
    }

    /// Does one act. What the house is told then comes back, or how the command ends.
    fn act(&mut self, told: Told, rows: Rows) -> Result<ControlFlow<End, Event>, Fault> {
        match told {
            Told::Read(which) => {
                // Twice its number and the tape, as the definition of a device takes it apart.
                self.tapes.get(which % 2)?.read(which / 2, &mut self.page)?;
                return Ok(ControlFlow::Continue(Event::Record));
            }
            Told::Append(tape) => self.append(tape)?,
            Told::Fasten(tape) => self.tapes.get(tape)?.sync()?,
            Told::Begin(tape) => self.tapes.get(tape)?.begin()?,
            Told::Shows(len) => self.show(rows, len)?,
            Told::Done => return Ok(ControlFlow::Break(Ok(()))),
            Told::No(number) => return Ok(ControlFlow::Break(Err(Refused(number)))),
        }
        Ok(ControlFlow::Continue(Event::Next))
    }

    fn append(&mut self, tape: u64) -> Result<(), Fault> {
        let record = self.machine.row(RECORD)?;
        self.tapes.get(tape)?.append(record)
    }

    fn show(&mut self, rows: Rows, len: u64) -> Result<(), Fault> {
        self.console.show(rows, self.machine.row(len as usize)?)?;
        Ok(())
    }
}
