//! A house, and what it works on.

use crate::House;
use crate::fault::{Astray, Fault};
use protocol::{Event, Told};
use std::alloc::{AllocError, Global};
use std::marker::PhantomData;

/// The house's memory, and the row in which it hands out bytes.
#[derive(Drop)]
pub struct Machine<H> {
    memory: Vec<u64>,
    row: Vec<u8>,
    house: PhantomData<H>,
}

impl<H: House> Machine<H> {
    pub fn new(heap: Global) -> Result<Machine<H>, AllocError> {
        Ok(Machine {
            memory: vec![in heap; 0; H::MEMORY]?,
            row: vec![in heap; 0; H::ROW]?,
            house: PhantomData,
        })
    }

    /// Tells the house what happened.
    pub fn tell(&mut self, event: Event, bytes: &[u8]) -> Told {
        H::step(
            self.memory.as_mut_slice(),
            event as u64,
            bytes,
            self.row.as_mut_slice(),
        )
    }

    /// The first bytes of the row.
    pub fn row(&self, len: usize) -> Result<&[u8], Fault> {
        self.row.get(0..len).ok_or(Fault::House(Astray::Row))
    }
}
