//! The plain houses that the house may be: one, and after a stop two.

use crate::fault::Fault;
use crate::machine::Ran;
use model::{House, Turn};
use std::alloc::{AllocError, Global};

#[derive(Clone, Drop)]
pub struct Guess {
    heap: Global,
    room: u64,
    houses: Vec<House>,
}

/// Whether the house did what the plain house does.
fn agrees(turn: &Turn, ran: &Ran<'_>) -> bool {
    turn.most_records.is_none_or(|most| ran.records.0 <= most)
        && ran.end == Some(turn.end)
        && ran.rows == turn.rows
}

/// One house more, if it isn't among them.
fn add(houses: &mut Vec<House>, house: House) -> Result<(), AllocError> {
    if !houses.contains(&house) {
        houses.push(house)?;
    }
    Ok(())
}

impl Guess {
    /// A house without lines and files.
    pub fn new(heap: Global, room: u64) -> Result<Guess, AllocError> {
        Ok(Guess {
            heap,
            room,
            houses: vec![in heap; House::new(heap)]?,
        })
    }

    /// These houses, of which there has to be one.
    fn with(&self, houses: Vec<House>) -> Result<Guess, Fault> {
        if houses.is_empty() {
            return Err(Fault::difference());
        }
        Ok(Guess { houses, ..*self })
    }

    /// The house, where there is no doubt which.
    pub fn only(&self) -> Option<&House> {
        match self.houses.as_slice() {
            [house] => Some(house),
            _ => None,
        }
    }

    /// One of the houses.
    pub fn any(&self) -> Option<&House> {
        self.houses.first()
    }

    /// Those that do what the house did, after it.
    pub fn kept(&self, text: &[u8], ran: &Ran<'_>) -> Result<Guess, Fault> {
        let mut kept = Vec::new(self.heap);
        for house in self.houses.iter() {
            let turn = house.turn(self.room, text)?;
            if agrees(&turn, ran) {
                add(&mut kept, turn.next)?;
            }
        }
        self.with(kept)
    }

    // Not one with `kept`: which houses stay and what is added for each both differ.
    /// Where a command was stopped: those that would have shown what was shown, before the command and after it.
    pub fn stopped(&self, text: &[u8], rows: &[Vec<u8>]) -> Result<Guess, Fault> {
        let mut either = Vec::new(self.heap);
        for house in self.houses.iter() {
            let turn = house.turn(self.room, text)?;
            if turn.rows.as_slice().starts_with(rows) {
                add(&mut either, house.clone()?)?;
                add(&mut either, turn.next)?;
            }
        }
        self.with(either)
    }
}
