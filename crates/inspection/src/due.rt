//! The parts of a line, one behind the other.

use crate::damage::Wrong;
use records::Piece;

/// How long a line is at most, as `typed` has it, on which this crate doesn't stand.
const LONGEST: u16 = 1_024;

/// Whose line a part is of: one that was typed, or an entry's that was carried.
#[derive(Clone, Copy, PartialEq, Eq)]
pub enum Owner {
    Typed,
    Entry(u32),
}

/// A part of a line.
#[derive(Clone, Copy, PartialEq, Eq)]
pub struct Due {
    owner: Owner,
    part: u8,
    long: u16,
}

/// What is due behind a part, if it comes in its turn: as the first of a line, or as the one that is due.
pub fn after(due: Option<Due>, owner: Owner, piece: Piece<'_>) -> Result<Option<Due>, Wrong> {
    if piece.long > LONGEST {
        return Err(Wrong::Piece);
    }
    let parts = records::records_for(piece.long as usize);
    let next = piece.part as usize + 1;
    if next > parts {
        return Err(Wrong::Piece);
    }
    let here = Due {
        owner,
        part: piece.part,
        long: piece.long,
    };
    if !due.map_or(piece.part == 0, |due| due == here) {
        return Err(Wrong::Turn);
    }
    if next == parts {
        return Ok(None);
    }
    Ok(Some(Due {
        part: here.part.saturating_add(1),
        ..here
    }))
}
