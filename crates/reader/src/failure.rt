//! How far bytes that aren't a command could be read.
ghost use Rattle.std.specs.Prelude.{◌≡◌, ◌++◌, IfOk};
ghost use Rattle.reader.specs.Front.{can_read, one_of, slashes, questions, letters, begins, Longest, Why};

use std::alloc::{AllocError, Global};
use thiserror::Error;
use typed::{LONGEST_TYPED, read};

/// Some slashes or nothing, question marks, a letter, a blank and a letter, a digit.
const ENDINGS: [&[u8]; 9] = [b"", b"/", b"//", b"///", b"?", b"??", b"a", b" a", b"1"];

/// Why bytes can't be read.
#[derive(Clone, Copy, Debug, Error)]
pub enum Failure {
    /// A command has at most 65,535 bytes.
    #[error("it has more than 65535 bytes")]
    TooLong,
    /// A command begins so, but something is missing.
    #[error("something is missing at its end")]
    EndsEarly,
    /// The first byte, counted from 1, up to which no command goes.
    #[error("byte {0} doesn't fit")]
    AtByte(usize),
}

/// Whether these bytes with this ending are a command.
fn completed(front: &[u8], ending: &[u8], scratch: &mut Vec<u8>) -> Result<bool, AllocError>
    ensures { IfOk result (λ b. b ≡ can_read (front.now ++ ending.now)) }
{
    scratch.clear();
    scratch.extend_from_slice(front)?;
    scratch.extend_from_slice(ending)?;
    Ok(read(scratch.as_slice()).is_some())
}

/// Whether one of the endings makes a command of these bytes. They are chosen so that one does wherever a command begins so, which is argued and not proved.
fn begins(front: &[u8], scratch: &mut Vec<u8>) -> Result<bool, AllocError>
    ensures { IfOk result (λ b. b ≡ begins front.now) }
{
    for ending in ENDINGS {
        if completed(front, ending, scratch)? {
            return Ok(true);
        }
    }
    Ok(false)
}

/// How many bytes at the front a command may begin with: halved, as one that begins with more begins with less.
// Not by `partition_point`: it asks the elements of a slice, and by a closure that can't fail.
fn longest_front(heap: Global, typed: &[u8]) -> Result<usize, AllocError>
    ensures { IfOk result (λ n. Longest typed.now n) }
{
    let mut scratch = Vec::new(heap);
    let mut low = 0;
    let mut high = typed.len();
    while low < high {
        let middle = high - (high - low) / 2;
        if begins(&typed[0..middle], &mut scratch)? {
            low = middle;
        } else {
            high = middle - 1;
        }
    }
    Ok(low)
}

/// Why these bytes, which aren't a command, can't be read.
pub fn why_not(heap: Global, typed: &[u8]) -> Result<Failure, AllocError>
    ensures { IfOk result (λ x. Why typed.now x) }
{
    if typed.len() > LONGEST_TYPED {
        return Ok(Failure::TooLong);
    }
    let front = longest_front(heap, typed)?;
    if front == typed.len() {
        return Ok(Failure::EndsEarly);
    }
    Ok(Failure::AtByte(front + 1))
}
