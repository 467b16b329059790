//! What the house is told, and what it wants done: both sides of one step.
#![tactic(auto)]

ghost use Rattle.std.specs.Prelude.{◌≡◌, ◌+◌, ◌*◌, ◌<◌, ◌≤◌, length, take};
ghost use Rattle.protocol.specs.Events.{Decodes, from_eight as eighth};

/// How many bytes the row at least has in which records and shown rows are handed out. `step` asks whether it has; below, contracts say `131072 ≤ length out`:
/// the row is lent by the caller of `step` and longer than any act needs, so no type of these crates owns it.
pub const ROW: usize = 131_072;

/// What the house is told; at `step` it stands by its number.
#[derive(Clone, Copy, PartialEq, Eq)]
pub enum Event {
    /// Power comes, with how many records a tape has room for.
    Power = 0,
    /// A command was typed.
    Command = 1,
    /// A record that was asked for, or nothing.
    Record = 2,
    /// The last act is done.
    Next = 3,
}

/// A number that stands for no event.
#[derive(Clone, Copy, PartialEq, Eq)]
pub struct NoEvent(pub u64);

impl TryFrom<u64> for Event {
    type Error = NoEvent;

    ghost try_from_gives = { Decodes };

    fn try_from(kind: u64) -> Result<Self, NoEvent> {
        // The one place where a kind comes in as a number: there is no cast to an enum.
        match kind {
            0 => Ok(Event::Power),
            1 => Ok(Event::Command),
            2 => Ok(Event::Record),
            3 => Ok(Event::Next),
            _ => Err(NoEvent(kind)),
        }
    }
}

/// What the house wants done. `step` is the interface that theorem and programs speak of, and the numbers here are those of the definition (`Act` in
/// crates/plain/specs/Run.antt): tapes, records and refusals are numbers there, and `ActTold` tells `read t k` as the one number `2 * k + t`.
#[derive(Clone, Copy)]
pub enum Told {
    /// Read a record: twice its number, and the tape.
    Read(u64),
    /// Put the record at the front of the row on a tape.
    Append(u64),
    /// Make a tape's records durable.
    Fasten(u64),
    /// Begin a tape anew, without records.
    Begin(u64),
    /// Show so many bytes of the row.
    Shows(u64),
    /// The command is done.
    Done,
    /// The command is refused, with a number.
    No(u64),
}

impl Told {
    /// Read the record there of a tape.
    pub fn read(tape: u64, at: u64) -> Told
        requires { 2 * at + tape < 18446744073709551616 }
        ensures { result ≡ Told.Read (2 * at + tape) }
    {
        Told::Read(2 * at + tape)
    }
}

/// The number that up to eight bytes write, the highest first.
fn from_eight(bytes: &[u8]) -> u64
    requires { length bytes.now ≤ 8 }
    ensures { result ≡ eighth 0 bytes.now }
{
    let mut number: u64 = 0;
    for byte in bytes {
        number = number * 256 + u64::from(*byte);
    }
    number
}

/// The number that the first eight bytes write, or all where there are fewer.
pub fn number_of(bytes: &[u8]) -> u64
    ensures { result ≡ eighth 0 (take 8 bytes.now) }
{
    from_eight(bytes.get(..8).unwrap_or(bytes))
}
