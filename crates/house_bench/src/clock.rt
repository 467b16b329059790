//! How long steps take.

use std::fmt;
use std::num::Saturating;
use std::time::Duration;

/// What a step did, as far as it is timed apart from others.
#[derive(Clone, Copy, PartialEq, Eq, PartialOrd, Ord)]
pub enum Kind {
    /// A row is shown.
    Show,
    /// A line's copy is made for the other tape.
    Carry,
    /// A record is asked for.
    Ask,
    /// A line that was given is put on.
    Line,
    /// A commit is put on, and applied in memory.
    Commit,
    Other,
}

/// How many steps, how long they took together, the shortest and the longest, in nanoseconds.
#[derive(Clone, Copy)]
pub struct Clock {
    count: Saturating<u64>,
    sum: Saturating<u64>,
    least: u64,
    most: u64,
}

// Not derived: what is shorter than nothing yet is the longest that there is.
impl Default for Clock {
    fn default() -> Clock {
        Clock {
            count: Saturating(0),
            sum: Saturating(0),
            least: u64::MAX,
            most: 0,
        }
    }
}

impl Clock {
    pub fn note(&mut self, took: Duration) {
        let nanos = u64::try_from(took.as_nanos()).unwrap_or(u64::MAX);
        self.count += 1;
        self.sum += nanos;
        self.least = self.least.min(nanos);
        self.most = self.most.max(nanos);
    }
}

impl fmt::Display for Clock {
    fn fmt<W: fmt::Write>(&self, f: &mut fmt::Formatter<W>) -> fmt::Result {
        let Clock {
            count,
            sum,
            least,
            most,
        } = *self;
        let mean = sum.0.checked_div(count.0).unwrap_or(0);
        write!(
            f,
            "{count} steps, least {least} ns, mean {mean} ns, most {most} ns"
        )
    }
}
