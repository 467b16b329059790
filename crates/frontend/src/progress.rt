//! What a person sees while a house wakes up that takes its time.

use std::io;
use std::time::Instant;

/// The clock is looked at once in so many acts.
const PACE: u64 = 4_096;

/// For how many seconds nothing is said.
const PATIENCE: u64 = 1;

/// Since when it goes on, where a person is to see that, how many acts were done, and whether that was said.
#[derive(Drop)]
pub struct Progress {
    start: Option<Instant>,
    acts: u64,
    is_said: bool,
}

impl Progress {
    pub fn new(rt: &HostRuntime, is_wanted: bool) -> io::Result<Progress> {
        Ok(Progress {
            start: is_wanted.then(|| Instant::now(rt)).transpose()?,
            acts: 0,
            is_said: false,
        })
    }

    /// One act more.
    pub fn tick(&mut self, rt: &HostRuntime) -> io::Result<()> {
        self.acts = self.acts.saturating_add(1);
        let Some(start) = self.start else {
            return Ok(());
        };
        if self.acts % PACE != 0 || start.elapsed(rt)?.as_secs() < PATIENCE {
            return Ok(());
        }
        self.is_said = true;
        let acts = self.acts;
        eprint!(rt; "\reditor: waking up, {acts} records read or written")
    }

    /// It is over.
    pub fn end(&self, rt: &HostRuntime) -> io::Result<()> {
        if self.is_said {
            return eprintln!(rt; "");
        }
        Ok(())
    }
}
