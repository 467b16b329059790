//! Why the program ends early.

use crate::tape::Stop;
use model::NoRefusal;
use std::alloc::AllocError;
use std::io;
use std::num::ParseIntError;
use thiserror::Error;

/// Where a difference was found: at which scene, after which stop of it, and after which stop of the wake-up behind that.
#[derive(Clone, Copy, Debug, Default)]
pub struct Trail {
    pub scene: Option<usize>,
    pub stop: Option<Stop>,
    pub again: Option<Stop>,
}

#[derive(Debug, Drop, Error)]
pub enum Fault {
    #[error("usage: player [play DAY | every DAY | random SEED STEPS [ROOM]]")]
    Usage,
    /// A line of a day that means nothing, counted from 1.
    #[error("line {0} of the day means nothing")]
    Day(u64),
    /// The machine and the plain house differ; the day is printed.
    #[error("the house differs from the plain house")]
    Differs(Trail),
    #[error("there is not enough memory")]
    Memory(#[from(alloc)] AllocError),
    #[error(transparent)]
    Outside(#[from] io::Error),
}

impl Fault {
    /// A difference, of which nobody has said yet where it is.
    pub fn difference() -> Fault {
        Fault::Differs(Trail::default())
    }

    /// The same, of which more is known where it is a difference.
    fn known<F: FnOnce(&mut Trail)>(mut self, note: F) -> Fault
        requires { F.IsAlwaysCallable note }
    {
        if let Fault::Differs(trail) = &mut self {
            note(trail);
        }
        self
    }

    /// A difference is at this scene.
    pub fn at(self, scene: usize) -> Fault {
        self.known(|trail| trail.scene = Some(scene))
    }

    /// A difference comes after this stop.
    pub fn after(self, stop: Stop) -> Fault {
        self.known(|trail| trail.stop = Some(stop))
    }

    /// A difference comes after this stop of a wake-up.
    pub fn after_again(self, stop: Stop) -> Fault {
        self.known(|trail| trail.again = Some(stop))
    }
}

/// The plain house refuses nothing with such a number.
impl From<NoRefusal> for Fault {
    fn from(_number: NoRefusal) -> Fault {
        Fault::difference()
    }
}

/// Numbers are read from the arguments only, so one that is none is a wrong use, which keeps no error.
impl From<ParseIntError> for Fault {
    fn from(_error: ParseIntError) -> Fault {
        Fault::Usage
    }
}
