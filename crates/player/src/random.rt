//! Days made by chance, the same for the same seed.

use crate::day::{Day, Scene};
use crate::fault::Fault;
use crate::tape::{Stays, Stop};
use std::alloc::Global;
use std::io::Write;

/// What can be read and isn't known yet, what can't be read, and what is seldom typed.
const ODD: &[&[u8]] = &[
    b"m0",
    b"2t$",
    b"ka",
    b"'ap",
    b"/x/",
    b"s/x/y/g",
    b"g/x/d",
    b"u",
    b"U",
    b"r one",
    b"x",
    b"%",
    b"1,2",
    b"5-9+6",
    b"g/x/w y",
    b"12345678901p",
];
/// Lengths of lines at which the count of records changes, or that are too long.
const EDGES: &[usize] = &[
    502, 503, 504, 505, 1_005, 1_006, 1_007, 1_008, 1_022, 1_023, 1_024, 1_025,
];

const NAMES: &[&[u8]] = &[b"one", b"two", b"a name", b"y"];

/// Numbers by a linear congruence.
#[derive(Drop)]
struct Dice {
    state: u64,
}

impl Dice {
    /// A number below another, or 0.
    fn below(&mut self, bound: u64) -> u64 {
        self.state = self
            .state
            .wrapping_mul(6_364_136_223_846_793_005)
            .wrapping_add(1_442_695_040_888_963_407);
        (self.state >> 33).checked_rem(bound).unwrap_or(0)
    }

    /// Once in so many times.
    fn once_in(&mut self, bound: u64) -> bool {
        self.below(bound) == 0
    }

    fn one_of<T: Copy>(&mut self, these: &[T]) -> Option<T> {
        these.get(self.below(these.len() as u64) as usize).copied()
    }

    fn stays(&mut self) -> Stays {
        Stays {
            count: self.below(4),
            is_half: self.once_in(2),
        }
    }

    fn stop(&mut self) -> Stop {
        let most = if self.once_in(3) { 60 } else { 9 };
        Stop {
            acts: self.below(most),
            stays: [self.stays(), self.stays()],
        }
    }

    /// How long a line is.
    fn length(&mut self) -> usize {
        match self.below(48) {
            0..=2 => 0,
            3 => self.below(1_000) as usize,
            4 | 5 => self.one_of(EDGES).unwrap_or(0),
            _ => self.below(20) as usize,
        }
    }
}

/// Types what the dice say.
#[derive(Drop)]
struct Typist {
    heap: Global,
    dice: Dice,
    text: Vec<u8>,
}

impl Typist {
    fn push(&mut self, bytes: &[u8]) -> Result<(), Fault> {
        self.text.extend_from_slice(bytes)?;
        Ok(())
    }

    fn push_address(&mut self) -> Result<(), Fault> {
        match self.dice.below(8) {
            0 => self.push(b"."),
            1 => self.push(b"$"),
            2 => self.push(b"+"),
            3 => self.push(b"$-1"),
            _ => {
                let number = self.dice.below(9);
                write!(self.text, "{number}")?;
                Ok(())
            }
        }
    }

    fn push_range(&mut self) -> Result<(), Fault> {
        match self.dice.below(10) {
            0..=2 => Ok(()),
            3 => self.push(b"%"),
            4..=6 => self.push_address(),
            7 => {
                self.push_address()?;
                self.push(b";+")?;
                self.push_address()
            }
            _ => {
                self.push_address()?;
                self.push(b",")?;
                self.push_address()
            }
        }
    }

    fn push_lines(&mut self) -> Result<(), Fault> {
        for _ in 0..self.dice.below(5) {
            self.text.push(b'\n')?;
            let byte = self.dice.one_of(b"abcdefgh").unwrap_or(b'z');
            let end = self.text.len().saturating_add(self.dice.length());
            self.text.resize(end, byte)?;
        }
        Ok(())
    }

    fn push_deed(&mut self) -> Result<(), Fault> {
        let letter = self.dice.one_of(b"aaaaiiccddddjpn=wwef\n");
        let Some(letter) = letter.filter(|letter| *letter != b'\n') else {
            return Ok(());
        };
        self.text.push(letter)?;
        match letter {
            b'a' | b'i' | b'c' => self.push_lines(),
            b'w' | b'e' => {
                let name = self.dice.one_of(NAMES).unwrap_or(b"");
                self.push(b" ")?;
                self.push(name)
            }
            _ => Ok(()),
        }
    }

    /// Bytes that mean something to a reader, in any order.
    fn push_noise(&mut self) -> Result<(), Fault> {
        // Not collected: each byte changes the dice.
        for _ in 0..self.dice.below(9) {
            let byte = self.dice.one_of(b"0139.$'/?+-,;%aicdjmtkpn=uUwerfsgv \\x&");
            self.text.push(byte.unwrap_or(b'.'))?;
        }
        Ok(())
    }

    fn push_command(&mut self) -> Result<(), Fault> {
        if self.dice.once_in(12) {
            let odd = self.dice.one_of(ODD).unwrap_or(b"");
            return self.push(odd);
        }
        self.push_range()?;
        if self.dice.once_in(12) {
            self.push_noise()
        } else {
            self.push_deed()
        }
    }

    /// A command, and perhaps a stop in its midst.
    fn typed(&mut self) -> Result<Scene, Fault> {
        let stop = self.dice.once_in(6).then(|| self.dice.stop());
        self.push_command()?;
        let text = std::mem::replace(&mut self.text, Vec::new(self.heap));
        Ok(Scene::Typed { text, stop })
    }
}

/// A day made by chance: from which seed, of how many commands, and the room of its tapes.
#[derive(Clone, Copy)]
pub struct Chance {
    pub seed: u64,
    pub steps: u64,
    pub room: u64,
}

impl Chance {
    /// After a stop power comes, and may stop again.
    pub fn day(self, heap: Global) -> Result<Day, Fault> {
        let mut typist = Typist {
            heap,
            dice: Dice { state: self.seed },
            text: Vec::new(heap),
        };
        let mut day = Day::new(heap, self.room);
        for _ in 0..self.steps {
            let scene = typist.typed()?;
            let most = if scene.stop().is_some() { 4 } else { 0 };
            day.scenes.push(scene)?;
            for _ in 0..most {
                if !typist.dice.once_in(3) {
                    break;
                }
                let stop = typist.dice.stop();
                day.scenes.push(Scene::Power(Some(stop)))?;
            }
        }
        Ok(day)
    }
}
