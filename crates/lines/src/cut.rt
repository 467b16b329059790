//! Which entries give way to others.

ghost use Rattle.lines.specs.Moves.{Splices};
ghost use Rattle.std.specs.Prelude.{◌≡◌, true, false};

/// Entries that are to go: `gone` of them from `from` on, among the first `count`, which are in use.
#[derive(Clone, Copy)]
pub struct Cut {
    pub count: usize,
    pub from: usize,
    pub gone: usize,
}

impl Cut {
    /// Whether `k` entries can come in their place, where there is room for `room` in all.
    pub fn takes(self, room: usize, k: usize) -> bool
        ensures yes { result ≡ true → Splices room self.count self.from self.gone k }
        ensures no { result ≡ false → Splices room self.count self.from self.gone k → ⊥ }
    {
        let Cut { count, from, gone } = self;
        count <= room && gone <= count && from <= count - gone && k <= room - (count - gone)
    }
}
