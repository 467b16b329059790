//! What a commit says, in numbers of a width of their own: as a page has them, or as sums are made of them.
ghost use Rattle.std.specs.Prelude.{◌≡◌};

/// What comes in place of the entries of the directory that a splice takes out.
#[derive(Clone, Copy, Default)]
pub enum Source<N> {
    #[default]
    Nothing,
    /// The lines put on since the last commit.
    New,
    /// The entries from one index up to another once more.
    Copied { from: N, to: N },
}

/// A change of the directory: so many entries from an index on go, and others come.
#[derive(Clone, Copy, Default)]
pub struct Splice<N> {
    pub from: N,
    pub gone: N,
    pub source: Source<N>,
}

/// What a commit says besides the numbers of the text.
#[derive(Clone, Copy, Default)]
pub enum Also<N> {
    #[default]
    Nothing,
    /// The weight of a stand, behind those that there are.
    Push(N),
    /// A file in a place of the table, under the name that comes with the commit.
    Store { slot: N, lines: N, weight: N },
}

/// The small state that a commit sets.
#[derive(Clone, Copy, Default)]
pub struct Numbers<N> {
    pub count: N,
    pub current: N,
    pub weight: N,
    pub also: Also<N>,
}

impl From<Source<u32>> for Source<u64> {
    ghost from_gives = { λ narrow wide. wide ≡ narrow };

    fn from(source: Source<u32>) -> Self {
        match source {
            Source::Nothing => Source::Nothing,
            Source::New => Source::New,
            Source::Copied { from, to } => Source::Copied {
                from: u64::from(from),
                to: u64::from(to),
            },
        }
    }
}

impl From<Splice<u32>> for Splice<u64> {
    ghost from_gives = { λ narrow wide. wide ≡ narrow };

    fn from(splice: Splice<u32>) -> Self {
        Splice {
            from: u64::from(splice.from),
            gone: u64::from(splice.gone),
            source: Source::from(splice.source),
        }
    }
}
