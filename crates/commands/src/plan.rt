//! What is done for a command: which lines are walked over, what becomes of the directory, what is shown.
ghost use Rattle.std.specs.Prelude.{◌≡◌, ℕ, ◌<◌};
ghost use Rattle.commands.specs.Plan.{text_plan, show_plan, say_plan, file_plan};
ghost use Rattle.commands.specs.Code.{walk_as, rows_as, sizes_as, slot_as, plan_as, SizesFit, SpanFits};
ghost use Rattle.journal.specs.Values.{source_of};

use journal::{Source, Splice};

/// What is done with each line that is walked over.
#[derive(Clone, Copy, Default)]
pub enum Walk {
    #[default]
    Skip = 0,
    Show = 1,
    ShowNumbered = 2,
    /// Its weight is added up.
    Measure = 3,
    /// Its bytes come behind those of the lines before it.
    Join = 4,
}

/// What is different afterwards.
#[derive(Clone, Copy, Default)]
pub enum Update {
    #[default]
    Nothing,
    /// The current line only.
    Current,
    /// The text, with a stand that can be taken back.
    Text,
    /// The file in this place of the table.
    File(u64),
}

/// What is shown besides the lines that are walked over.
#[derive(Clone, Copy, Default)]
pub enum Rows {
    #[default]
    Nothing,
    Number(u64),
    /// A row for each file.
    Files,
}

/// Lines of the text: those after one, up to another.
#[derive(Clone, Copy, Default)]
pub struct Span {
    pub after: u64,
    pub upto: u64,
}

/// Entries that come, and how many.
#[derive(Clone, Copy)]
pub(crate) struct Coming {
    pub(crate) source: Source<u64>,
    pub(crate) many: u64,
}

/// What is done for a command.
#[derive(Clone, Copy, Default)]
pub struct Plan {
    pub walk: Walk,
    /// The lines that are walked over.
    pub span: Span,
    pub update: Update,
    pub splice: Splice<u64>,
    /// How many entries come.
    pub came: u64,
    /// How many lines the text has then.
    pub count: u64,
    /// The current line then.
    pub current: u64,
    pub rows: Rows,
}

/// How many lines the text has, which is the current one, and how many lines all files have. `SizesFit` is no invariant of it:
/// `command_bounds` takes any count and any offset, and would ask more of its callers.
#[derive(Clone, Copy)]
pub struct Sizes {
    pub count: u64,
    pub current: u64,
    pub offset: u64,
}

/// Where a file is in the table of files, or where it would come: how many files and how many lines of theirs stand before it.
#[derive(Clone, Copy)]
pub struct Slot {
    /// Whether it is there. No `Option` of its lines and size: a write takes out as many lines as stand there, which are 0 for a new file.
    pub found: bool,
    pub place: u64,
    pub before: u64,
    pub lines: u64,
    /// What its lines weigh.
    pub size: u64,
}

/// Lines of the text go, others come in their place.
pub(crate) fn replace(
    sizes: Sizes,
    walk: Walk,
    span: Span,
    coming: Coming,
    current: u64,
    rows: Rows,
) -> Plan
    requires sizes_fit { SizesFit sizes }
    requires span_fits { SpanFits sizes.count span }
    requires many_bound { coming.many < 4294967296 }
    ensures { plan_as result ≡ text_plan (sizes_as sizes) (walk_as walk) span.after span.upto (source_of coming.source) coming.many current (rows_as rows) }
{
    let gone = span.upto - span.after;
    Plan {
        walk,
        span,
        update: Update::Text,
        splice: Splice {
            from: sizes.offset + span.after,
            gone,
            source: coming.source,
        },
        came: coming.many,
        count: sizes.count - gone + coming.many,
        current,
        rows,
    }
}

/// Lines are shown, the last of them is then the current one.
pub(crate) fn show(sizes: Sizes, walk: Walk, span: Span) -> Plan
    ensures { plan_as result ≡ show_plan (sizes_as sizes) (walk_as walk) span.after span.upto }
{
    Plan {
        walk,
        span,
        update: Update::Current,
        count: sizes.count,
        current: span.upto,
        ..Plan::default()
    }
}

/// Something is said, nothing is changed.
pub(crate) fn say(sizes: Sizes, rows: Rows) -> Plan
    ensures { plan_as result ≡ say_plan (sizes_as sizes) (rows_as rows) }
{
    Plan {
        count: sizes.count,
        current: sizes.current,
        rows,
        ..Plan::default()
    }
}

/// A file's lines go, copies of lines of the text come.
pub(crate) fn save(sizes: Sizes, slot: Slot, span: Span) -> Plan
    requires sizes_fit { SizesFit sizes }
    requires span_fits { SpanFits sizes.count span }
    ensures { plan_as result ≡ file_plan (sizes_as sizes) (slot_as slot) span.after span.upto }
{
    let many = span.upto - span.after;
    Plan {
        walk: Walk::Measure,
        span,
        update: Update::File(slot.place),
        splice: Splice {
            from: slot.before,
            gone: slot.lines,
            source: Source::Copied {
                from: sizes.offset + span.after,
                to: sizes.offset + span.upto,
            },
        },
        came: many,
        count: sizes.count,
        current: sizes.current,
        rows: Rows::Number(many),
    }
}
