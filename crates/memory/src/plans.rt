//! A plan in fifteen numbers, since the fixed memory holds nothing else: each enum is the number of its variant, and the numbers in it stand behind.
//! Functions, since `From` is not to be had: neither the enums nor the numbers are of this crate (the orphan rule), and
//! the crates of the enums know nothing of this layout.

ghost use Rattle.std.specs.Prelude.{◌≡◌, ◌≤◌, length};
ghost use Rattle.memory.specs.Numbers.{walk_of as walked, walk_number as step, update_of as updated, update_kind, update_place, rows_of as rowed, rows_kind, rows_value, source_by as sourced, source_kind, source_from, source_to};
ghost use Rattle.memory.specs.Registers.{plan_in as loaded, plan_numbers as numbers};

use crate::LIMIT;
use commands::{Plan, Rows, Span, Update, Walk};
use journal::{Source, Splice};

fn walk_of(n: u64) -> Walk
    ensures { result ≡ walked n }
{
    match n {
        1 => Walk::Show,
        2 => Walk::ShowNumbered,
        3 => Walk::Measure,
        4 => Walk::Join,
        _ => Walk::Skip,
    }
}

fn walk_number(walk: Walk) -> u64
    ensures { result ≡ step walk }
{
    walk as u64
}

fn update_of(kind: u64, place: u64) -> Update
    ensures { result ≡ updated kind place }
{
    match kind {
        1 => Update::Current,
        2 => Update::Text,
        3 => Update::File(place % LIMIT),
        _ => Update::Nothing,
    }
}

fn update_numbers(update: Update) -> (u64, u64)
    ensures { result ≡ (update_kind update, update_place update) }
{
    match update {
        Update::Nothing => (0, 0),
        Update::Current => (1, 0),
        Update::Text => (2, 0),
        Update::File(place) => (3, place % LIMIT),
    }
}

fn rows_of(kind: u64, value: u64) -> Rows
    ensures { result ≡ rowed kind value }
{
    match kind {
        1 => Rows::Number(value % LIMIT),
        2 => Rows::Files,
        _ => Rows::Nothing,
    }
}

fn rows_numbers(rows: Rows) -> (u64, u64)
    ensures { result ≡ (rows_kind rows, rows_value rows) }
{
    match rows {
        Rows::Nothing => (0, 0),
        Rows::Number(value) => (1, value % LIMIT),
        Rows::Files => (2, 0),
    }
}

/// A page's numbers of a source (`records`) are another layout, which may change apart from this one: there, others than these are a copy.
fn source_of(kind: u64, from: u64, to: u64) -> Source<u64>
    ensures { result ≡ sourced kind from to }
{
    match kind {
        1 => Source::New,
        2 => Source::Copied {
            from: from % LIMIT,
            to: to % LIMIT,
        },
        _ => Source::Nothing,
    }
}

fn source_numbers(source: Source<u64>) -> (u64, u64, u64)
    ensures { result ≡ (source_kind source, source_from source, source_to source) }
{
    match source {
        Source::Nothing => (0, 0, 0),
        Source::New => (1, 0, 0),
        Source::Copied { from, to } => (2, from % LIMIT, to % LIMIT),
    }
}

pub fn load(section: &[u64]) -> Plan
    requires { 15 ≤ length section.now }
    ensures { result ≡ loaded section.now }
{
    Plan {
        walk: walk_of(section[0]),
        span: Span {
            after: section[1] % LIMIT,
            upto: section[2] % LIMIT,
        },
        update: update_of(section[3], section[4]),
        splice: Splice {
            from: section[5] % LIMIT,
            gone: section[6] % LIMIT,
            source: source_of(section[7], section[8], section[9]),
        },
        came: section[10] % LIMIT,
        count: section[11] % LIMIT,
        current: section[12] % LIMIT,
        rows: rows_of(section[13], section[14]),
    }
}

pub fn store(plan: Plan, section: &mut [u64])
    requires { length section.old ≡ 15 }
    ensures { section.new ≡ numbers plan }
{
    let (update, place) = update_numbers(plan.update);
    let (source, from, to) = source_numbers(plan.splice.source);
    let (rows, value) = rows_numbers(plan.rows);
    section.copy_from_slice(&[
        walk_number(plan.walk),
        plan.span.after % LIMIT,
        plan.span.upto % LIMIT,
        update,
        place,
        plan.splice.from % LIMIT,
        plan.splice.gone % LIMIT,
        source,
        from,
        to,
        plan.came % LIMIT,
        plan.count % LIMIT,
        plan.current % LIMIT,
        rows,
        value,
    ]);
}
