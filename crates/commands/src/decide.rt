//! What is decided about a command, from small numbers alone: why it is refused, or the plan of what is done. That few lines are given is asked of
//! the caller where they are counted: `typed::Lines` can be made of any bytes, and an invariant of it would ask more of all who make one.
ghost use Rattle.std.specs.Prelude.{◌≡◌, ℕ, ◌-◌, ◌<◌, length, nat_le, nat_lt};
ghost use Rattle.plain.specs.Pattern.{or};
ghost use Rattle.plain.specs.House.{short_all};
ghost use Rattle.typed.specs.Meaning.{lines_in, deed_of, simple_of};
ghost use Rattle.commands.specs.Resolve.{there};
ghost use Rattle.commands.specs.Plan.{at_gone, writable, decide_append, decide_insert, decide_change, decide_delete, decide_join, decide_show, decide_where, decide_go, decide_save, decide_edit, decide_lines, decide};
ghost use Rattle.commands.specs.Turn.{lines_given, given_of};
ghost use Rattle.commands.specs.Code.{checked_by, when, bounds_as, walk_as, sizes_as, slot_as, given_in, plan_as, SizesFit, SlotFits, BoundsThere, RangeOrdered};

use crate::bounds::{Bounds, command_bounds, known};
use crate::plan::{Coming, Plan, Rows, Sizes, Slot, Span, Walk, replace, save, say, show};
use crate::refusal::Refusal;
use journal::Source;
use typed::{Deed, Lines, Simple};

/// How many files there can be.
pub const FILES: u64 = 64;

/// How many lines are given, if none of them is too long.
fn short_lines(lines: Lines<'_>) -> Option<u64>
    requires { length (lines_in lines) < 4294967296 }
    ensures { result ≡ when (short_all (lines_in lines.entry)) (length (lines_in lines.entry)) }
{
    // By `then_some` the lines would be counted also where one is too long; by `then` the count is lost to the proof.
    if lines.all_short() {
        Some(lines.count() as u64)
    } else {
        None
    }
}

/// The line, if there is one, or 0 before the first.
fn line_or_front(count: u64, line: u64) -> Option<u64>
    ensures { result ≡ when (nat_le line count) line }
{
    (line <= count).then_some(line)
}

/// The lines, if they are there, and at least one.
fn real_lines(count: u64, bounds: Bounds) -> Option<Span>
    ensures { result ≡ when (there count (bounds_as bounds)) (record { after = bounds.first - 1; upto = bounds.last }) }
{
    let there = bounds.first >= 1 && bounds.first <= bounds.last && bounds.last <= count;
    there.then(|| Span {
        after: bounds.first - 1,
        upto: bounds.last,
    })
}

/// Where one is after lines went: at the next, or the last that is left.
fn after_gone(count: u64, bounds: Bounds) -> u64
    requires { BoundsThere count bounds }
    ensures { result ≡ at_gone count (bounds_as bounds) }
{
    let left = count - (bounds.last - bounds.first + 1);
    bounds.first.min(left)
}

fn append(sizes: Sizes, lines: Lines<'_>, bounds: Bounds) -> Result<Plan, Refusal>
    requires sizes_fit { SizesFit sizes }
    requires lines_len_bound { length (lines_in lines) < 4294967296 }
    ensures { checked_by plan_as result ≡ decide_append (sizes_as sizes) (given_in lines.entry) (bounds_as bounds) }
{
    let Some(many) = short_lines(lines) else {
        return Err(Refusal::TooLarge);
    };
    let Some(line) = line_or_front(sizes.count, bounds.last) else {
        return Err(Refusal::NoLine);
    };
    let span = Span {
        after: line,
        upto: line,
    };
    let coming = Coming {
        source: Source::New,
        many,
    };
    Ok(replace(sizes, Walk::Skip, span, coming, line + many, Rows::Nothing))
}

/// Without lines one stays where one is.
fn insert(sizes: Sizes, lines: Lines<'_>, bounds: Bounds) -> Result<Plan, Refusal>
    requires sizes_fit { SizesFit sizes }
    requires lines_len_bound { length (lines_in lines) < 4294967296 }
    ensures { checked_by plan_as result ≡ decide_insert (sizes_as sizes) (given_in lines.entry) (bounds_as bounds) }
{
    let Some(many) = short_lines(lines) else {
        return Err(Refusal::TooLarge);
    };
    let Some(line) = line_or_front(sizes.count, bounds.last) else {
        return Err(Refusal::NoLine);
    };
    let before = line.saturating_sub(1);
    let span = Span {
        after: before,
        upto: before,
    };
    let coming = Coming {
        source: Source::New,
        many,
    };
    let current = if many == 0 { line } else { before + many };
    Ok(replace(sizes, Walk::Skip, span, coming, current, Rows::Nothing))
}

fn change(sizes: Sizes, lines: Lines<'_>, bounds: Bounds) -> Result<Plan, Refusal>
    requires sizes_fit { SizesFit sizes }
    requires lines_len_bound { length (lines_in lines) < 4294967296 }
    ensures { checked_by plan_as result ≡ decide_change (sizes_as sizes) (given_in lines.entry) (bounds_as bounds) }
{
    let Some(new) = short_lines(lines) else {
        return Err(Refusal::TooLarge);
    };
    let Some(span) = real_lines(sizes.count, bounds) else {
        return Err(Refusal::NoLine);
    };
    let coming = Coming {
        source: Source::New,
        many: new,
    };
    let current = match new {
        0 => after_gone(sizes.count, bounds),
        _ => span.after + new,
    };
    Ok(replace(sizes, Walk::Measure, span, coming, current, Rows::Nothing))
}

fn delete(sizes: Sizes, bounds: Bounds) -> Result<Plan, Refusal>
    requires { SizesFit sizes }
    ensures { checked_by plan_as result ≡ decide_delete (sizes_as sizes) (bounds_as bounds) }
{
    let Some(span) = real_lines(sizes.count, bounds) else {
        return Err(Refusal::NoLine);
    };
    let coming = Coming {
        source: Source::Nothing,
        many: 0,
    };
    let current = after_gone(sizes.count, bounds);
    Ok(replace(sizes, Walk::Measure, span, coming, current, Rows::Nothing))
}

fn join(sizes: Sizes, bounds: Bounds) -> Result<Plan, Refusal>
    requires { SizesFit sizes }
    ensures { checked_by plan_as result ≡ decide_join (sizes_as sizes) (bounds_as bounds) }
{
    let Some(span) = real_lines(sizes.count, bounds) else {
        return Err(Refusal::NoLine);
    };
    let coming = Coming {
        source: Source::New,
        many: 1,
    };
    Ok(replace(sizes, Walk::Join, span, coming, bounds.first, Rows::Nothing))
}

fn print(sizes: Sizes, walk: Walk, bounds: Bounds) -> Result<Plan, Refusal>
    ensures { checked_by plan_as result ≡ decide_show (sizes_as sizes) (walk_as walk) (bounds_as bounds) }
{
    let Some(span) = real_lines(sizes.count, bounds) else {
        return Err(Refusal::NoLine);
    };
    Ok(show(sizes, walk, span))
}

fn line_number(sizes: Sizes, bounds: Bounds) -> Result<Plan, Refusal>
    ensures { checked_by plan_as result ≡ decide_where (sizes_as sizes) (bounds_as bounds) }
{
    let Some(line) = line_or_front(sizes.count, bounds.last) else {
        return Err(Refusal::NoLine);
    };
    Ok(say(sizes, Rows::Number(line)))
}

fn go_to(sizes: Sizes, bounds: Bounds) -> Result<Plan, Refusal>
    ensures { checked_by plan_as result ≡ decide_go (sizes_as sizes) (bounds_as bounds) }
{
    let line = Bounds {
        first: bounds.last,
        last: bounds.last,
    };
    let Some(span) = real_lines(sizes.count, line) else {
        return Err(Refusal::NoLine);
    };
    Ok(show(sizes, Walk::Show, span))
}

/// The place of a file, if it is there, or if there aren't too many.
fn file_place(slot: Slot) -> Option<Slot>
    ensures { result ≡ when (or slot.found (nat_lt slot.place 64)) slot }
{
    (slot.found || slot.place < FILES).then_some(slot)
}

/// The lines, if they can be written: they are there, or the text is empty.
fn writable_lines(count: u64, bounds: Bounds) -> Option<Span>
    ensures { result ≡ when (writable count (bounds_as bounds)) (record { after = bounds.first - 1; upto = bounds.last }) }
{
    if count == 0 && bounds.last == 0 {
        let after = bounds.first.saturating_sub(1);
        return Some(Span { after, upto: 0 });
    }
    real_lines(count, bounds)
}

/// Whether there is room for the file is looked at before the range.
fn write(sizes: Sizes, slot: Slot, range: Result<Bounds, Refusal>) -> Result<Plan, Refusal>
    requires sizes_fit { SizesFit sizes }
    requires range_ordered { RangeOrdered range }
    ensures { checked_by plan_as result ≡ decide_save (sizes_as sizes) (slot_as slot) (checked_by bounds_as range) }
{
    let Some(slot) = file_place(slot) else {
        return Err(Refusal::TooLarge);
    };
    let bounds = range?;
    let Some(span) = writable_lines(sizes.count, bounds) else {
        return Err(Refusal::NoLine);
    };
    Ok(save(sizes, slot, span))
}

/// All of the text goes, copies of a file's lines come.
fn edit(sizes: Sizes, slot: Slot) -> Result<Plan, Refusal>
    requires sizes_fit { SizesFit sizes }
    requires slot_fits { SlotFits slot }
    ensures { checked_by plan_as result ≡ decide_edit (sizes_as sizes) (slot_as slot) }
{
    if !slot.found {
        return Err(Refusal::NoFile);
    }
    let span = Span {
        after: 0,
        upto: sizes.count,
    };
    let coming = Coming {
        source: Source::Copied {
            from: slot.before,
            to: slot.before + slot.lines,
        },
        many: slot.lines,
    };
    Ok(replace(
        sizes,
        Walk::Skip,
        span,
        coming,
        slot.lines,
        Rows::Number(slot.lines),
    ))
}

/// The plan for what is done with lines of the text.
fn plan_lines(sizes: Sizes, bounds: Bounds, deed: Deed<'_>) -> Result<Plan, Refusal>
    requires sizes_fit { SizesFit sizes }
    requires deed_len_bound { length (lines_given (deed_of deed)) < 4294967296 }
    ensures { checked_by plan_as result ≡ decide_lines (sizes_as sizes) (given_of (deed_of deed.entry)) (bounds_as bounds) (deed_of deed.entry) }
{
    match deed {
        Deed::Append(lines) => append(sizes, lines, bounds),
        Deed::Insert(lines) => insert(sizes, lines, bounds),
        Deed::Change(lines) => change(sizes, lines, bounds),
        Deed::Delete => delete(sizes, bounds),
        Deed::Join => join(sizes, bounds),
        Deed::Print => print(sizes, Walk::Show, bounds),
        Deed::Number => print(sizes, Walk::ShowNumbered, bounds),
        Deed::LineNumber => line_number(sizes, bounds),
        Deed::GoTo => go_to(sizes, bounds),
        _ => Err(Refusal::Unknown),
    }
}

/// The plan for a command, or why it is refused.
pub fn plan_command(sizes: Sizes, slot: Slot, simple: Simple<'_>) -> Result<Plan, Refusal>
    requires sizes_fit { SizesFit sizes }
    requires slot_fits { SlotFits slot }
    requires deed_len_bound { length (lines_given (deed_of simple.deed)) < 4294967296 }
    ensures { checked_by plan_as result ≡ decide (sizes_as sizes) (slot_as slot) (given_of (deed_of simple.entry.deed)) (simple_of simple.entry) }
{
    if !known(simple) {
        return Err(Refusal::Unknown);
    }
    let range = command_bounds(sizes, simple);
    match simple.deed {
        Deed::Write(_) => write(sizes, slot, range),
        Deed::Edit(_) => edit(sizes, slot),
        Deed::Files => Ok(say(sizes, Rows::Files)),
        deed => plan_lines(sizes, range?, deed),
    }
}
