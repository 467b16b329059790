//! What a commit says: its splice of the directory, and the small state that it sets.

ghost use Rattle.std.specs.Prelude.{◌≡◌, ℕ, ◌<◌, ◌≤◌, List, length};
ghost use Rattle.commands.specs.Code.{update_as};
ghost use Rattle.journal.specs.Values.{source_of, splice_of, also_of, news_of};
ghost use Rattle.engine.specs.Machine.{came_weight, copied_weight, news_of as news_then};
ghost use Rattle.memory.specs.Abstract.{house_of, job_lines, name_of, text_of};
ghost use Rattle.journal.specs.Small.{news, nothing_else};
ghost use Rattle.commits.specs.Bounds.{Loose, Wide};
ghost use Rattle.records.specs.Checked.{cut, cut_also, cut_news, cut_source, cut_splice};
ghost use Rattle.commits.specs.News.{clamped, within as inside};

use commands::{Update, stand_size};
use journal::{Also, Numbers, Source, Splice};
use memory::{Kept, Registers};

/// A page has 32 bits for each number. (`memory::LIMIT` is of registers, and could be another.)
pub const LIMIT: u64 = 4_294_967_296;

/// What copies of lines weigh: of those of a file, or of those walked over.
fn copied_weight(update: Update, went: u64, size: u64) -> u64
    ensures { result ≡ copied_weight (update_as update) went size }
{
    match update {
        Update::Nothing | Update::Current => 0,
        Update::Text => size,
        Update::File(_) => went,
    }
}

/// What the lines weigh that come.
fn came_weight(registers: &Registers, memory: &[u64]) -> u64
    requires { (length memory.now ≡ 262144) × (Loose registers.now) }
    ensures weight { result ≡ came_weight (source_of registers.now.job.plan.splice.source) (update_as registers.now.job.plan.update) (job_lines registers.now.job.lines (text_of registers.now.job.text memory.now)) registers.now.walking.went registers.now.job.size }
    ensures wide { Wide result }
{
    let job = registers.job;
    match job.plan.splice.source {
        Source::Nothing => 0,
        Source::New => memory::lines_weight(memory, job.lines, job.text),
        Source::Copied { .. } => copied_weight(job.plan.update, registers.walking.went, job.size),
    }
}

/// The small state with the same text, and a current line.
fn same_text(kept: Kept, current: u64) -> Numbers<u64>
    ensures { (name : List ℕ) → news_of result name ≡ news kept.count current kept.weight nothing_else }
{
    Numbers {
        count: kept.count,
        current,
        weight: kept.weight,
        also: Also::Nothing,
    }
}

/// The small state after a command.
pub fn news_of(registers: &Registers, memory: &[u64]) -> Numbers<u64>
    requires { (length memory.now ≡ 262144) × (Loose registers.now) }
    ensures { news_of result (name_of registers.now.job.name memory.now) ≡ news_then (house_of registers.now memory.now) }
{
    let kept = registers.kept;
    let plan = registers.job.plan;
    let went = registers.walking.went;
    let came = came_weight(registers, memory);
    match plan.update {
        Update::Nothing => same_text(kept, kept.current),
        Update::Current => same_text(kept, plan.current),
        Update::Text => Numbers {
            count: plan.count,
            current: plan.current,
            weight: kept.weight.saturating_sub(went) + came,
            also: Also::Push(stand_size(kept.count, plan.span, went, plan.came)),
        },
        Update::File(slot) => Numbers {
            count: kept.count,
            current: kept.current,
            weight: kept.weight,
            also: Also::Store {
                slot,
                lines: plan.came,
                weight: came,
            },
        },
    }
}

/// The low 32 bits. No `From`, as it cuts; nor a `TryFrom`, which would refuse, as this and what stands on it below never do.
fn low(n: u64) -> u32
    ensures { result ≡ cut n }
{
    (n % LIMIT) as u32
}

fn cut_also(also: Also<u64>) -> Also<u32>
    ensures { (name : List ℕ) → also_of result name ≡ cut_also (also_of also name) }
{
    match also {
        Also::Nothing => Also::Nothing,
        Also::Push(weight) => Also::Push(low(weight)),
        Also::Store {
            slot,
            lines,
            weight,
        } => Also::Store {
            slot: low(slot),
            lines: low(lines),
            weight: low(weight),
        },
    }
}

/// The numbers as a page has them.
pub fn numbers(news: Numbers<u64>) -> Numbers<u32>
    ensures { (name : List ℕ) → news_of result name ≡ cut_news (news_of news name) }
{
    Numbers {
        count: low(news.count),
        current: low(news.current),
        weight: low(news.weight),
        also: cut_also(news.also),
    }
}

fn cut_source(source: Source<u64>) -> Source<u32>
    ensures { source_of result ≡ cut_source (source_of source) }
{
    match source {
        Source::Nothing => Source::Nothing,
        Source::New => Source::New,
        Source::Copied { from, to } => Source::Copied {
            from: low(from),
            to: low(to),
        },
    }
}

/// The splice as a page has it.
pub fn splice(splice: Splice<u64>) -> Splice<u32>
    ensures { splice_of result ≡ cut_splice (splice_of splice) }
{
    Splice {
        from: low(splice.from),
        gone: low(splice.gone),
        source: cut_source(splice.source),
    }
}

/// What of the source is in a directory of so many entries. Their bound is asked for as one of a number, here and below: `Loose` has it of whole registers.
fn within(source: Source<u64>, entries: u64) -> Source<u32>
    requires { entries ≤ 524289 }
    ensures { source_of result ≡ inside entries (source_of source) }
{
    match source {
        Source::Nothing => Source::Nothing,
        Source::New => Source::New,
        Source::Copied { from, to } => {
            let to = to.min(entries);
            if from >= to {
                return Source::Nothing;
            }
            Source::Copied {
                from: from as u32,
                to: to as u32,
            }
        }
    }
}

/// The splice inside a directory of so many entries, which does the same.
pub fn clamp(splice: Splice<u64>, entries: u64) -> Splice<u32>
    requires { entries ≤ 524289 }
    ensures { splice_of result ≡ clamped entries (splice_of splice) }
{
    let from = splice.from.min(entries);
    let gone = splice.gone.min(entries - from);
    Splice {
        from: from as u32,
        gone: gone as u32,
        source: within(splice.source, entries),
    }
}
