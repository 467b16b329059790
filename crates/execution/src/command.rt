//! A command that was typed: what is decided about it, and how it begins.

ghost use Rattle.std.specs.Prelude.{◌≡◌, ◌-◌, ◌<◌, ◌≤◌, false, length};
ghost use Rattle.typed.specs.Meaning.{lines_in, deed_of, simple_of};
ghost use Rattle.journal.specs.Small.{Small};
ghost use Rattle.commands.specs.Code.{plan_as};
ghost use Rattle.commands.specs.Turn.{lines_given as lines_typed, name_given as name_typed};
ghost use Rattle.engine.specs.Machine.{went_at_once as gone_at_once};
ghost use Rattle.memory.specs.Registers.{Tame};
ghost use Rattle.memory.specs.Sections.{extended, name_kept};
ghost use Rattle.commits.specs.Setters.{putting as nothing_put};
ghost use Rattle.commits.specs.Acts.{Says};
ghost use Rattle.commits.specs.Bounds.{Loose};
ghost use Rattle.execution.specs.Obey.{few_of, begun, begun_memory, do_plan as planned, command as commanded, obey as obeyed};
ghost use Rattle.execution.specs.Plans.{with_newlines, lines_kind};

use crate::walk::{walk_on, walks};
use commands::{Plan, Refusal, Sizes, Update, plan_command};
use commits::{finish, refuse};
use memory::{Job, Lines, Putting, Registers, Walking};
use protocol::Told;
use typed::{Command, Deed, Simple};

/// The name of a file that a deed has, if it has one.
fn name_given<'a>(deed: Deed<'a>) -> &'a [u8]
    ensures { result.now ≡ name_typed (deed_of deed.entry) }
{
    match deed {
        Deed::Write(name) | Deed::Edit(name) | Deed::Read(name) => name,
        _ => &[],
    }
}

/// The lines that a deed gives.
fn lines_given<'a>(deed: Deed<'a>) -> typed::Lines<'a>
    ensures { lines_in result ≡ lines_typed (deed_of deed.entry) }
{
    match deed {
        Deed::Append(lines) | Deed::Insert(lines) | Deed::Change(lines) => lines,
        _ => typed::Lines { text: None },
    }
}

/// Lines as they were typed.
fn text_given<'a>(lines: typed::Lines<'a>) -> &'a [u8]
    ensures { result.now ≡ with_newlines (lines_in lines.entry) }
{
    lines.text.unwrap_or(&[])
}

/// Whether there are any.
fn kind_given(lines: typed::Lines<'_>) -> Lines
    ensures { result ≡ lines_kind (lines_in lines.entry) }
{
    match lines.text {
        None => Lines::Nothing,
        Some(_) => Lines::Given,
    }
}

/// A text is kept in the cells, and how many bytes are there then.
fn keep_text(memory: &mut [u64], text: &[u8]) -> u64
    requires { length memory.old ≡ 262144 }
    ensures count { result ≡ few_of 65536 (length text.now) }
    ensures memory { memory.new ≡ extended 0 text.now memory.old }
    ensures long { length memory.new ≡ 262144 }
{
    memory::keep(memory, text).unwrap_or(0)
}

/// The name of a file is kept, and how many bytes it has there.
fn keep_name(memory: &mut [u64], name: &[u8]) -> u64
    requires { length memory.old ≡ 262144 }
    ensures count { result ≡ few_of 64 (length name.now) }
    ensures memory { memory.new ≡ name_kept name.now memory.old }
    ensures long { length memory.new ≡ 262144 }
{
    memory::keep_name(memory, name).unwrap_or(0)
}

/// What goes without a walk: nothing, or the whole text.
fn went_at_once(plan: Plan, weight: u64) -> u64
    ensures { (s : Small) → s.weight ≡ weight → result ≡ gone_at_once (plan_as plan) s }
{
    if walks(plan.walk) {
        0
    } else if plan.span.after < plan.span.upto {
        weight
    } else {
        0
    }
}

/// Nothing is put on.
fn nothing_put() -> Putting
    ensures { result ≡ nothing_put false false 0 0 }
{
    Putting::default()
}

/// The registers and the memory at the beginning of what is done for a command.
fn begin_job(
    registers: &mut Registers,
    memory: &mut [u64],
    simple: Simple<'_>,
    size: u64,
    plan: Plan,
)
    requires { length memory.old ≡ 262144 }
    ensures registers { registers.new ≡ begun (simple_of simple.entry) size (plan_as plan) registers.old memory.old }
    ensures memory { memory.new ≡ begun_memory (simple_of simple.entry) memory.old }
    ensures long { length memory.new ≡ 262144 }
{
    let lines = lines_given(simple.deed);
    let text = keep_text(memory, text_given(lines));
    let name = keep_name(memory, name_given(simple.deed));
    registers.job = Job {
        plan,
        name,
        size,
        lines: kind_given(lines),
        text,
    };
    registers.walking = Walking {
        line: plan.span.after,
        part: 0,
        went: went_at_once(plan, registers.kept.weight),
        bytes: 0,
    };
    registers.putting = nothing_put();
}

/// What changes nothing is at its end; all else begins with the walk.
fn do_plan(registers: &mut Registers, memory: &mut [u64], out: &mut [u8]) -> Told
    requires { (length memory.old ≡ 262144) × ((131072 ≤ length out.old) × (Loose registers.old)) }
    ensures { Says (planned registers.old.job.plan.update registers.old memory.old) registers.new memory.new result out.old out.new }
{
    match registers.job.plan.update {
        Update::Nothing => finish(registers, memory, out),
        Update::Current | Update::Text | Update::File(_) => walk_on(registers, memory, out),
    }
}

/// A command that isn't for every line of a pattern: it is refused, or what is done for it begins.
fn command(
    registers: &mut Registers,
    memory: &mut [u64],
    out: &mut [u8],
    simple: Simple<'_>,
) -> Told
    requires { (length memory.old ≡ 262144) × ((131072 ≤ length out.old) × ((Tame registers.old) × (length (lines_typed (deed_of simple.deed)) < 4294967296))) }
    ensures { Says (commanded (simple_of simple.entry) registers.old memory.old) registers.new memory.new result out.old out.new }
{
    let files = registers.kept.files;
    let slot = memory::find_file(memory, files, name_given(simple.deed));
    let sizes = Sizes {
        count: registers.kept.count,
        current: registers.kept.current,
        offset: memory::file_lines(memory, files),
    };
    match plan_command(sizes, slot, simple) {
        Ok(plan) => {
            begin_job(registers, memory, simple, slot.size, plan);
            do_plan(registers, memory, out)
        }
        Err(refusal) => refuse(registers, refusal.number()),
    }
}

/// What was typed.
pub fn obey(registers: &mut Registers, memory: &mut [u64], out: &mut [u8], typed: &[u8]) -> Told
    requires { (length memory.old ≡ 262144) × ((131072 ≤ length out.old) × (Tame registers.old)) }
    ensures { Says (obeyed typed.now registers.old memory.old) registers.new memory.new result out.old out.new }
{
    let Some(read) = typed::read(typed) else {
        return refuse(registers, Refusal::Unreadable.number());
    };
    match read {
        Command::Plain(simple) => command(registers, memory, out, simple),
        Command::Global { .. } => refuse(registers, Refusal::Unknown.number()),
    }
}
