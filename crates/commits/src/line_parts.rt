//! Putting on a line, record by record.

ghost use Rattle.std.specs.Prelude.{◌≡◌, ℕ, suc, ◌+◌, ◌-◌, ◌*◌, ◌%◌, ◌<◌, ◌≤◌, ◌++◌, length, take, drop, ◌==◌};
ghost use Rattle.journal.specs.Log.{line as a_line};
ghost use Rattle.plain.specs.Device.{lesser};
ghost use Rattle.plain.specs.Pattern.{pick};
ghost use Rattle.engine.specs.Packing.{piece_of};
ghost use Rattle.memory.specs.Abstract.{text_of};
ghost use Rattle.records.specs.Pages.{page_of};
ghost use Rattle.commits.specs.Acts.{Says};
ghost use Rattle.commits.specs.Bounds.{Loose, Wide};
ghost use Rattle.commits.specs.Putting.{line_from, line_to, noted_pending, put_further, put_piece};
ghost use Rattle.commits.specs.Setters.{with_pending};

use crate::{Told, targets};
use memory::{Kept, Phase, Position, Putting, Registers};

/// How many bytes of a line a record holds at most.
const SHARE: u64 = records::SHARE as u64;
/// How many lines can be pending: one in each cell of text.
const PENDING: u64 = memory::TEXT as u64;

/// Where a line is in the text.
#[derive(Clone, Copy)]
struct Line {
    from: u64,
    to: u64,
}

/// The first line that is left.
fn first_line(registers: &Registers, memory: &[u64]) -> Line
    requires { (length memory.now ≡ 262144) × (Loose registers.now) }
    ensures from { result.from ≡ line_from registers.now }
    ensures to { result.to ≡ line_to registers.now memory.now }
    ensures order { result.from ≤ result.to }
    ensures within { result.to ≤ registers.now.job.text }
{
    let text = registers.job.text;
    let from = registers.putting.at.min(text);
    let to = memory::line_end(memory, registers.job.lines, from, text);
    Line { from, to }
}

/// The page of a part of a line over the front of `out`, whatever stands behind the line in the text.
fn put_page(memory: &[u64], line: Line, part: u64, out: &mut [u8])
    requires { (length memory.now ≡ 262144) × ((131072 ≤ length out.old) × ((Wide part) × ((line.from ≤ line.to) × (line.to ≤ 65536)))) }
    ensures { (text : ℕ) → line.to ≤ text → text ≤ 65536 → out.new ≡ page_of (a_line (part % 256) (piece_of (take (line.to - line.from) (drop line.from (text_of text memory.now))) part)) ++ drop 512 out.old }
{
    let long = line.to - line.from;
    let from = (line.from + SHARE * part).min(line.to);
    let here = (line.to - from).min(SHARE);
    let cells = memory::text_cells(memory, from, here);
    records::encode_line(out, (part % 256) as u8, (long % 65_536) as u16, cells);
}

/// Its first record makes a line pending.
fn note_pending(registers: &Registers, memory: &mut [u64])
    requires { (length memory.old ≡ 262144) × (Loose registers.now) }
    ensures { memory.new ≡ noted_pending registers.now memory.old }
{
    if registers.putting.part != 0 {
        return;
    }
    let position = Position {
        tape: targets::target(registers),
        at: targets::target_used(registers),
    };
    memory::push_pending(memory, registers.kept.pending, position);
}

/// What is kept then; there are never more pending lines than cells.
fn pending_then(kept: Kept, part: u64) -> Kept
    requires { kept.pending ≤ 65536 }
    ensures { result ≡ with_pending (pick (part == 0) (lesser (suc kept.pending) 65536) kept.pending) kept }
{
    if part != 0 {
        return kept;
    }
    Kept {
        pending: (kept.pending + 1).min(PENDING),
        ..kept
    }
}

/// Puts on the next record of the first line that is left.
pub fn put_piece(registers: &mut Registers, memory: &mut [u64], out: &mut [u8]) -> Told
    requires { (length memory.old ≡ 262144) × ((131072 ≤ length out.old) × (Loose registers.old)) }
    ensures { Says (put_piece registers.old memory.old) registers.new memory.new result out.old out.new }
{
    let line = first_line(registers, memory);
    let tape = targets::target(registers);
    put_page(memory, line, registers.putting.part, out);
    note_pending(registers, memory);
    registers.tapes = targets::lengthen(registers);
    registers.kept = pending_then(registers.kept, registers.putting.part);
    registers.phase = Phase::LinePut;
    Told::Append(tape)
}

/// What is put on after that record: the next of the same line, or the first of the next line.
pub fn put_further(registers: &Registers, memory: &[u64]) -> Putting
    requires { (length memory.now ≡ 262144) × (Loose registers.now) }
    ensures next { result ≡ put_further registers.now memory.now }
    ensures at { result.at ≤ 65536 }
    ensures part { Wide result.part }
{
    let putting = registers.putting;
    let line = first_line(registers, memory);
    if putting.part + 1 < memory::records_of(line.to - line.from) {
        return Putting {
            part: putting.part + 1,
            ..putting
        };
    }
    let more = line.to < registers.job.text;
    Putting {
        second: putting.second,
        more,
        at: if more { line.to + 1 } else { 0 },
        part: 0,
    }
}
