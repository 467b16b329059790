//! The walk over lines of the text: each is read from its tape, record by record, and shown, measured or joined.

ghost use Rattle.std.specs.Prelude.{◌≡◌, ℕ, suc, ◌+◌, ◌-◌, ◌*◌, ◌<◌, ◌≤◌, ◌&&◌, List, ◌++◌, length, drop, nat_le, nat_lt};
ghost use Rattle.plain.specs.Pattern.{pick};
ghost use Rattle.commands.specs.Code.{walk_as};
ghost use Rattle.engine.specs.Machine.{walks as walking_at};
ghost use Rattle.records.specs.Values.{piece_of};
ghost use Rattle.memory.specs.Abstract.{text_of};
ghost use Rattle.memory.specs.Registers.{Tame, TameWalking};
ghost use Rattle.memory.specs.Sections.{extended};
ghost use Rattle.commits.specs.Acts.{Says};
ghost use Rattle.commits.specs.Bounds.{Loose};
ghost use Rattle.commits.specs.Setters.{walking as walked, with_job};
ghost use Rattle.execution.specs.Walk.{fetch as fetches, lines_then, walk_on as WalkedOn, line_past as past, next_part, joined_memory, more_parts as partly, row_of, show_piece as shown, too_long as exceeding, glue_piece as glued, fetched as came};

use crate::room::weigh;
use commands::{LINE_WEIGHT, Refusal, Walk};
use commits::{LOST, NUMBER, put_number, refuse};
use memory::{Job, Lines, Phase, Registers, Walking};
use protocol::Told;
use records::Piece;

/// The most bytes of a line.
const LONGEST: u64 = typed::LONGEST as u64;

/// Asks for the next record of the line that is walked over.
fn fetch(registers: &mut Registers, memory: &[u64]) -> Told
    requires { (length memory.now ≡ 262144) × (Loose registers.old) }
    ensures { (out : List ℕ) → Says (fetches registers.old memory.now) registers.new memory.now result out out }
{
    let text = memory::file_lines(memory, registers.kept.files);
    let entry = memory::entry(
        memory,
        registers.kept.entries,
        text + registers.walking.line,
    );
    registers.phase = Phase::Fetching;
    Told::read(entry.tape, entry.at + registers.walking.part)
}

/// Whether lines are looked at.
pub(crate) fn walks(walk: Walk) -> bool
    ensures { result ≡ walking_at (walk_as walk) }
{
    !matches!(walk, Walk::Skip)
}

/// Whether a line is left to look at.
fn goes_on(registers: &Registers) -> bool
    ensures { result ≡ (walking_at (walk_as registers.now.job.plan.walk) && nat_lt registers.now.walking.line registers.now.job.plan.span.upto) }
{
    walks(registers.job.plan.walk) && registers.walking.line < registers.job.plan.span.upto
}

/// The lines that are put on after the walk: one of all that was joined, or those given.
fn job_then(registers: &Registers) -> Job
    ensures { with_job result registers.now ≡ lines_then registers.now.job.plan.walk registers.now }
{
    let job = registers.job;
    match job.plan.walk {
        Walk::Skip | Walk::Show | Walk::ShowNumbered | Walk::Measure => job,
        Walk::Join => Job {
            lines: Lines::Joined,
            text: registers.walking.bytes,
            ..job
        },
    }
}

/// The next line, or what comes after the walk.
pub fn walk_on(registers: &mut Registers, memory: &mut [u64], out: &mut [u8]) -> Told
    requires { (length memory.old ≡ 262144) × ((131072 ≤ length out.old) × (Loose registers.old)) }
    ensures { Says (WalkedOn registers.old memory.old) registers.new memory.new result out.old out.new }
{
    if goes_on(registers) {
        return fetch(registers, memory);
    }
    registers.job = job_then(registers);
    weigh(registers, memory, out)
}

/// Past a line of so many bytes.
fn line_past(walking: Walking, long: u64, bytes: u64) -> Walking
    requires { (TameWalking walking) × (long < 65536) }
    ensures { result ≡ walked (suc walking.line) 0 (walking.went + (64 + long)) bytes }
{
    Walking {
        line: walking.line + 1,
        part: 0,
        went: walking.went + (LINE_WEIGHT + long),
        bytes,
    }
}

/// Bytes of a record behind those of the records before it, and how many there are then.
fn append(memory: &mut [u64], at: u64, bytes: &[u8]) -> u64
    requires { (length memory.old ≡ 262144) × (at ≤ 65536) }
    ensures count { result ≡ pick (nat_le (at + length bytes.now) 65536) (at + length bytes.now) at }
    ensures few { result ≤ 65536 }
    ensures memory { memory.new ≡ extended at bytes.now memory.old }
    ensures long { length memory.new ≡ 262144 }
{
    memory::extend(memory, at, bytes).unwrap_or(at)
}

/// Whether the line has more records.
fn more_parts(registers: &Registers, piece: Piece<'_>) -> bool
    requires { Tame registers.now }
    ensures { result ≡ partly (piece_of piece.entry) registers.now }
{
    registers.walking.part + 1 < memory::records_of(piece.long as u64)
}

/// The bytes of a record are kept, and the next record of the line is asked for.
fn fetch_more(registers: &mut Registers, memory: &mut [u64], piece: Piece<'_>) -> Told
    requires { (length memory.old ≡ 262144) × (Tame registers.old) }
    ensures { (out : List ℕ) → Says (fetches (next_part (piece_of piece.entry) registers.old) (joined_memory (piece_of piece.entry) registers.old memory.old)) registers.new memory.new result out out }
{
    registers.walking.bytes = append(memory, registers.walking.bytes, piece.bytes);
    registers.walking.part += 1;
    fetch(registers, memory)
}

/// The bytes that were kept, and then others, at the front of a row.
fn lay_text(row: &mut [u8], memory: &[u64], kept: u64, bytes: &[u8])
    requires { (length memory.now ≡ 262144) × ((kept ≤ 65536) × (kept + length bytes.now ≤ length row.old)) }
    ensures { row.new ≡ (text_of kept memory.now ++ bytes.now) ++ drop (kept + length bytes.now) row.old }
{
    memory::copy_out(memory, 0, kept, row);
    let from = kept as usize;
    row[from..from + bytes.len()].copy_from_slice(bytes);
}

/// The row of a line, before it its number if it is to be shown too: a bool, as `row_of` of the definition takes it. Says how many bytes it has.
fn lay_row(
    registers: &Registers,
    memory: &[u64],
    out: &mut [u8],
    piece: Piece<'_>,
    numbered: bool,
) -> u64
    requires { (length memory.now ≡ 262144) × ((131072 ≤ length out.old) × ((Tame registers.now) × (length piece.bytes.now ≤ 503))) }
    ensures long { result ≡ length (row_of numbered (piece_of piece.entry) registers.now memory.now) }
    ensures row { out.new ≡ row_of numbered (piece_of piece.entry) registers.now memory.now ++ drop result out.old }
{
    let kept = registers.walking.bytes;
    let long = kept + piece.bytes.len() as u64;
    if numbered {
        put_number(&mut out[..NUMBER], registers.walking.line + 1);
        lay_text(&mut out[NUMBER..], memory, kept, piece.bytes);
        return NUMBER as u64 + long;
    }
    lay_text(out, memory, kept, piece.bytes);
    long
}

/// A record of a line that is shown: after its last one the row is shown.
fn show_piece(
    registers: &mut Registers,
    memory: &mut [u64],
    out: &mut [u8],
    piece: Piece<'_>,
    numbered: bool,
) -> Told
    requires { (length memory.old ≡ 262144) × ((131072 ≤ length out.old) × ((Tame registers.old) × (length piece.bytes.now ≤ 503))) }
    ensures { Says (shown numbered (piece_of piece.entry) registers.old memory.old) registers.new memory.new result out.old out.new }
{
    if more_parts(registers, piece) {
        return fetch_more(registers, memory, piece);
    }
    let long = lay_row(registers, memory, out, piece, numbered);
    registers.walking = line_past(registers.walking, piece.long as u64, 0);
    registers.phase = Phase::RowShown;
    Told::Shows(long)
}

/// Whether lines that are joined would be too long together, as is seen at the first record of each.
fn too_long(registers: &Registers, piece: Piece<'_>) -> bool
    requires { Tame registers.now }
    ensures { result ≡ exceeding (piece_of piece.entry) registers.now }
{
    registers.walking.part == 0 && LONGEST < registers.walking.bytes + piece.long as u64
}

/// A record of a line that is joined to others.
fn glue_piece(
    registers: &mut Registers,
    memory: &mut [u64],
    out: &mut [u8],
    piece: Piece<'_>,
) -> Told
    requires { (length memory.old ≡ 262144) × ((131072 ≤ length out.old) × (Tame registers.old)) }
    ensures { Says (glued (piece_of piece.entry) registers.old memory.old) registers.new memory.new result out.old out.new }
{
    if too_long(registers, piece) {
        return refuse(registers, Refusal::TooLarge.number());
    }
    if more_parts(registers, piece) {
        return fetch_more(registers, memory, piece);
    }
    let bytes = append(memory, registers.walking.bytes, piece.bytes);
    registers.walking = line_past(registers.walking, piece.long as u64, bytes);
    walk_on(registers, memory, out)
}

/// A record of a line that is only measured.
fn measure_piece(
    registers: &mut Registers,
    memory: &mut [u64],
    out: &mut [u8],
    piece: Piece<'_>,
) -> Told
    requires { (length memory.old ≡ 262144) × ((131072 ≤ length out.old) × (Tame registers.old)) }
    ensures { Says (WalkedOn (past (piece_of piece.entry).long 0 registers.old) memory.old) registers.new memory.new result out.old out.new }
{
    registers.walking = line_past(registers.walking, piece.long as u64, 0);
    walk_on(registers, memory, out)
}

/// A record of a line was read.
pub fn fetched(registers: &mut Registers, memory: &mut [u64], out: &mut [u8], read: &[u8]) -> Told
    requires { (length memory.old ≡ 262144) × ((131072 ≤ length out.old) × (Tame registers.old)) }
    ensures { Says (came read.now registers.old memory.old) registers.new memory.new result out.old out.new }
{
    let piece = records::piece_read(read);
    match registers.job.plan.walk {
        Walk::Skip => refuse(registers, LOST),
        Walk::Show => show_piece(registers, memory, out, piece, false),
        Walk::ShowNumbered => show_piece(registers, memory, out, piece, true),
        Walk::Measure => measure_piece(registers, memory, out, piece),
        Walk::Join => glue_piece(registers, memory, out, piece),
    }
}
