//! The end of a command: rows that are shown last, and how it ends.

ghost use Rattle.std.specs.Prelude.{◌≡◌, ℕ, ◌+◌, ◌*◌, ◌<◌, ◌≤◌, List, ◌++◌, length, drop};
ghost use Rattle.plain.specs.Pattern.{eight};
ghost use Rattle.engine.specs.Machine.{file_row};
ghost use Rattle.memory.specs.Abstract.{file_at};
ghost use Rattle.memory.specs.Registers.{part};
ghost use Rattle.memory.specs.Sections.{files_in};
ghost use Rattle.plain.specs.Run.{shows};
ghost use Rattle.memory.specs.declared.phase.Phase.TheVariants.{CountShown};
ghost use Rattle.commits.specs.Acts.{Says, made};
ghost use Rattle.commits.specs.Setters.{in_phase};
ghost use Rattle.commits.specs.Bounds.{Loose};
ghost use Rattle.commits.specs.Rows.{ends_done, refuses, show_files, finish as finished};

use crate::Told;
use commands::Rows;
use memory::{Phase, Registers};

/// How many bytes a number takes in a row.
pub const NUMBER: usize = 8;
/// The number that is said where the machine was told what it didn't ask for, or finds what can't be.
pub const LOST: u64 = 999;

/// A command is done.
pub fn end_done(registers: &mut Registers) -> Told
    ensures { (m out : List ℕ) → Says (ends_done registers.old m) registers.new m result out out }
{
    registers.phase = Phase::Idle;
    Told::Done
}

/// A command is refused, with a number.
pub fn refuse(registers: &mut Registers, number: u64) -> Told
    ensures { (m out : List ℕ) → Says (refuses number registers.old m) registers.new m result out out }
{
    registers.phase = Phase::Idle;
    Told::No(number)
}

/// A number in eight bytes, the highest first.
pub fn put_number(out: &mut [u8], n: u64)
    requires { length out.old ≡ 8 }
    ensures { out.new ≡ eight n }
{
    out.copy_from_slice(&n.to_be_bytes());
}

/// The row of file `i` over the front of `out`: its name with its length before it, and how many lines it has. Says how many bytes the row has.
fn put_file_row(memory: &[u64], i: u64, out: &mut [u8]) -> u64
    requires { (length memory.now ≡ 262144) × ((i < 64) × (131072 ≤ length out.old)) }
    ensures row { out.new ≡ file_row (file_at (part (67 * i) 67 (files_in memory.now))) ++ drop result out.old }
    ensures long { result ≡ length (file_row (file_at (part (67 * i) 67 (files_in memory.now)))) }
{
    let file = memory::file_at(memory, i);
    let end = NUMBER + file.name as usize;
    put_number(&mut out[..NUMBER], file.name);
    memory::copy_low(memory::file_name(memory, i), &mut out[NUMBER..end]);
    put_number(&mut out[end..end + NUMBER], file.lines);
    (end + NUMBER) as u64
}

/// Shows the row of file `i`; behind the last file, the command is done.
pub fn show_files(registers: &mut Registers, memory: &[u64], out: &mut [u8], i: u64) -> Told
    requires { (length memory.now ≡ 262144) × ((131072 ≤ length out.old) × (Loose registers.old)) }
    ensures { Says (show_files i registers.old memory.now) registers.new memory.now result out.old out.new }
{
    if i >= registers.kept.files {
        return end_done(registers);
    }
    let long = put_file_row(memory, i, out);
    registers.carrying.index = i;
    registers.phase = Phase::FileShown;
    Told::Shows(long)
}

/// Shows the number that a command says.
fn show_number(registers: &mut Registers, out: &mut [u8], n: u64) -> Told
    requires { 131072 ≤ length out.old }
    ensures { (m : List ℕ) → Says (made (in_phase CountShown registers.old) m (shows (eight n))) registers.new m result out.old out.new }
{
    put_number(&mut out[..NUMBER], n);
    registers.phase = Phase::CountShown;
    Told::Shows(NUMBER as u64)
}

/// Shows the last row of a command that is done, if it has one.
pub fn finish(registers: &mut Registers, memory: &[u64], out: &mut [u8]) -> Told
    requires { (length memory.now ≡ 262144) × ((131072 ≤ length out.old) × (Loose registers.old)) }
    ensures { Says (finished registers.old memory.now) registers.new memory.now result out.old out.new }
{
    match registers.job.plan.rows {
        Rows::Nothing => end_done(registers),
        Rows::Number(n) => show_number(registers, out, n),
        Rows::Files => show_files(registers, memory, out, 0),
    }
}
