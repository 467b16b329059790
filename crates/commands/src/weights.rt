//! What is to be kept after a command, by weight.
ghost use Rattle.std.specs.Prelude.{◌≡◌, ℕ, ◌+◌, ◌-◌, ◌*◌, ◌<◌, ◌≤◌};
ghost use Rattle.std.specs.Int.{from_bool};
ghost use Rattle.commands.specs.Kept.{moved_on, stand_size};
ghost use Rattle.commands.specs.Smalls.{text_total, file_total};
ghost use Rattle.commands.specs.Turn.{too_heavy};

use crate::plan::Span;

/// What a stand weighs by itself.
const STAND: u64 = 256;
/// What a line weighs that has another line before it than it had.
const BREAK: u64 = 64;
/// What a line weighs besides its bytes.
pub const LINE_WEIGHT: u64 = 64;
/// What a file weighs besides its name and its lines.
pub const FILE_WEIGHT: u64 = 128;

/// Whether a line stands behind those that went, and another line before it than there was.
fn moves_on(count: u64, span: Span, came: u64) -> bool
    ensures { from_bool result ≡ moved_on count span.after span.upto came }
{
    span.upto < count && (span.after < span.upto || came > 0)
}

/// What the stand weighs that can be taken back, after lines that weigh `went` were replaced by `came` others in a text of `count` lines.
pub fn stand_size(count: u64, span: Span, went: u64, came: u64) -> u64
    requires count_bound { count < 1099511627776 }
    requires after_bound { span.after < 1099511627776 }
    requires upto_bound { span.upto < 1099511627776 }
    requires went_bound { went < 1099511627776 }
    ensures { result ≡ stand_size count span.after span.upto went came }
{
    STAND
        + went
        + BREAK * (span.upto.saturating_sub(span.after) + u64::from(moves_on(count, span, came)))
}

/// The weight of all that is kept after lines of the text were replaced, and what was before them in the ring dropped.
pub fn text_total(total: u64, went: u64, dropped: u64, came: u64, stand: u64) -> u64
    requires dropped_bound { went + dropped ≤ total }
    requires total_bound { total < 4294967296 }
    requires came_bound { came < 4294967296 }
    requires stand_bound { stand < 1099511627776 }
    ensures { result ≡ text_total total went came stand dropped }
{
    total - went - dropped + came + stand
}

/// The weight of all that is kept after a file got other lines.
pub fn file_total(total: u64, found: bool, size: u64, came: u64, name: u64) -> u64
    requires size_le_total { size ≤ total }
    requires total_bound { total < 4294967296 }
    requires came_bound { came < 4294967296 }
    requires name_bound { name < 4294967296 }
    ensures { result ≡ file_total total found size came name }
{
    let itself = if found { 0 } else { FILE_WEIGHT + name };
    total - size + came + itself
}

/// Whether there is no room: more would be kept than before, and than a sixteenth of the bytes that a tape of so many records has room for.
pub fn no_room(records: u64, before: u64, after: u64) -> bool
    requires { records < 1099511627776 }
    ensures { result ≡ too_heavy records before after }
{
    before < after && 32 * records < after
}
