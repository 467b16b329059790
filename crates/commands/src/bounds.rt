//! Which lines a command speaks of, from how many there are and the current one.
ghost use Rattle.std.specs.Prelude.{◌≡◌, ℕ, ◌+◌, ◌-◌, ◌<◌, ◌&&◌, nat_le};
ghost use Rattle.plain.specs.House.{plain_address, plain_range, core_deed};
ghost use Rattle.typed.specs.Meaning.{itself, at_place, address_of, range_of, deed_of, simple_of};
ghost use Rattle.commands.specs.Resolve.{good, then, check, base_plain, resolve_plain, in_order, resolve_range, default_bounds, command_bounds};
ghost use Rattle.commands.specs.Plan.{known};
ghost use Rattle.commands.specs.Code.{checked_by, bounds_as};

use crate::plan::Sizes;
use crate::refusal::Refusal;
use typed::{Address, Deed, Place, Range, Reach, Simple};

/// The first and the last line that a command speaks of.
#[derive(Clone, Copy)]
pub struct Bounds {
    pub first: u64,
    pub last: u64,
}

/// A line, before any step on or back.
fn base(sizes: Sizes, place: Place<'_>) -> Result<u64, Refusal>
    ensures { checked_by itself result ≡ base_plain sizes.count sizes.current (at_place place.entry) }
{
    match place {
        Place::Current => Ok(sizes.current),
        Place::Last => Ok(sizes.count),
        Place::Number(n) => Ok(n),
        Place::Mark(_) | Place::Next(_) | Place::Previous(_) => Err(Refusal::Unknown),
    }
}

/// So many lines on and back, all added up before the line is looked at; 0 is before the first.
fn step(sizes: Sizes, line: u64, on: u64, back: u64) -> Result<u64, Refusal>
    ensures { checked_by itself result ≡ check (nat_le back (line + on) && nat_le (line + on - back) sizes.count) 4 (good (line + on - back)) }
{
    let stepped = if on >= back {
        line.checked_add(on - back)
    } else {
        line.checked_sub(back - on)
    };
    let Some(reached) = stepped else {
        return Err(Refusal::NoLine);
    };
    if reached > sizes.count {
        return Err(Refusal::NoLine);
    }
    Ok(reached)
}

/// The line of an address.
fn resolve(sizes: Sizes, address: Address<'_>) -> Result<u64, Refusal>
    ensures { checked_by itself result ≡ resolve_plain sizes.count sizes.current (address_of address.entry) }
{
    let line = base(sizes, address.place)?;
    step(sizes, line, address.on, address.back)
}

fn in_order(first: u64, last: u64) -> Result<Bounds, Refusal>
    ensures { checked_by bounds_as result ≡ in_order first last }
{
    if first <= last {
        Ok(Bounds { first, last })
    } else {
        Err(Refusal::NoLine)
    }
}

/// From a first line to the one of a second address.
fn to_second(sizes: Sizes, first: u64, second: Address<'_>) -> Result<Bounds, Refusal>
    ensures { checked_by bounds_as result ≡ then (resolve_plain sizes.count sizes.current (address_of second.entry)) (λ m. in_order first m) }
{
    let last = resolve(sizes, second)?;
    in_order(first, last)
}

/// The lines of a range, or those that are taken without one.
fn range_bounds(sizes: Sizes, range: Range<'_>, default: Bounds) -> Result<Bounds, Refusal>
    ensures { checked_by bounds_as result ≡ resolve_range sizes.count sizes.current (range_of range.entry) (bounds_as default) }
{
    match range.reach {
        Reach::Unspecified => Ok(default),
        Reach::One => {
            let line = resolve(sizes, range.first)?;
            Ok(Bounds {
                first: line,
                last: line,
            })
        }
        Reach::Two => {
            let first = resolve(sizes, range.first)?;
            to_second(sizes, first, range.second)
        }
        Reach::FromFirst => {
            let first = resolve(sizes, range.first)?;
            let then = Sizes {
                current: first,
                ..sizes
            };
            to_second(then, first, range.second)
        }
        Reach::All => Ok(Bounds {
            first: 1,
            last: sizes.count,
        }),
    }
}

/// The lines that a deed takes without a range.
fn default_bounds(sizes: Sizes, deed: Deed<'_>) -> Bounds
    requires { sizes.current < 4294967296 }
    ensures { bounds_as result ≡ default_bounds sizes.count sizes.current (deed_of deed.entry) }
{
    match deed {
        Deed::Join => Bounds {
            first: sizes.current,
            last: sizes.current + 1,
        },
        Deed::LineNumber | Deed::Read(_) => Bounds {
            first: sizes.count,
            last: sizes.count,
        },
        Deed::GoTo => Bounds {
            first: sizes.current + 1,
            last: sizes.current + 1,
        },
        Deed::Write(_) => Bounds {
            first: 1,
            last: sizes.count,
        },
        _ => Bounds {
            first: sizes.current,
            last: sizes.current,
        },
    }
}

/// The lines that a command speaks of.
pub fn command_bounds(sizes: Sizes, simple: Simple<'_>) -> Result<Bounds, Refusal>
    requires { sizes.current < 4294967296 }
    ensures { checked_by bounds_as result ≡ command_bounds sizes.count sizes.current (simple_of simple.entry) }
{
    range_bounds(sizes, simple.range, default_bounds(sizes, simple.deed))
}

/// Whether an address is a number, the current line or the last one, or counted from these.
fn known_place(place: Place<'_>) -> bool
    ensures { result ≡ plain_address (at_place place.entry) }
{
    matches!(place, Place::Current | Place::Last | Place::Number(_))
}

fn known_deed(deed: Deed<'_>) -> bool
    ensures { result ≡ core_deed (deed_of deed.entry) }
{
    matches!(
        deed,
        Deed::Append(_)
            | Deed::Insert(_)
            | Deed::Change(_)
            | Deed::Delete
            | Deed::Join
            | Deed::Print
            | Deed::Number
            | Deed::LineNumber
            | Deed::GoTo
            | Deed::Write(_)
            | Deed::Edit(_)
            | Deed::Files
    )
}

/// Whether a command is of the core.
pub fn known(simple: Simple<'_>) -> bool
    ensures { result ≡ known (simple_of simple.entry) }
{
    known_place(simple.range.first.place)
        && known_place(simple.range.second.place)
        && known_deed(simple.deed)
}
