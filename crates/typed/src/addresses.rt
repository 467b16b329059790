//! Addresses and ranges. Each reader of bytes asks that they are fewer than 65,536, which keeps sums of steps within 64 bits; a type for so few bytes would
//! have to be made anew from the rest that each slice pattern leaves.
ghost use Rattle.std.specs.Prelude.{◌≡◌, ℕ, suc, ◌+◌, ◌<◌, ◌≤◌, [], length};
ghost use Rattle.plain.specs.Pattern.{with_got};
ghost use Rattle.plain.specs.Command.{up_to, base, offsets, an_address, starts_address, or_here, a_range};
ghost use Rattle.typed.specs.Meaning.{itself, bytes, at_place, address_of, reach_of, range_of};
ghost use Rattle.typed.specs.Answer.{answer, a_number, an_amount, to_second, from_first};

/// A line, before any step on or back.
#[derive(Clone, Copy)]
pub enum Place<'a> {
    /// The current line.
    Current,
    /// The last line.
    Last,
    /// The line of this number.
    Number(u64),
    /// The line with this mark, a letter from a to z.
    Mark(u8),
    /// The next line that matches this pattern.
    Next(&'a [u8]),
    /// The line before the current one that matches this pattern.
    Previous(&'a [u8]),
}

/// A place, and so many lines on and back from it.
#[derive(Clone, Copy)]
pub struct Address<'a> {
    pub place: Place<'a>,
    pub on: u64,
    pub back: u64,
}

/// Which of a range's addresses were typed.
#[derive(Clone, Copy)]
pub enum Reach {
    /// None: the command's own default stands.
    Unspecified,
    /// The first alone.
    One,
    /// Both.
    Two,
    /// Both, with the current line set to the first before the second is looked for.
    FromFirst,
    /// None: all lines are meant.
    All,
}

/// A range: two addresses by value, and which of them were typed. No `Option` of an address: the definition of a range has both always, the current line for
/// one that wasn't typed, and which were is `reach`.
#[derive(Clone, Copy)]
pub struct Range<'a> {
    pub reach: Reach,
    pub first: Address<'a>,
    pub second: Address<'a>,
}

/// How many digits a number may have.
const DIGITS: usize = 9;

/// The current line.
const HERE: Address<'static> = Address {
    place: Place::Current,
    on: 0,
    back: 0,
};

/// The number that the digits at the front write, with what stands after them: 0 for no digit, and more than nine are refused.
pub(crate) fn number(cs: &[u8]) -> Option<(u64, &[u8])>
    ensures { answer itself result ≡ a_number cs.now }
{
    // Counted as they are read: it stops at the tenth digit, so no value is too large for 64 bits.
    let mut value: u64 = 0;
    let mut count: usize = 0;
    let mut rest = cs;
    while let [c @ b'0'..=b'9', tail @ ..] = rest {
        if count == DIGITS {
            return None;
        }
        value = 10 * value + u64::from(*c - b'0');
        count += 1;
        rest = tail;
    }
    Some((value, rest))
}

/// The same, with 1 where no digit stands at the front.
fn amount(cs: &[u8]) -> Option<(u64, &[u8])>
    ensures { answer itself result ≡ an_amount cs.now }
{
    match cs {
        [b'0'..=b'9', ..] => number(cs),
        _ => Some((1, cs)),
    }
}

/// The bytes before the first `delimiter` that no backslash escapes, and those after it.
pub(crate) fn up_to(delimiter: u8, cs: &[u8]) -> Option<(&[u8], &[u8])>
    ensures { answer bytes result ≡ up_to delimiter [] cs.now }
{
    // An index, since a backslash goes on two bytes, and what an iterator's closure remembers is lost to the proof.
    let mut i = 0;
    while i < cs.len() {
        if cs[i] == delimiter {
            return Some((&cs[0..i], &cs[i + 1..]));
        }
        i += if cs[i] == b'\\' { 2 } else { 1 };
    }
    None
}

/// A place, by its first byte.
fn base(cs: &[u8]) -> Option<(Place<'_>, &[u8])>
    ensures { answer at_place result ≡ base cs.now }
{
    let [c, rest @ ..] = cs else {
        return None;
    };
    match *c {
        b'0'..=b'9' => {
            let (n, rest) = number(cs)?;
            Some((Place::Number(n), rest))
        }
        b'.' => Some((Place::Current, rest)),
        b'$' => Some((Place::Last, rest)),
        b'\'' => match rest {
            [mark @ b'a'..=b'z', rest @ ..] => Some((Place::Mark(*mark), rest)),
            _ => None,
        },
        b'/' => {
            let (text, rest) = up_to(b'/', rest)?;
            Some((Place::Next(text), rest))
        }
        b'?' => {
            let (text, rest) = up_to(b'?', rest)?;
            Some((Place::Previous(text), rest))
        }
        b'+' | b'-' => Some((Place::Current, cs)),
        _ => None,
    }
}

/// The steps behind a place. What is typed is short enough that no sum of them passes 64 bits.
fn offsets<'a>(place: Place<'a>, cs: &'a [u8]) -> Option<(Address<'a>, &'a [u8])>
    requires { length cs.now < 65536 }
    ensures { answer address_of result ≡ offsets (suc (length cs.now)) (at_place place.entry) cs.now }
{
    let mut on: u64 = 0;
    let mut back: u64 = 0;
    let mut rest = cs;
    while let [c, tail @ ..] = rest {
        let (n, after) = amount(tail)?;
        match *c {
            b'+' => on += n,
            b'-' => back += n,
            _ => break,
        }
        rest = after;
    }
    Some((Address { place, on, back }, rest))
}

/// An address, and what is left behind it.
fn read_address(cs: &[u8]) -> Option<(Address<'_>, &[u8])>
    requires { length cs.now < 65536 }
    ensures { answer address_of result ≡ an_address cs.now }
{
    let (place, rest) = base(cs)?;
    offsets(place, rest)
}

/// Whether an address begins here.
fn starts_address(cs: &[u8]) -> bool
    ensures { result ≡ starts_address cs.now }
{
    matches!(
        cs,
        [
            b'0'..=b'9' | b'.' | b'$' | b'\'' | b'/' | b'?' | b'+' | b'-',
            ..
        ]
    )
}

/// An address, or the current line where none is written.
pub(crate) fn or_here(cs: &[u8]) -> Option<(Address<'_>, &[u8])>
    requires { length cs.now < 65536 }
    ensures { answer address_of result ≡ or_here cs.now }
{
    if starts_address(cs) {
        read_address(cs)
    } else {
        Some((HERE, cs))
    }
}

/// From a first address to the one that follows.
fn to_second<'a>(reach: Reach, first: Address<'a>, cs: &'a [u8]) -> Option<(Range<'a>, &'a [u8])>
    requires { length cs.now < 65536 }
    ensures { answer range_of result ≡ to_second (reach_of reach) (address_of first.entry) cs.now }
{
    let (second, rest) = or_here(cs)?;
    Some((
        Range {
            reach,
            first,
            second,
        },
        rest,
    ))
}

/// A range that begins with an address.
fn from_first(cs: &[u8]) -> Option<(Range<'_>, &[u8])>
    requires { length cs.now < 65536 }
    ensures { answer range_of result ≡ with_got (an_address cs.now) from_first }
{
    let (first, rest) = read_address(cs)?;
    match rest {
        [b',', rest @ ..] => to_second(Reach::Two, first, rest),
        [b';', rest @ ..] => to_second(Reach::FromFirst, first, rest),
        _ => Some((
            Range {
                reach: Reach::One,
                first,
                second: HERE,
            },
            rest,
        )),
    }
}

/// A range, typed or not, and what is left behind it.
pub(crate) fn read_range(cs: &[u8]) -> Option<(Range<'_>, &[u8])>
    requires { length cs.now < 65536 }
    ensures { answer range_of result ≡ a_range cs.now }
{
    match cs {
        [b'%' | b',', rest @ ..] => Some((
            Range {
                reach: Reach::All,
                first: HERE,
                second: HERE,
            },
            rest,
        )),
        _ if starts_address(cs) => from_first(cs),
        _ => Some((
            Range {
                reach: Reach::Unspecified,
                first: HERE,
                second: HERE,
            },
            cs,
        )),
    }
}
