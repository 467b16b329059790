//! A typed line, read byte by byte in the plainest way. Each reader takes bytes and gives what it read with the bytes behind it.

/// How many digits a number has at most.
const MOST_DIGITS: usize = 9;
/// How many bytes a command has at most.
const MOST_BYTES: usize = 65_535;
/// How many bytes a file's name has at most.
const MOST_NAME: usize = 64;

/// Where an address begins to count.
#[derive(Clone, Copy)]
pub enum Base {
    Current,
    Last,
    Number(u64),
    /// A mark or a pattern, which is no part of the core.
    Sought,
}

/// A line, so many on and so many back.
#[derive(Clone, Copy)]
pub struct Address {
    pub base: Base,
    pub on: u64,
    pub back: u64,
}

/// The lines that a command is for.
#[derive(Clone, Copy)]
pub enum Range {
    One(Address),
    Both(Address, Address),
    /// The second counts from the first.
    Then(Address, Address),
    All,
}

/// The lines given behind a command, with a byte 10 between them; or none.
pub type Given<'a> = Option<&'a [u8]>;

#[derive(Clone, Copy)]
pub enum Deed<'a> {
    Append(Given<'a>),
    Insert(Given<'a>),
    Change(Given<'a>),
    Delete,
    Join,
    Print,
    Number,
    Place,
    GoTo,
    Save(&'a [u8]),
    Edit(&'a [u8]),
    Files,
    /// One that is no part of the core, and may be done for many lines.
    LaterForMany,
    /// One that is no part of the core, and may not.
    Later,
}

#[derive(Clone, Copy)]
pub struct Command<'a> {
    pub range: Option<Range>,
    pub deed: Deed<'a>,
    /// Whether the deed is done for all lines that match, or don't.
    pub is_global: bool,
}

const HERE: Address = Address {
    base: Base::Current,
    on: 0,
    back: 0,
};

/// The number that the digits in front write, 0 where there are none, if they aren't too many.
fn read_number(text: &[u8]) -> Option<(u64, &[u8])> {
    let count = text.iter().take_while(|byte| byte.is_ascii_digit()).count();
    let (digits, rest) = text.split_at_checked(count)?;
    if digits.len() > MOST_DIGITS {
        return None;
    }
    let number = digits.iter().fold(0, |number: u64, digit| {
        number
            .saturating_mul(10)
            .saturating_add(u64::from(digit.saturating_sub(b'0')))
    });
    Some((number, rest))
}

/// What stands behind the next such byte that has no backslash before it.
fn past(end: u8, text: &[u8]) -> Option<&[u8]> {
    let mut is_taken = false;
    let index = text.iter().position(|byte| {
        let is_free = !is_taken;
        is_taken = is_free && *byte == b'\\';
        is_free && *byte == end
    })?;
    text.get(index.saturating_add(1)..)
}

fn starts_address(text: &[u8]) -> bool {
    matches!(
        text.first(),
        Some(b'.' | b'$' | b'\'' | b'/' | b'?' | b'+' | b'-' | b'0'..=b'9')
    )
}

fn read_base(text: &[u8]) -> Option<(Base, &[u8])> {
    match text {
        [b'0'..=b'9', ..] => {
            let (number, rest) = read_number(text)?;
            Some((Base::Number(number), rest))
        }
        [b'.', rest @ ..] => Some((Base::Current, rest)),
        [b'$', rest @ ..] => Some((Base::Last, rest)),
        [b'\'', b'a'..=b'z', rest @ ..] => Some((Base::Sought, rest)),
        [end @ (b'/' | b'?'), rest @ ..] => Some((Base::Sought, past(*end, rest)?)),
        [b'+' | b'-', ..] => Some((Base::Current, text)),
        _ => None,
    }
}

/// How far one goes from an address: 1 where no number is said.
fn read_amount(text: &[u8]) -> Option<(u64, &[u8])> {
    match text {
        [b'0'..=b'9', ..] => read_number(text),
        _ => Some((1, text)),
    }
}

fn read_address(text: &[u8]) -> Option<(Address, &[u8])> {
    let (base, mut rest) = read_base(text)?;
    let mut on: u64 = 0;
    let mut back: u64 = 0;
    // Counted, since `while let` asks for a proof that `read_amount` leaves less: each turn takes a sign off, so the bytes are enough.
    for _ in 0..rest.len() {
        let [sign @ (b'+' | b'-'), behind @ ..] = rest else {
            break;
        };
        let (amount, behind) = read_amount(behind)?;
        if *sign == b'+' {
            on = on.saturating_add(amount);
        } else {
            back = back.saturating_add(amount);
        }
        rest = behind;
    }
    Some((Address { base, on, back }, rest))
}

fn address_or_here(text: &[u8]) -> Option<(Address, &[u8])> {
    if starts_address(text) {
        read_address(text)
    } else {
        Some((HERE, text))
    }
}

fn read_range(text: &[u8]) -> Option<(Option<Range>, &[u8])> {
    if let [b'%' | b',', rest @ ..] = text {
        return Some((Some(Range::All), rest));
    }
    if !starts_address(text) {
        return Some((None, text));
    }
    let (first, rest) = read_address(text)?;
    match rest {
        [b',', rest @ ..] => {
            let (second, rest) = address_or_here(rest)?;
            Some((Some(Range::Both(first, second)), rest))
        }
        [b';', rest @ ..] => {
            let (second, rest) = address_or_here(rest)?;
            Some((Some(Range::Then(first, second)), rest))
        }
        _ => Some((Some(Range::One(first)), rest)),
    }
}

fn read_given(text: &[u8]) -> Option<Given<'_>> {
    match text {
        [] => Some(None),
        [b'\n', lines @ ..] => Some(Some(lines)),
        _ => None,
    }
}

fn read_name(text: &[u8]) -> Option<&[u8]> {
    let name = text.strip_prefix(b" ")?;
    let is_right = 1 <= name.len() && name.len() <= MOST_NAME && !name.contains(&b'\n');
    is_right.then_some(name)
}

/// Moving and copying: an address or none, and nothing behind.
fn with_target(text: &[u8]) -> Option<Deed<'_>> {
    let (_, rest) = address_or_here(text)?;
    rest.is_empty().then_some(Deed::LaterForMany)
}

/// Which match is replaced: none is said, all, or one from the first to the 999th.
fn is_choice(text: &[u8]) -> bool {
    match text {
        [] | [b'g'] => true,
        _ => text.len() <= 3
            && read_number(text).is_some_and(|(number, rest)| rest.is_empty() && number >= 1),
    }
}

fn replacement(text: &[u8]) -> Option<Deed<'_>> {
    let rest = past(b'/', past(b'/', text)?)?;
    is_choice(rest).then_some(Deed::LaterForMany)
}

fn read_deed(text: &[u8]) -> Option<Deed<'_>> {
    match text {
        [] => Some(Deed::GoTo),
        [b'a', rest @ ..] => Some(Deed::Append(read_given(rest)?)),
        [b'i', rest @ ..] => Some(Deed::Insert(read_given(rest)?)),
        [b'c', rest @ ..] => Some(Deed::Change(read_given(rest)?)),
        [b'd'] => Some(Deed::Delete),
        [b'j'] => Some(Deed::Join),
        [b'm' | b't', rest @ ..] => with_target(rest),
        [b'k', b'a'..=b'z'] => Some(Deed::LaterForMany),
        [b'p'] => Some(Deed::Print),
        [b'n'] => Some(Deed::Number),
        [b'='] => Some(Deed::Place),
        [b'u' | b'U'] => Some(Deed::Later),
        [b'w', rest @ ..] => Some(Deed::Save(read_name(rest)?)),
        [b'e', rest @ ..] => Some(Deed::Edit(read_name(rest)?)),
        [b'r', rest @ ..] => read_name(rest).map(|_| Deed::Later),
        [b'f'] => Some(Deed::Files),
        [b's', b'/', rest @ ..] => replacement(rest),
        _ => None,
    }
}

/// A command for all lines that match, or don't.
fn global(range: Option<Range>, text: &[u8]) -> Option<Command<'_>> {
    let (_, rest) = read_range(past(b'/', text.strip_prefix(b"/")?)?)?;
    let deed = read_deed(rest)?;
    match deed {
        Deed::Save(_) | Deed::Edit(_) | Deed::Files | Deed::Later => None,
        _ => Some(Command {
            range,
            deed,
            is_global: true,
        }),
    }
}

/// What is typed, if it can be read to its end.
pub fn read(text: &[u8]) -> Option<Command<'_>> {
    if text.len() > MOST_BYTES {
        return None;
    }
    let (range, rest) = read_range(text)?;
    if let [b'g' | b'v', rest @ ..] = rest {
        return global(range, rest);
    }
    Some(Command {
        range,
        deed: read_deed(rest)?,
        is_global: false,
    })
}

impl Address {
    fn is_core(&self) -> bool {
        !matches!(self.base, Base::Sought)
    }
}

impl Range {
    fn is_core(&self) -> bool {
        match self {
            Range::All => true,
            Range::One(first) => first.is_core(),
            Range::Both(first, second) | Range::Then(first, second) => first.is_core()
                && second.is_core(),
        }
    }
}

impl Command<'_> {
    /// Whether it is one of those that the house knows first.
    pub fn is_core(&self) -> bool {
        self.range.is_none_or(|range| range.is_core())
            && !self.is_global
            && !matches!(self.deed, Deed::Later | Deed::LaterForMany)
    }
}
