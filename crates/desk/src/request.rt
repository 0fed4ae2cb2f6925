// What a line of a desk asks for, read from its bytes.
ghost use Rattle.std.specs.Prelude.{◌≤◌, ◌≤ℤ◌, pos, IfSome};

use crate::ROOM;
use corridor::{Bond, Terms};
use row::{PARAMETERS, ROWS, WIDTH, WORDS};
use stores::Day;

// The greatest size of a repo rate, of eighteen digits. It fits a signed word either way.
const GREATEST_RATE: u64 = 999999999999999999;

pub const LAST_ROW: usize = ROWS - 1;

pub const LAST_WORD: usize = WORDS - 1;

// A number of a line that is at most another: a row, a place or a length that the book has, or a number of bytes that there is room for.
#[derive(Clone, Copy)]
pub struct UpTo<const MOST: usize> {
    pub value: usize,
    pub ghost fits: { value ≤ MOST },
}

// The eight calls of `station`, each with what it is given.
#[derive(Clone, Copy)]
pub enum Call {
    Open([u64; WIDTH]),
    Close(u64),
    SetParameters(u64, [u64; PARAMETERS]),
    SetHalt(u64, u64),
    GiveDay(Day),
    ExplainDay(Day),
    Corridor(u64, Terms),
    BondCorridor(u64, Terms, Bond),
}

// What a line asks for.
#[derive(Clone, Copy)]
pub enum Request {
    Make(Call),
    ShowRow(UpTo<LAST_ROW>),
    NewBook,
    RunSheet(UpTo<ROOM>),
    WriteEvening(UpTo<ROOM>),
    WriteWord(UpTo<LAST_WORD>, u64),
    SetLength(UpTo<WORDS>),
}

// The number that digits are, if they are any, and nothing else, and it fits a word.
fn number_of(digits: &[u8]) -> Option<u64> {
    if digits.is_empty() {
        return None;
    }
    let mut value = 0u64;
    for byte in digits {
        let digit = char::from(*byte).to_digit(10)?;
        value = value.checked_mul(10)?.checked_add(u64::from(digit))?;
    }
    Some(value)
}

// The size of a repo rate.
fn size_of(digits: &[u8]) -> Option<i64>
    ensures { IfSome result (λ size. pos 0 ≤ℤ size) }
{
    let size = number_of(digits)?;
    if GREATEST_RATE < size {
        return None;
    }
    Some(size as i64)
}

// What is left of a line after its letter: numbers, with a space before each.
#[derive(Drop)]
struct Fields<'a> {
    text: &'a [u8],
}

impl<'a> Fields<'a> {
    // The bytes after a space, up to the next or the end.
    fn next(&mut self) -> Option<&'a [u8]> {
        let text = self.text.strip_prefix(b" ")?;
        let end = text
            .iter()
            .position(|byte| *byte == b' ')
            .unwrap_or(text.len());
        let (field, rest) = text.split_at(end);
        self.text = rest;
        Some(field)
    }

    fn number(&mut self) -> Option<u64> {
        number_of(self.next()?)
    }

    fn numbers<const N: usize>(&mut self) -> Option<[u64; N]> {
        let mut numbers = [0; N];
        for number in &mut numbers {
            *number = self.number()?;
        }
        Some(numbers)
    }

    fn up_to<const MOST: usize>(&mut self) -> Option<UpTo<MOST>> {
        let value = self.number()? as usize;
        if MOST < value {
            return None;
        }
        Some(UpTo { value })
    }

    // A repo rate, which alone may have a minus sign.
    fn rate(&mut self) -> Option<i64> {
        match self.next()? {
            [b'-', digits @ ..] => Some(-size_of(digits)?),
            digits => size_of(digits),
        }
    }

    fn day(&mut self) -> Option<Day> {
        Some(Day {
            instrument: self.number()?,
            day: self.number()?,
            price: self.number()?,
            m: self.number()?,
            j: self.number()?,
        })
    }

    fn terms(&mut self) -> Option<Terms> {
        Some(Terms {
            k: self.number()?,
            lower: self.rate()?,
            upper: self.rate()?,
            shift: self.number()?,
            x: self.number()?,
            rise: self.number()?,
            fall: self.number()?,
            tick: self.number()?,
        })
    }

    fn bond(&mut self) -> Option<Bond> {
        Some(Bond {
            face: self.number()?,
            carry: self.number()?,
            accrued: self.number()?,
        })
    }
}

// The call of a line, of its letter and of what is left of it.
fn call_of(letter: u8, fields: &mut Fields<'_>) -> Option<Call> {
    Some(match letter {
        b'O' => Call::Open(fields.numbers()?),
        b'X' => Call::Close(fields.number()?),
        b'P' => Call::SetParameters(fields.number()?, fields.numbers()?),
        b'H' => Call::SetHalt(fields.number()?, fields.number()?),
        b'D' => Call::GiveDay(fields.day()?),
        b'Y' => Call::ExplainDay(fields.day()?),
        b'C' => Call::Corridor(fields.number()?, fields.terms()?),
        b'B' => Call::BondCorridor(fields.number()?, fields.terms()?, fields.bond()?),
        _ => return None,
    })
}

// What a line asks for, if it has one of the forms.
pub(crate) fn request_of(line: &[u8]) -> Option<Request> {
    let (letter, text) = line.split_first()?;
    let mut fields = Fields { text };
    let request = match letter {
        b'R' => Request::ShowRow(fields.up_to()?),
        b'Z' => Request::NewBook,
        b'S' => Request::RunSheet(fields.up_to()?),
        b'E' => Request::WriteEvening(fields.up_to()?),
        b'W' => Request::WriteWord(fields.up_to()?, fields.number()?),
        b'N' => Request::SetLength(fields.up_to()?),
        _ => Request::Make(call_of(*letter, &mut fields)?),
    };
    fields.text.is_empty().then_some(request)
}
