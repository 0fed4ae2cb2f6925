// Texts read by their forms, from a place on: numbers, lines and sections. The place only grows: the byte at it may be looked at more than once, none
// before it again. In a form n is a number, and - the place for a minus sign.
#![tactic(auto)]

ghost use Rattle.std.specs.Prelude.{◌≡◌, [], ◌∷◌, ◌+◌, ◌*◌, ◌≤◌, ◌<◌, length, take, drop, IfOk};
ghost use Rattle.paper_sheets.specs.Sheet.{number, space, sign, starts_with, read_line, read_rows, Section, read_section, keeps};
ghost use Rattle.forms.specs.Reads.{item_of_kind, item_of, form_of, value_count, kept as kept_by, ReadsDigits, ReadsItem, ReadsLine, ReadsLines};

// The value of digits, and how many they are.
#[derive(Clone, Copy)]
pub struct Digits {
    pub value: u64,
    pub count: usize,
}

// What a text starts with: the number that is kept of it, if any, and how many bytes it has. Where nothing of the form starts a text, a count of first
// bytes with no LF among them is answered in its stead.
#[derive(Clone, Copy)]
pub struct Found {
    pub value: Option<u64>,
    pub length: usize,
}

// Where reading stands between lines: the number of the line that comes next, where it starts, and how many numbers are kept.
#[derive(Clone, Copy)]
pub struct Place {
    pub line: u64,
    pub at: usize,
    pub kept: usize,
}

// A bad line: its number, where it starts, and a place in it up to which there is no LF.
#[derive(Clone, Copy)]
pub struct Bad {
    pub line: u64,
    pub start: usize,
    pub at: usize,
}

impl Place {
    // The line that starts here, bad at a place in it.
    fn bad(self, at: usize) -> Bad
        ensures { result ≡ record { line = self.line; start = self.at; at = at } }
    {
        Bad {
            line: self.line,
            start: self.at,
            at,
        }
    }
}

// What stands in a line before its LF.
#[derive(Clone, Copy)]
enum Kind {
    Number,
    Space,
    Sign,
}

impl From<u8> for Kind {
    ghost from_gives = { λ byte kind. item_of_kind kind ≡ item_of byte };

    fn from(byte: u8) -> Kind {
        match byte {
            b'n' => Kind::Number,
            b'-' => Kind::Sign,
            _ => Kind::Space,
        }
    }
}

// The most digits that are read of a number: one more than it may have. They fit a word.
const MOST_READ: usize = 19;

// Reads the digits that a text starts with.
fn read_digits(text: &[u8]) -> Digits
    ensures { ReadsDigits text.now result }
{
    let mut value = 0;
    for (count, byte) in text.iter().enumerate() {
        if !byte.is_ascii_digit() || count == MOST_READ {
            return Digits { value, count };
        }
        value = value * 10 + u64::from(*byte - b'0');
    }
    Digits {
        value,
        count: text.len(),
    }
}

// Whether a text starts with a byte.
fn stands(text: &[u8], byte: u8) -> bool
    ensures { result ≡ starts_with byte text.now }
{
    text.first() == Some(&byte)
}

// Reads a number: 1 to 18 digits, no leading zero but 0 itself.
fn read_number(text: &[u8]) -> Result<Found, usize>
    ensures { ReadsItem text.now number result }
{
    let Digits { value, count } = read_digits(text);
    if count == 0 || count == MOST_READ {
        return Err(count);
    }
    if count != 1 && stands(text, b'0') {
        return Err(count);
    }
    Ok(Found {
        value: Some(value),
        length: count,
    })
}

// Reads a space.
fn read_space(text: &[u8]) -> Result<Found, usize>
    ensures { ReadsItem text.now space result }
{
    if !stands(text, b' ') {
        return Err(0);
    }
    Ok(Found {
        value: None,
        length: 1,
    })
}

// Reads the place for a sign: 1 where a minus stands there, which never stands before 0, else 0.
fn read_sign(text: &[u8]) -> Result<Found, usize>
    ensures { ReadsItem text.now sign result }
{
    if !stands(text, b'-') {
        return Ok(Found {
            value: Some(0),
            length: 0,
        });
    }
    if stands(&text[1..], b'0') {
        return Err(0);
    }
    Ok(Found {
        value: Some(1),
        length: 1,
    })
}

// Reads an item of a line's form.
fn read_item(text: &[u8], kind: Kind) -> Result<Found, usize>
    ensures { ReadsItem text.now (item_of_kind kind) result }
{
    match kind {
        Kind::Number => read_number(text),
        Kind::Space => read_space(text),
        Kind::Sign => read_sign(text),
    }
}

// Keeps a number, if there is one, and answers how many are kept then.
fn keep(numbers: &mut [u64], kept: usize, value: Option<u64>) -> usize
    requires { kept + value_count value ≤ length numbers.old }
    ensures keeps { result ≡ kept + value_count value }
    ensures holds { take result numbers.new ≡ kept_by (take kept numbers.old) value }
{
    match value {
        Some(value) => {
            numbers[kept] = value;
            kept + 1
        }
        None => kept,
    }
}

// Reads a line of a form, ended by LF.
fn read_line(text: &[u8], from: Place, form: &[u8], numbers: &mut [u64]) -> Result<Place, Bad>
    requires text { from.at ≤ length text.now }
    requires room { from.kept + keeps (form_of form.now) ≤ length numbers.old }
    requires short { from.line < u64.MAX }
    ensures reads { ReadsLine text.now numbers.new from (read_line (form_of form.now) (take from.kept numbers.old) (drop from.at text.now)) result }
    ensures keeps { IfOk result (λ p. (p.kept ≡ from.kept + keeps (form_of form.now)) × (p.line ≡ from.line + 1)) }
{
    let mut at = from.at;
    let mut kept = from.kept;
    for byte in form {
        let rest = &text[at..];
        let found = read_item(rest, Kind::from(*byte)).map_err(|length| from.bad(at + length))?;
        at += found.length;
        kept = keep(numbers, kept, found.value);
    }
    if !stands(&text[at..], b'\n') {
        return Err(from.bad(at));
    }
    Ok(Place {
        line: from.line + 1,
        at: at + 1,
        kept,
    })
}

// Reads so many rows of a form, each a line.
fn read_rows(
    text: &[u8],
    from: Place,
    form: &[u8],
    count: u64,
    numbers: &mut [u64],
) -> Result<Place, Bad>
    requires text { from.at ≤ length text.now }
    requires room { from.kept + count * keeps (form_of form.now) ≤ length numbers.old }
    requires short { from.line + count < u64.MAX }
    ensures reads { ReadsLines text.now numbers.new (read_rows (form_of form.now) count from.line (take from.kept numbers.old) (drop from.at text.now)) result }
    ensures keeps { IfOk result (λ p. (p.kept ≡ from.kept + count * keeps (form_of form.now)) × (p.line ≡ from.line + count)) }
{
    let mut place = from;
    for _ in 0..count {
        place = read_line(text, place, form, numbers)?;
    }
    Ok(place)
}

// Reads a section: a line with its count, which is kept too, then as many rows of its form.
pub fn read_section(
    text: &[u8],
    from: Place,
    form: &[u8],
    most: u64,
    numbers: &mut [u64],
) -> Result<Place, Bad>
    requires text { from.at ≤ length text.now }
    requires room { from.kept + 1 + most * keeps (form_of form.now) ≤ length numbers.old }
    requires short { from.line + 1 + most < u64.MAX }
    ensures reads { (s : Section) → s.most ≡ most → s.form ≡ form_of form.now → ReadsLines text.now numbers.new (read_section s from.line (take from.kept numbers.old) (drop from.at text.now)) result }
    ensures keeps { IfOk result (λ p. (p.kept ≤ from.kept + 1 + most * keeps (form_of form.now)) × (p.line ≤ from.line + 1 + most)) }
{
    let first = read_line(text, from, b"n", numbers)?;
    let count = numbers[from.kept];
    if most < count {
        return Err(from.bad(first.at - 1));
    }
    read_rows(text, first, form, count, numbers)
}
