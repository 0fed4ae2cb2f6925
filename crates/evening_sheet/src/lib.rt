// The evening sheet of a book that is known to be sound, into a lent buffer: the count of the used rows, the line of each, and two counts of 0. Nothing
// is written into a buffer that is too short: the sheet's length is found first, but only where the buffer is shorter than the longest.
#![tactic(auto)]

ghost use Rattle.std.specs.Prelude.{◌≡◌, true, ◌+◌, ◌≤◌, ◌<◌, leb, length};
ghost use Rattle.paper.specs.Row.{width};
ghost use Rattle.paper.specs.Book.{rows, row_at, is_zeros, is_sound};
ghost use Rattle.paper_sheets.specs.Sheet.{decimal, opening_form};
ghost use Rattle.paper_sheets.specs.Written.{written};
ghost use Rattle.paper_sheets.specs.Evening.{used_rows, evening_sheet};
ghost use Rattle.lines.specs.Writes.{Writes};
ghost use Rattle.lines.specs.Puts.{HoldsMore, Puts};
ghost use Rattle.evening_sheet.specs.Lines.{line_at, lines_below};
ghost use Rattle.evening_sheet.specs.Evenings.{Evened};

use lines::Text;
use row::{ROWS, Refusal, WIDTH};

// The bytes of the longest evening sheet of any book: a line of 3 with the count, 64 lines of 162, and two of 2 (`EveningFits`).
pub const EVENING: usize = 10375;

// Whether a row is free. Its instrument tells, since in a sound book a row that names none is all zeros.
fn is_free(book: &[u64], k: usize) -> bool
    requires sound { is_sound book.now ≡ true }
    requires row { k < rows }
    ensures { result ≡ is_zeros (row_at book.now k) }
{
    book[k * WIDTH] == 0
}

// How many rows are used.
fn used_rows(book: &[u64]) -> u64
    requires { is_sound book.now ≡ true }
    ensures { result ≡ length (used_rows book.now rows) }
{
    let mut count = 0;
    for k in 0..ROWS {
        if !is_free(book, k) {
            count += 1;
        }
    }
    count
}

// How many digits a number has.
fn digits_of(n: u64) -> usize
    ensures digits { result ≡ length (decimal n) }
    ensures few { result ≤ 20 }
{
    let mut digits = [0u8; 20];
    io::decimal(n, &mut digits)
}

// How many bytes the line of a row has: the digits of each word, and a space or LF after them.
fn row_length(row: &[u64]) -> usize
    requires { length row.now ≡ width }
    ensures { result ≡ length (written opening_form row.now) }
{
    row.iter().map(|word| digits_of(*word) + 1).sum()
}

// The same of a row by its number: none where it is free.
fn line_length(book: &[u64], k: usize) -> usize
    requires sound { is_sound book.now ≡ true }
    requires row { k < rows }
    ensures { result ≡ length (line_at book.now k) }
{
    if is_free(book, k) {
        return 0;
    }
    row_length(row::row_of(book, k))
}

// How many bytes the lines of the rows have.
fn lines_length(book: &[u64]) -> usize
    requires { is_sound book.now ≡ true }
    ensures { result ≡ length (lines_below book.now rows) }
{
    let mut bytes = 0;
    for k in 0..ROWS {
        bytes += line_length(book, k);
    }
    bytes
}

// How many bytes the sheet has: the count and LF, the lines, and two lines of 2.
fn sheet_length(book: &[u64]) -> usize
    requires { is_sound book.now ≡ true }
    ensures { result ≡ length (evening_sheet book.now) }
{
    digits_of(used_rows(book)) + lines_length(book) + 5
}

// Whether a buffer of so many bytes holds the sheet. One that holds the longest is not measured.
fn has_room(book: &[u64], bytes: usize) -> bool
    requires { is_sound book.now ≡ true }
    ensures { result ≡ leb (length (evening_sheet book.now)) bytes }
{
    if EVENING <= bytes {
        return true;
    }
    sheet_length(book) <= bytes
}

// Writes the line of a row; nothing where it is free.
fn put_used(book: &[u64], k: usize, text: &mut Text<'_>)
    requires sound { is_sound book.now ≡ true }
    requires row { k < rows }
    requires room { HoldsMore text.old (line_at book.now k) }
    ensures { Puts text.old text.new (line_at book.now k) }
{
    if is_free(book, k) {
        return;
    }
    let row = row::row_of(book, k);
    text.put_row(row[0], &row[1..]);
}

// Writes the lines of the used rows, in row order.
fn put_lines(book: &[u64], text: &mut Text<'_>)
    requires sound { is_sound book.now ≡ true }
    requires room { HoldsMore text.old (lines_below book.now rows) }
    ensures { Puts text.old text.new (lines_below book.now rows) }
{
    for k in 0..ROWS {
        put_used(book, k, text);
    }
}

// Writes the sheet from the start of the buffer on: the openings, no days and no corridors.
fn put_sheet(book: &[u64], out: &mut [u8]) -> usize
    requires sound { is_sound book.now ≡ true }
    requires room { length (evening_sheet book.now) ≤ length out.old }
    ensures { Writes out.old out.new 0 result (evening_sheet book.now) }
{
    let mut text = Text { out, at: 0 };
    text.put_row(used_rows(book), &[]);
    put_lines(book, &mut text);
    text.put_row(0, &[]);
    text.put_row(0, &[]);
    text.at
}

// Writes the evening sheet into a buffer of any length, from its start on, and answers how many bytes are written. A buffer that is too short is
// refused and stays as it was.
pub fn write_evening(book: &[u64], out: &mut [u8]) -> Result<usize, Refusal>
    requires { is_sound book.now ≡ true }
    ensures { Evened book.now out.old out.new result }
{
    if !has_room(book, out.len()) {
        return Err(Refusal::Room);
    }
    Ok(put_sheet(book, out))
}
