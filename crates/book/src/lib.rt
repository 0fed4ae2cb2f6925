// The eight calls on a lent book that is known to be sound, with any values: each tests the ranges of its values, searches the book, and lends the one
// row on to `instrument`, but a halted one for no day, given or asked about, and no corridor. A call asks of its callers only a sound book, which is
// shown by proof where it is called.
#![tactic(auto)]

ghost use Rattle.std.specs.Prelude.{◌≡◌, true, length};
ghost use Rattle.paper.specs.Row.{instruments, width, is_in, is_halted};
ghost use Rattle.paper.specs.Book.{size, is_sound};
ghost use Rattle.paper.specs.Calls.{opening, closing, parameters, halt, day, why, corridor, bond, Kept};
ghost use Rattle.paper.specs.Bond.{bond_in_range};
ghost use Rattle.figures.specs.Answers.{day_answer_of};
ghost use Rattle.corridor.specs.Edges.{paper_terms, paper_bond};
ghost use Rattle.reasons.specs.Answers.{why_answer_of};
ghost use Rattle.row.specs.Answers.{call_answer_of};
ghost use Rattle.stores.specs.Stored.{paper_day};
ghost use Rattle.instrument.specs.Answers.{corridor_answer_of};
ghost use Rattle.book.specs.Places.{RowFor, PlaceFor};

use corridor::{Bond, Prices, Terms, WHOLE};
use figures::Figures;
use preliminary::Move;
use reasons::Reasons;
use row::{HALTED, INSTRUMENT, PARAMETERS, Refusal, WIDTH};
use stores::Day;

// Whether a number is one that an instrument can have: the range of a row's first word.
fn is_instrument(number: u64) -> bool
    ensures { result ≡ is_in instruments number }
{
    row::word_in_range(INSTRUMENT, number)
}

// The number of the row that an instrument has.
fn row_number(book: &[u64], instrument: u64) -> Result<usize, Refusal>
    requires { length book.now ≡ size }
    ensures { RowFor book.now instrument result }
{
    soundness::place_of(book, instrument).ok_or(Refusal::Unknown)
}

// Whether a row says that its instrument is halted.
fn is_halted(row: &[u64]) -> bool
    requires { length row.now ≡ width }
    ensures { result ≡ is_halted row.now }
{
    row[HALTED] == 1
}

// Opens an instrument with the values of a row, whatever they are, into the lowest free row: the first whose instrument is 0.
pub fn open(book: &mut [u64], row: &[u64]) -> Result<(), Refusal>
    requires { is_sound book.old ≡ true }
    ensures kept { Kept book.old (opening row.now) (call_answer_of result) book.new }
    ensures sound { is_sound book.new ≡ true }
{
    if !row::row_in_range(row) {
        return Err(Refusal::Range);
    }
    if soundness::place_of(book, row[INSTRUMENT]).is_some() {
        return Err(Refusal::Known);
    }
    let Some(k) = soundness::place_of(book, 0) else {
        return Err(Refusal::Full);
    };
    let at = k * WIDTH;
    stores::open(&mut book[at..at + WIDTH], row);
    Ok(())
}

// Closes an instrument, whatever its number.
pub fn close(book: &mut [u64], instrument: u64) -> Result<(), Refusal>
    requires { is_sound book.old ≡ true }
    ensures kept { Kept book.old (closing instrument) (call_answer_of result) book.new }
    ensures sound { is_sound book.new ≡ true }
{
    if !is_instrument(instrument) {
        return Err(Refusal::Range);
    }
    let k = row_number(book, instrument)?;
    let at = k * WIDTH;
    stores::close(&mut book[at..at + WIDTH]);
    Ok(())
}

// Gives an instrument new parameters, whatever its number and the parameters.
pub fn set_parameters(
    book: &mut [u64],
    instrument: u64,
    params: [u64; PARAMETERS],
) -> Result<(), Refusal>
    requires { is_sound book.old ≡ true }
    ensures kept { Kept book.old (parameters instrument params) (call_answer_of result) book.new }
    ensures sound { is_sound book.new ≡ true }
{
    if !is_instrument(instrument) {
        return Err(Refusal::Range);
    }
    if !row::parameters_in_range(params) {
        return Err(Refusal::Range);
    }
    let k = row_number(book, instrument)?;
    let at = k * WIDTH;
    stores::set_parameters(&mut book[at..at + WIDTH], params)
}

// Halts an instrument, or ends its halt, whatever its number and the value.
pub fn set_halt(book: &mut [u64], instrument: u64, value: u64) -> Result<(), Refusal>
    requires { is_sound book.old ≡ true }
    ensures kept { Kept book.old (halt instrument value) (call_answer_of result) book.new }
    ensures sound { is_sound book.new ≡ true }
{
    if !is_instrument(instrument) {
        return Err(Refusal::Range);
    }
    if !row::word_in_range(HALTED, value) {
        return Err(Refusal::Range);
    }
    let k = row_number(book, instrument)?;
    let at = k * WIDTH;
    stores::set_halt(&mut book[at..at + WIDTH], value);
    Ok(())
}

// The place of the row that a day is for, and its move there, given or asked about, whatever its values. Every test of a day is made here, which leaves
// `give_day` and `explain_day` short enough to be compiled into what calls them: a day then holds one frame less. The book is lent on as `&book[..]`,
// since a slice that is handed on as it came would stand in the caller's memory.
fn day_place(book: &[u64], d: Day) -> Result<(usize, Move), Refusal>
    requires { is_sound book.now ≡ true }
    ensures { PlaceFor book.now (paper_day d) result }
{
    if !instrument::day_in_range(d) {
        return Err(Refusal::Range);
    }
    let k = row_number(&book[..], d.instrument)?;
    let row = row::row_of(&book[..], k);
    if is_halted(row) {
        return Err(Refusal::Halted);
    }
    let moved = instrument::day_move(row, d)?;
    Ok((k, moved))
}

// Gives an instrument a day.
#[inline(always)]
pub fn give_day(book: &mut [u64], d: Day) -> Result<Figures, Refusal>
    requires { is_sound book.old ≡ true }
    ensures kept { Kept book.old (day (paper_day d)) (day_answer_of result) book.new }
    ensures sound { is_sound book.new ≡ true }
{
    let (k, moved) = day_place(book, d)?;
    let at = k * WIDTH;
    instrument::give_day(&mut book[at..at + WIDTH], d, moved)
}

// What a day would answer, with its reasons. The book is only read.
pub fn explain_day(book: &[u64], d: Day) -> Result<(Figures, Reasons), Refusal>
    requires { is_sound book.now ≡ true }
    ensures { Kept book.now (why (paper_day d)) (why_answer_of result) book.now }
{
    let (number, moved) = day_place(book, d)?;
    instrument::explain_day(row::row_of(book, number), d, moved)
}

// The corridor of an instrument as that of a bond whose values are in range, whatever its number and the terms. The book is only read.
fn corridor_as(book: &[u64], instrument: u64, t: Terms, b: Bond) -> Result<Prices, Refusal>
    requires sound { is_sound book.now ≡ true }
    requires given { bond_in_range (paper_bond b) ≡ true }
    ensures { Kept book.now (bond instrument (paper_terms t) (paper_bond b)) (corridor_answer_of result) book.now }
{
    if !is_instrument(instrument) {
        return Err(Refusal::Range);
    }
    if !corridor::terms_in_range(t) {
        return Err(Refusal::Range);
    }
    let k = row_number(book, instrument)?;
    let row = row::row_of(book, k);
    if is_halted(row) {
        return Err(Refusal::Halted);
    }
    instrument::corridor_of(row, t, b)
}

// The corridor of a share: that of a bond with a face value of a whole, from which nothing is taken.
pub fn corridor_of(book: &[u64], instrument: u64, t: Terms) -> Result<Prices, Refusal>
    requires { is_sound book.now ≡ true }
    ensures kept { Kept book.now (corridor instrument (paper_terms t)) (corridor_answer_of result) book.now }
{
    let share = Bond {
        face: WHOLE,
        carry: 0,
        accrued: 0,
    };
    corridor_as(book, instrument, t, share)
}

// The corridor of a bond, whatever its values.
pub fn bond_corridor_of(book: &[u64], instrument: u64, t: Terms, b: Bond) -> Result<Prices, Refusal>
    requires { is_sound book.now ≡ true }
    ensures kept { Kept book.now (bond instrument (paper_terms t) (paper_bond b)) (corridor_answer_of result) book.now }
{
    if !corridor::bond_in_range(b) {
        return Err(Refusal::Range);
    }
    corridor_as(book, instrument, t, b)
}
