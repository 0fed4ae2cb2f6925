// What anyone may call on a book: the eight calls on a lent book of any length and content, with any values. Each ends with a result or with one
// numbered refusal, checked in the order of the table of refusals; a refused call leaves every word of the book as it was. Nothing is asked of a
// caller. What is tested here is only whether the book is sound, since that is all that `book` asks.
#![tactic(auto)]

ghost use Rattle.paper.specs.Calls.{opening, closing, parameters, halt, day, why, corridor, bond, Kept};
ghost use Rattle.row.specs.Answers.{call_answer_of};
ghost use Rattle.figures.specs.Answers.{day_answer_of};
ghost use Rattle.stores.specs.Stored.{paper_day};
ghost use Rattle.reasons.specs.Answers.{why_answer_of};
ghost use Rattle.corridor.specs.Edges.{paper_terms, paper_bond};
ghost use Rattle.instrument.specs.Answers.{corridor_answer_of};

use corridor::{Bond, Prices, Terms};
use figures::Figures;
use reasons::Reasons;
use row::{PARAMETERS, Refusal};
use stores::Day;

// Opens an instrument with the values of a row, into the lowest free row.
pub fn open(book: &mut [u64], row: &[u64]) -> Result<(), Refusal>
    ensures { Kept book.old (opening row.now) (call_answer_of result) book.new }
{
    soundness::test(book)?;
    book::open(book, row)
}

// Closes an instrument: its row becomes zeros.
pub fn close(book: &mut [u64], instrument: u64) -> Result<(), Refusal>
    ensures { Kept book.old (closing instrument) (call_answer_of result) book.new }
{
    soundness::test(book)?;
    book::close(book, instrument)
}

// Gives an instrument new parameters, the thirteen from alpha to M.
pub fn set_parameters(
    book: &mut [u64],
    instrument: u64,
    params: [u64; PARAMETERS],
) -> Result<(), Refusal>
    ensures { Kept book.old (parameters instrument params) (call_answer_of result) book.new }
{
    soundness::test(book)?;
    book::set_parameters(book, instrument, params)
}

// Halts an instrument, by 1, or ends its halt, by 0.
pub fn set_halt(book: &mut [u64], instrument: u64, value: u64) -> Result<(), Refusal>
    ensures { Kept book.old (halt instrument value) (call_answer_of result) book.new }
{
    soundness::test(book)?;
    book::set_halt(book, instrument, value)
}

// Gives an instrument a day.
pub fn give_day(book: &mut [u64], d: Day) -> Result<Figures, Refusal>
    ensures { Kept book.old (day (paper_day d)) (day_answer_of result) book.new }
{
    soundness::test(book)?;
    book::give_day(book, d)
}

// Why a day would have its figures: the refusal that it would give, or its figures with the reasons. The book is only read.
pub fn explain_day(book: &[u64], d: Day) -> Result<(Figures, Reasons), Refusal>
    ensures { Kept book.now (why (paper_day d)) (why_answer_of result) book.now }
{
    soundness::test(book)?;
    book::explain_day(book, d)
}

// The price corridor of an instrument, as a share. The book is only read.
pub fn corridor_of(book: &[u64], instrument: u64, t: Terms) -> Result<Prices, Refusal>
    ensures { Kept book.now (corridor instrument (paper_terms t)) (corridor_answer_of result) book.now }
{
    soundness::test(book)?;
    book::corridor_of(book, instrument, t)
}

// The price corridor of an instrument as a bond, in ten-thousandths of a percent point of its face value. The book is only read.
pub fn bond_corridor_of(book: &[u64], instrument: u64, t: Terms, b: Bond) -> Result<Prices, Refusal>
    ensures { Kept book.now (bond instrument (paper_terms t) (paper_bond b)) (corridor_answer_of result) book.now }
{
    soundness::test(book)?;
    book::bond_corridor_of(book, instrument, t, b)
}
