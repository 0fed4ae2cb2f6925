// What a day, given or asked about, and a corridor make of the one row of their instrument, lent on. The row is there and in range, and so are the
// values; that is the caller's to show.
#![tactic(auto)]

ghost use Rattle.std.specs.Prelude.{◌≡◌, true, ◌≤◌, ◌<◌, length};
ghost use Rattle.paper.specs.Row.{last_day, word, parameters_of, row_in_range, width};
ghost use Rattle.paper.specs.Rates.{day_in_range, state_of, figures_on, day_on};
ghost use Rattle.paper.specs.Corridor.{terms_in_range};
ghost use Rattle.paper.specs.Bond.{bond_in_range};
ghost use Rattle.paper.specs.Calls.{day_row};
ghost use Rattle.preliminary.specs.Moves.{paper_move};
ghost use Rattle.figures.specs.Answers.{paper_state, paper_figures, day_answer_of};
ghost use Rattle.stores.specs.Stored.{paper_day};
ghost use Rattle.corridor.specs.Edges.{paper_terms, paper_bond, paper_ticks};
ghost use Rattle.reasons.specs.Answers.{why_answer_of};
ghost use Rattle.instrument.specs.Answers.{corridor_answer_of, MovesBy, MovedFor, day_answer_for, why_answer_for, ticks_answer_for, bond_in};

use corridor::{Bond, Prices, Terms};
use figures::{Figures, State};
use preliminary::{GREATEST_MOVE, Move};
use reasons::Reasons;
use row::{
    ALPHA, INSTRUMENT, LAST_CHANGE, LAST_DAY, MARGIN, MONITORED, NEWER, OLDER, PRELIMINARY,
    Refusal, VARIANCE,
};
use stores::Day;

// The most non-trading days ahead, and the most holidays behind.
const MOST_HOLIDAYS: u64 = 30;

// Whether a day's five values are in range: the instrument's, the last day's and the newer price's ranges of a row, and 0 to 30 for m and j.
#[tactic(auto, unfolding(paper::specs::Rates::day_in_range, paper::specs::Row::are_in, paper::specs::Row::is_in))]
pub fn day_in_range(d: Day) -> bool
    ensures { result ≡ day_in_range (paper_day d) }
{
    row::word_in_range(INSTRUMENT, d.instrument)
        && row::word_in_range(LAST_DAY, d.day)
        && row::word_in_range(NEWER, d.price)
        && d.m <= MOST_HOLIDAYS
        && d.j <= MOST_HOLIDAYS
}

// What the day's rules read of a row beside its parameters and its prices.
#[tactic(auto, unfolding(paper::specs::Rates::state_of))]
fn state_of(row: &[u64]) -> State
    requires { length row.now ≡ width }
    ensures { paper_state result ≡ state_of row.now }
{
    State {
        variance: row[VARIANCE],
        preliminary: row[PRELIMINARY],
        margin: row[MARGIN],
        last_change: row[LAST_CHANGE],
    }
}

// The tests of a day on its row, given or asked about: whether it is stale, and whether it moved too far. For the first one word is read, for the
// second two more.
#[tactic(auto, using(paper::proofs::Row::row_words), unfolding(paper::specs::Rates::day_on, paper::specs::Rates::move_on, paper::specs::Rates::day_in_range, paper::specs::Row::are_in, paper::specs::Row::is_in))]
pub fn day_move(row: &[u64], d: Day) -> Result<Move, Refusal>
    requires kept { row_in_range row.now ≡ true }
    requires given { day_in_range (paper_day d) ≡ true }
    ensures { MovedFor row.now (paper_day d) result }
{
    if d.day <= row[LAST_DAY] {
        return Err(Refusal::Stale);
    }
    let moved = preliminary::move_on(row[NEWER], row[OLDER], d.price);
    if GREATEST_MOVE < moved.size {
        return Err(Refusal::Move);
    }
    Ok(moved)
}

// The figures of a day that its row takes, given or asked about, by its move. The day comes as its numbers, and the row is lent on as `&row[..]`, so
// that the compiled function has them in registers: a struct, and a slice that is handed on as it came, would stand in its caller's memory.
#[tactic(auto, using(paper::proofs::Row::row_words, paper::proofs::Row::row_parameters, paper::proofs::Row::row_change), unfolding(paper::specs::Row::parameters_of, paper::specs::Rates::state_of))]
fn work_day(row: &[u64], today: u64, m: u64, j: u64, moved: Move) -> Figures
    requires kept { row_in_range row.now ≡ true }
    requires later { word row.now last_day < today }
    requires given { (m ≤ 30) × (moved.size ≤ 1000000) }
    ensures { paper_figures result ≡ figures_on (parameters_of row.now) (state_of row.now) today m j (paper_move moved) }
{
    let params = row::parameters_of(&row[ALPHA..VARIANCE]);
    figures::figures_on(params, state_of(&row[..]), today, m, j, moved)
}

// Gives an instrument a day that its row takes, by its move: its figures, kept in the row.
#[tactic(auto, using(paper::proofs::Row::row_long, crate::proofs::Taken::asked, crate::proofs::Taken::taken))]
pub fn give_day(row: &mut [u64], d: Day, moved: Move) -> Result<Figures, Refusal>
    requires kept { row_in_range row.old ≡ true }
    requires given { day_in_range (paper_day d) ≡ true }
    requires taken { MovesBy row.old (paper_day d) moved }
    ensures answers { day_answer_of result ≡ day_answer_for (day_on row.old (paper_day d)) }
    ensures leaves { row.new ≡ day_row row.old (day_on row.old (paper_day d)) }
{
    let figures = work_day(row, d.day, d.m, d.j, moved);
    stores::keep_day(row, figures, d);
    Ok(figures)
}

// What such a day would answer, with its reasons. The row is only read.
#[tactic(auto, using(crate::proofs::Taken::asked))]
pub fn explain_day(row: &[u64], d: Day, moved: Move) -> Result<(Figures, Reasons), Refusal>
    requires kept { row_in_range row.now ≡ true }
    requires given { day_in_range (paper_day d) ≡ true }
    requires taken { MovesBy row.now (paper_day d) moved }
    ensures { why_answer_of result ≡ why_answer_for row.now (paper_day d) (day_on row.now (paper_day d)) }
{
    let figures = work_day(row, d.day, d.m, d.j, moved);
    let reasons = reasons::reasons_of(row, d.j, moved.size, figures);
    Ok((figures, reasons))
}

// An instrument's corridor as that of a bond, of the newer price, the published margin and M that its row keeps.
#[tactic(auto, using(paper::proofs::Row::row_words))]
pub fn corridor_of(row: &[u64], t: Terms, b: Bond) -> Result<Prices, Refusal>
    requires kept { row_in_range row.now ≡ true }
    requires given { (terms_in_range (paper_terms t) ≡ true) × (bond_in_range (paper_bond b) ≡ true) }
    ensures { corridor_answer_of result ≡ ticks_answer_for (bond_in row.now (paper_terms t) (paper_bond b)) }
{
    corridor::corridor_on(row[NEWER], row[MARGIN], row[MONITORED], t, b).ok_or(Refusal::Empty)
}
