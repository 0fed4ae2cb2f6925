// What an accepted call stores in the one row of its instrument, lent on: the words of an opening, the zeros of a closing, new parameters, a halt, and
// the eight words that a day changes. The row is there, and the values are in range; that is the caller's to show.
#![tactic(auto)]

ghost use Rattle.std.specs.Prelude.{◌≡◌, true, [], ◌∷◌, ◌≤◌, length, replicate};
ghost use Rattle.std.proofs.lemmas.List.Edits.{sets};
ghost use Rattle.paper.specs.Row.{alpha, halted, parameters_in_range, width};
ghost use Rattle.paper.specs.Rates.{next_row};
ghost use Rattle.row.specs.Answers.{call_answer_of};
ghost use Rattle.figures.specs.Answers.{paper_figures};
ghost use Rattle.stores.specs.Stored.{paper_day, parameters_answer, parameters_row};

use figures::Figures;
use row::{
    ALPHA, CONCENTRATION, HALTED, LAST_CHANGE, LAST_DAY, MARGIN, NEWER, OLDER, PARAMETERS,
    PRELIMINARY, Refusal, VARIANCE, WIDTH, parameter,
};

// What a day brings.
#[derive(Clone, Copy)]
pub struct Day {
    pub instrument: u64,
    pub day: u64,
    pub price: u64,
    pub m: u64,
    pub j: u64,
}

// Opens an instrument: the row takes its words, one by one, since a copy of them all would call the C library.
pub fn open(row: &mut [u64], words: &[u64])
    requires { (length row.old ≡ width) × (length words.now ≡ width) }
    ensures { row.new ≡ words.now }
{
    for i in 0..WIDTH {
        row[i] = words[i];
    }
}

// Closes an instrument: its row becomes zeros.
pub fn close(row: &mut [u64])
    requires { length row.old ≡ width }
    ensures { row.new ≡ replicate width 0 }
{
    row.fill(0);
}

// Writes the thirteen parameters over those of a row.
fn write_parameters(row: &mut [u64], params: [u64; PARAMETERS])
    requires { length row.old ≡ width }
    ensures { row.new ≡ sets row.old alpha params }
{
    for i in 0..PARAMETERS {
        row[i + ALPHA] = params[i];
    }
}

// Gives an instrument new parameters, where their h divides the preliminary that its row keeps.
pub fn set_parameters(row: &mut [u64], params: [u64; PARAMETERS]) -> Result<(), Refusal>
    requires row { length row.old ≡ width }
    requires given { parameters_in_range params ≡ true }
    ensures answers { call_answer_of result ≡ parameters_answer row.old params }
    ensures leaves { row.new ≡ parameters_row row.old params }
{
    if row[PRELIMINARY] % params[parameter::STEP] != 0 {
        return Err(Refusal::Step);
    }
    write_parameters(row, params);
    Ok(())
}

// Halts an instrument, or ends its halt.
pub fn set_halt(row: &mut [u64], halt: u64)
    requires { length row.old ≡ width }
    ensures { row.new ≡ sets row.old halted (halt ∷ []) }
{
    row[HALTED] = halt;
}

// The storing half of a day: its figures, with the day of the last change in the place of the days since it, today as the last day, and the prices
// moved down by one.
pub fn keep_day(row: &mut [u64], f: Figures, d: Day)
    requires row { length row.old ≡ width }
    requires since { f.days ≤ d.day }
    ensures { row.new ≡ next_row row.old (paper_figures f) (paper_day d) }
{
    let newer = row[NEWER];
    row[VARIANCE] = f.variance;
    row[PRELIMINARY] = f.preliminary;
    row[MARGIN] = f.margin;
    row[CONCENTRATION] = f.concentration;
    row[LAST_CHANGE] = d.day - f.days;
    row[LAST_DAY] = d.day;
    row[NEWER] = d.price;
    row[OLDER] = newer;
}
