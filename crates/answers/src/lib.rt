// The answers of the calls as numbers: each is taken apart into 0 or its refusal's number, and its figures, zeros where it is refused.
#![tactic(auto)]

ghost use Rattle.std.specs.Prelude.{◌≡◌, ◌∷◌};
ghost use Rattle.row.specs.Answers.{number_of, call_answer_of};
ghost use Rattle.figures.specs.Answers.{day_answer_of};
ghost use Rattle.reasons.specs.Answers.{why_answer_of};
ghost use Rattle.instrument.specs.Answers.{corridor_answer_of};

use corridor::Prices;
use figures::Figures;
use reasons::Reasons;
use row::Refusal;

// The number of an answer: 0 where nothing is refused.
fn number<T: Copy>(answer: Result<T, Refusal>) -> u64
    ensures { result ≡ number_of answer }
{
    let Err(refusal) = answer else {
        return 0;
    };
    refusal.into()
}

// That of an answer that has no figures.
pub fn call_number(answer: Result<(), Refusal>) -> u64
    ensures { result ≡ (call_answer_of answer).number }
{
    number(answer)
}

// The number of an answer and its figures: those of an accepted day, else the refusal's number and zeros.
pub fn day_fields(answer: Result<Figures, Refusal>) -> [u64; 7]
    ensures { result ≡ (day_answer_of answer).number ∷ (day_answer_of answer).figures }
{
    let Ok(f) = answer else {
        return [number(answer), 0, 0, 0, 0, 0, 0];
    };
    [
        0,
        f.margin,
        f.concentration,
        f.preliminary,
        f.variance,
        f.days,
        f.from.into(),
    ]
}

// Those of a day that is asked about, and after them its reasons.
pub fn why_fields(answer: Result<(Figures, Reasons), Refusal>) -> [u64; 11]
    ensures { result ≡ (why_answer_of answer).number ∷ (why_answer_of answer).figures }
{
    let Ok((f, reasons)) = answer else {
        return [number(answer), 0, 0, 0, 0, 0, 0, 0, 0, 0, 0];
    };
    let day = day_fields(Ok(f));
    [
        day[0],
        day[1],
        day[2],
        day[3],
        day[4],
        day[5],
        day[6],
        reasons.weight.into(),
        reasons.shock.into(),
        reasons.branch.into(),
        reasons.margin.into(),
    ]
}

// The prices of a corridor, else the refusal's number and zeros.
pub fn corridor_fields(answer: Result<Prices, Refusal>) -> [u64; 3]
    ensures { result ≡ (corridor_answer_of answer).number ∷ (corridor_answer_of answer).figures }
{
    let Ok(prices) = answer else {
        return [number(answer), 0, 0];
    };
    [0, prices.lowest, prices.highest]
}
