// A day's figures: the rules one after the other.
#![tactic(auto)]

ghost use Rattle.std.specs.Prelude.{◌≡◌, true, ◌≤◌};
ghost use Rattle.paper.specs.Row.{parameters_in_range};
ghost use Rattle.paper.specs.Rates.{figures_on};
ghost use Rattle.preliminary.specs.Moves.{paper_move};
ghost use Rattle.figures.specs.Answers.{StateFits, paper_state, paper_figures};

use preliminary::{Move, Price};
use row::{PARAMETERS, parameter};

// What a day's rules read of a row beside its parameters and its prices.
#[derive(Clone, Copy)]
pub struct State {
    pub variance: u64,
    pub preliminary: u64,
    pub margin: u64,
    pub last_change: u64,
}

// A day's figures.
#[derive(Clone, Copy)]
pub struct Figures {
    pub margin: u64,
    pub concentration: u64,
    pub preliminary: u64,
    pub variance: u64,
    pub days: u64,
    pub from: Price,
}

// The figures of a day whose move is accepted: the rules one after the other, by its size, and the price that gives it.
#[tactic(auto, using(crate::proofs::Parameters::small), unfolding(paper::specs::Rates::figures_on, paper::specs::Rates::candidate_on))]
pub fn figures_on(
    params: [u64; PARAMETERS],
    state: State,
    today: u64,
    m: u64,
    j: u64,
    moved: Move,
) -> Figures
    requires parameters { parameters_in_range params ≡ true }
    requires kept { StateFits state }
    requires since { state.last_change ≤ today }
    requires given { (m ≤ 30) × (moved.size ≤ 1000000) }
    ensures { paper_figures result ≡ figures_on params (paper_state state) today m j (paper_move moved) }
{
    let Move { size: d, from } = moved;
    let h = params[parameter::STEP];
    let horizon = params[parameter::HORIZON];
    let add_on = params[parameter::ADD_ON];
    let monitored = params[parameter::MONITORED];
    let v = preliminary::next_variance(
        params[parameter::UPPER_WEIGHT],
        params[parameter::LOWER_WEIGHT],
        state.variance,
        d,
    );
    let c = preliminary::candidate(
        h,
        params[parameter::ALPHA],
        v,
        d,
        preliminary::is_shock(state.margin, j, d),
    );
    let q = preliminary::next_preliminary(
        h,
        params[parameter::NO_FALL],
        state.preliminary,
        today - state.last_change,
        c,
    );
    let rate = q.rate;
    let margin = published::published_margin(
        monitored,
        h,
        horizon,
        add_on,
        params[parameter::LEAST_MARGIN],
        params[parameter::GREATEST_MARGIN],
        rate,
        m,
    );
    let concentration = published::published_concentration(
        monitored,
        h,
        horizon,
        params[parameter::LONG_HORIZON],
        add_on,
        params[parameter::LEAST_CONCENTRATION],
        params[parameter::GREATEST_CONCENTRATION],
        rate,
        m,
    );
    Figures {
        margin,
        concentration,
        preliminary: q.rate,
        variance: v,
        days: q.days,
        from,
    }
}
