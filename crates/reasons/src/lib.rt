// Why a day has its figures. `figures` works the rules; the reasons are read off what they met in the row and what they gave, so that a day which is
// given, and not asked about, does nothing of this.
#![tactic(auto)]

ghost use Rattle.std.specs.Prelude.{◌≡◌, true, ◌≤◌, ◌<◌};
ghost use Rattle.paper.specs.Row.{row_in_range};
ghost use Rattle.paper.specs.Reasons.{weight_for, branch_of, set_by, reasons_on};
ghost use Rattle.figures.specs.Answers.{paper_figures};
ghost use Rattle.reasons.specs.Answers.{paper_weight, paper_branch, paper_set_by, paper_reasons};

use figures::Figures;
use row::{GREATEST_MARGIN, LEAST_MARGIN, MARGIN, MONITORED, PRELIMINARY, STEP, VARIANCE};
use std::cmp::Ordering;

// The weight that the variance took.
#[derive(Clone, Copy)]
pub enum Weight {
    Upper = 1,
    Lower = 2,
}

// The number of a weight.
impl From<Weight> for u64 {
    ghost use Rattle.paper.specs.Reasons.{weight_number};
    ghost use Rattle.reasons.specs.Answers.{paper_weight};

    ghost from_gives = { λ weight n. n ≡ weight_number (paper_weight weight) };

    fn from(weight: Weight) -> u64 {
        weight as u64
    }
}

// The way that the preliminary went.
#[derive(Clone, Copy)]
pub enum Branch {
    Rise = 1,
    Fall = 2,
    Kept = 3,
}

// The number of a branch.
impl From<Branch> for u64 {
    ghost use Rattle.paper.specs.Reasons.{branch_number};
    ghost use Rattle.reasons.specs.Answers.{paper_branch};

    ghost from_gives = { λ branch n. n ≡ branch_number (paper_branch branch) };

    fn from(branch: Branch) -> u64 {
        branch as u64
    }
}

// What set the published margin: no monitoring, the greatest rate, the least rate, or the preliminary with its add-on.
#[derive(Clone, Copy)]
pub enum SetBy {
    NotMonitored = 1,
    Greatest = 2,
    Least = 3,
    Preliminary = 4,
}

// The number of what set the margin.
impl From<SetBy> for u64 {
    ghost use Rattle.paper.specs.Reasons.{set_by_number};
    ghost use Rattle.reasons.specs.Answers.{paper_set_by};

    ghost from_gives = { λ set_by n. n ≡ set_by_number (paper_set_by set_by) };

    fn from(set_by: SetBy) -> u64 {
        set_by as u64
    }
}

// A day's reasons.
#[derive(Clone, Copy)]
pub struct Reasons {
    pub weight: Weight,
    pub shock: bool,
    pub branch: Branch,
    pub margin: SetBy,
}

// The upper weight if the move's square exceeds the variance. A move is at most 1,000,000, so its square fits a word.
#[tactic(auto, unfolding(paper::specs::Reasons::weight_for))]
fn weight_for(v: u64, d: u64) -> Weight
    requires { d ≤ 1000000 }
    ensures { paper_weight result ≡ weight_for v d }
{
    if preliminary::is_upper(v, d * d) {
        Weight::Upper
    } else {
        Weight::Lower
    }
}

// A rise to a higher preliminary, a fall to a lower one, or the same kept.
#[tactic(auto, unfolding(paper::specs::Reasons::branch_of))]
fn branch_of(old: u64, preliminary: u64) -> Branch
    ensures { paper_branch result ≡ branch_of old preliminary }
{
    match preliminary.cmp(&old) {
        Ordering::Greater => Branch::Rise,
        Ordering::Less => Branch::Fall,
        Ordering::Equal => Branch::Kept,
    }
}

// What set the margin: the greatest is looked at before the least, which counts as rounded up to a multiple of h.
#[tactic(auto, unfolding(paper::specs::Reasons::set_by))]
fn set_by(monitored: u64, h: u64, least: u64, greatest: u64, margin: u64) -> SetBy
    requires { (0 < h) × (h ≤ 100000) × (least ≤ 1000000) }
    ensures { paper_set_by result ≡ set_by monitored h least greatest margin }
{
    if monitored != 1 {
        SetBy::NotMonitored
    } else if margin == greatest {
        SetBy::Greatest
    } else if margin == preliminary::multiple_from(h, least) {
        SetBy::Least
    } else {
        SetBy::Preliminary
    }
}

// The reasons of a day on a row, by its j, the size of its move and its figures. The shock day is that of the margin which the row keeps.
#[tactic(auto, using(paper::proofs::Row::row_words), unfolding(paper::specs::Reasons::reasons_on))]
pub fn reasons_of(row: &[u64], j: u64, d: u64, f: Figures) -> Reasons
    requires kept { row_in_range row.now ≡ true }
    requires small { d ≤ 1000000 }
    ensures { paper_reasons result ≡ reasons_on row.now j d (paper_figures f) }
{
    Reasons {
        weight: weight_for(row[VARIANCE], d),
        shock: preliminary::is_shock(row[MARGIN], j, d),
        branch: branch_of(row[PRELIMINARY], f.preliminary),
        margin: set_by(
            row[MONITORED],
            row[STEP],
            row[LEAST_MARGIN],
            row[GREATEST_MARGIN],
            f.margin,
        ),
    }
}
