// The corridor on plain numbers, of a share and of a bond: the exact bounds, compared and never divided, and the ticks inside.
#![tactic(auto)]

ghost use Rattle.std.specs.Prelude.{◌≡◌, Bool, true, not, [], ◌∷◌, ◌&&◌, ℕ, ◌+◌, ◌*◌, ◌≤◌, ◌<◌, max, leb, ltb, pos, ◌-ℤ◌, ◌*ℤ◌};
ghost use Rattle.paper.specs.Row.{◌up_to◌, millionths, are_in};
ghost use Rattle.paper.specs.Rates.{ceil_div};
ghost use Rattle.paper.specs.Corridor.{is_repo, repos_in_range, terms_in_range, spread_up, spread_down, factor as factor_of};
ghost use Rattle.paper.specs.Bond.{bond_in_range, bond_on};
ghost use Rattle.paper.specs.Promises.Found.{AreTicks};
ghost use Rattle.corridor.specs.Edges.{paper_terms, paper_bond, paper_ticks, at_least_zero, cost_of};
ghost use Rattle.wide.specs.Value.{value};

use wide::Wide;

// A whole in millionths, and a year in the repo rate's unit, without and with a sign.
pub const WHOLE: u64 = 1000000;

const YEAR: u64 = 3650000;

const SIGNED_YEAR: i64 = YEAR as i64;

// What a corridor is asked with.
#[derive(Clone, Copy)]
pub struct Terms {
    pub k: u64,
    pub lower: i64,
    pub upper: i64,
    pub shift: u64,
    pub x: u64,
    pub rise: u64,
    pub fall: u64,
    pub tick: u64,
}

// What a bond's corridor is asked with beside the terms: its face value, carry and accrued interest.
#[derive(Clone, Copy)]
pub struct Bond {
    pub face: u64,
    pub carry: u64,
    pub accrued: u64,
}

// The lowest and the highest price of a corridor.
#[derive(Clone, Copy)]
pub struct Prices {
    pub lowest: u64,
    pub highest: u64,
}

// What a price costs, to be compared with the product of P, the spread and the factor: the price times the face value is an amount in millionths of
// P's unit, and what is taken is put back to it, and that is times the scale. The amount is at most 2.001 * 10^15, so with what is taken at most
// 4.001 * 10^15; the scale is at most 3.65 * 10^10, so the cost is below 2^87 and two words wide.
#[derive(Clone, Copy)]
struct Costs {
    face: u64,
    taken: u64,
    scale: u64,
}

// Whether a repo rate is in range.
#[tactic(auto, unfolding(paper::specs::Corridor::is_repo))]
fn is_repo(rate: i64) -> bool
    ensures { result ≡ is_repo rate }
{
    (-10000..=50000).contains(&rate)
}

// Whether both are, the lower not above the upper.
#[tactic(auto, unfolding(paper::specs::Corridor::repos_in_range))]
fn repos_in_range(lower: i64, upper: i64) -> bool
    ensures { result ≡ repos_in_range lower upper }
{
    is_repo(lower) && is_repo(upper) && lower <= upper
}

// Whether k, Shift and x are in range.
#[tactic(auto, unfolding(paper::specs::Row::are_in, paper::specs::Row::is_in))]
fn spans_in_range(k: u64, shift: u64, x: u64) -> bool
    ensures { result ≡ are_in ((0 up_to 365) ∷ (0 up_to 1000) ∷ (1 up_to 10000) ∷ []) (k ∷ shift ∷ x ∷ []) }
{
    (0..=365).contains(&k) && (0..=1000).contains(&shift) && (1..=10000).contains(&x)
}

// Whether the greatest rise, the greatest fall and the tick are in range.
#[tactic(auto, unfolding(paper::specs::Row::are_in, paper::specs::Row::is_in))]
fn limits_in_range(rise: u64, fall: u64, tick: u64) -> bool
    ensures { result ≡ are_in (millionths ∷ millionths ∷ (1 up_to 1000000) ∷ []) (rise ∷ fall ∷ tick ∷ []) }
{
    (0..=1000000).contains(&rise) && (0..=1000000).contains(&fall) && (1..=1000000).contains(&tick)
}

// Whether the terms of a corridor are in range.
#[tactic(auto, unfolding(paper::specs::Corridor::terms_in_range, paper::specs::Row::are_in, paper::specs::Row::is_in))]
pub fn terms_in_range(t: Terms) -> bool
    ensures { result ≡ terms_in_range (paper_terms t) }
{
    spans_in_range(t.k, t.shift, t.x)
        && limits_in_range(t.rise, t.fall, t.tick)
        && repos_in_range(t.lower, t.upper)
}

// Whether a bond's values are in range.
#[tactic(auto, unfolding(paper::specs::Bond::bond_in_range, paper::specs::Row::are_in, paper::specs::Row::is_in))]
pub fn bond_in_range(b: Bond) -> bool
    ensures { result ≡ bond_in_range (paper_bond b) }
{
    (1..=1000000000).contains(&b.face)
        && (0..=1000000000).contains(&b.carry)
        && (0..=1000000000).contains(&b.accrued)
}

// The factor of a repo rate over k days, times a year: from 0 to 21,900,000.
#[tactic(auto, unfolding(paper::specs::Corridor::factor, paper::specs::Corridor::is_repo))]
fn factor(rate: i64, k: u64) -> i64
    requires { (is_repo rate ≡ true) × (k ≤ 365) }
    ensures { result ≡ factor_of rate k }
{
    SIGNED_YEAR + rate * (k as i64)
}

// A number with sign, or 0 where it is below 0.
fn at_least_zero(z: i64) -> u64
    ensures { result ≡ at_least_zero z }
{
    u64::try_from(z).unwrap_or(0)
}

// 1 less s, times x and a whole: from -2 * 10^9 to 10^10.
fn spread_down(x: u64, shift: u64, margin: u64) -> i64
    requires { (x ≤ 10000) × (shift ≤ 1000) × (margin ≤ 1000000) }
    ensures { result ≡ pos (x * 1000000) -ℤ pos (2 * shift * margin) }
{
    ((x * WHOLE) as i64) - ((2 * shift * margin) as i64)
}

// 1 plus s times the upper factor, times x, a whole and a year: at most 1.2 * 10^10 times 2.19 * 10^7.
fn upper_product(t: Terms, margin: u64) -> u64
    requires { (terms_in_range (paper_terms t) ≡ true) × (margin ≤ 1000000) }
    ensures result_value { pos result ≡ spread_up margin (paper_terms t) *ℤ factor_of t.upper t.k }
    ensures small { result ≤ 262800000000000000 }
{
    let up = t.x * WHOLE + 2 * t.shift * margin;
    up * at_least_zero(factor(t.upper, t.k))
}

// 1 less s times the lower factor, in the same unit, or 0 where s is above 1. The signed product is at most 2.7 * 10^17 in size.
fn lower_product(t: Terms, margin: u64) -> u64
    requires { (terms_in_range (paper_terms t) ≡ true) × (margin ≤ 1000000) }
    ensures { result ≡ at_least_zero (spread_down margin (paper_terms t) *ℤ factor_of t.lower t.k) }
{
    let down = spread_down(t.x, t.shift, margin);
    let f = factor(t.lower, t.k);
    at_least_zero(down * f)
}

impl Costs {
    fn of(&self, q: u64) -> Wide
        requires { (q * self.now.face ≤ 2001000000000000) × (self.now.taken ≤ 2000000000000000) }
        ensures { value result ≡ cost_of self.now q }
    {
        wide::product(q * self.face + self.taken, self.scale)
    }
}

// The first price that passes a test which every higher price passes too, from one price on and below another, which it is where there is none, by
// halving: at most 51 turns, whatever the tick.
fn first_past<F: Fn(u64) -> bool>(from: u64, end: u64, is_past: F) -> u64
    requires order { from ≤ end }
    requires callable { (q : ℕ) → q < end → F.pre is_past q }
    requires stays { (p q : ℕ) (a b : Bool) → p ≤ q → q < end → F.post is_past p a → F.post is_past q b → a ≡ true → b ≡ true }
    ensures ends { (from ≤ result) × (result ≤ end) }
    ensures parts { (q : ℕ) (b : Bool) → from ≤ q → q < end → F.post is_past q b → b ≡ leb result q }
{
    let mut low = from;
    let mut high = end;
    while low < high {
        let mid = low.midpoint(high);
        if is_past(mid) {
            high = mid;
        } else {
            low = mid + 1;
        }
    }
    low
}

// The least positive multiple of the tick that is not below a price: at most 2 * 10^15 + 10^6.
#[tactic(auto, using(paper::proofs::Rates::ceil_of_rest))]
fn tick_from(first: u64, tick: u64) -> u64
    requires { (0 < tick) × (tick ≤ 1000000) × (first ≤ 2000000000000001) }
    ensures { result ≡ tick * max (ceil_div first tick) 1 }
{
    tick * first.div_ceil(tick).max(1)
}

// The ticks from one price on and below another.
fn ticks_between(first: u64, above: u64, tick: u64) -> Option<Prices>
    requires { (0 < tick) × (tick ≤ 1000000) × (first ≤ 2000000000000001) × (above ≤ 2000000000000001) }
    ensures { AreTicks (λ q. leb first q && ltb q above) tick (paper_ticks result) }
{
    let last = above.checked_sub(1)?;
    let lowest = tick_from(first, tick);
    let highest = tick * (last / tick);
    (lowest <= highest).then_some(Prices { lowest, highest })
}

// The corridor of a bond, of a price and a margin; a share's is that of a bond with a face value of a whole, from which nothing is taken. It lies from the
// first price not below P (1 - fall) on and below the first above P (1 + rise), which is at most 2 * 10^15 + 1; where the instrument is monitored, the two
// edges of the spread are looked for between these. What is taken is at most 2 * 10^15, the products of P are below 2^88.
pub fn corridor_on(price: u64, margin: u64, monitored: u64, t: Terms, b: Bond) -> Option<Prices>
    requires kept { (price ≤ 1000000000) × (margin ≤ 1000000) }
    requires given { (terms_in_range (paper_terms t) ≡ true) × (bond_in_range (paper_bond b) ≡ true) }
    ensures { paper_ticks result ≡ bond_on price margin monitored (paper_terms t) (paper_bond b) }
{
    let from = (price * (WHOLE - t.fall)).div_ceil(b.face);
    let end = price * (WHOLE + t.rise) / b.face + 1;
    if monitored != 1 {
        return ticks_between(from, end, t.tick);
    }
    let costs = Costs {
        face: b.face,
        taken: (b.carry + b.accrued) * WHOLE,
        scale: t.x * YEAR,
    };
    let upper = wide::product(price, upper_product(t, margin));
    let over = |q: u64| -> bool
        requires { (q * costs.face ≤ 2001000000000000) × (costs.taken ≤ 2000000000000000) }
        ensures { result ≡ not (leb (cost_of costs q) (value upper)) }
    { !wide::at_most(costs.of(q), upper) };
    let above = first_past(from, end, over);
    let lower = wide::product(price, lower_product(t, margin));
    let not_under = |q: u64| -> bool
        requires { (q * costs.face ≤ 2001000000000000) × (costs.taken ≤ 2000000000000000) }
        ensures { result ≡ leb (value lower) (cost_of costs q) }
    { wide::at_most(lower, costs.of(q)) };
    let first = first_past(from, above, not_under);
    ticks_between(first, above, t.tick)
}
