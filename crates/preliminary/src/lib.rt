// The day's rules up to the preliminary rate, on plain numbers: the move, the variance, the need's shock day, the candidate, the preliminary (items 1
// to 5). Each function gives what the definition of the same rule in `paper` gives.
#![tactic(auto)]

ghost use Rattle.std.specs.Prelude.{◌≡◌, true, false, cond, ltb, ◌+◌, ◌*◌, ◌≤◌, ◌<◌};
ghost use Rattle.paper.specs.Rates.{ceil_div, price_number, move_from, move as move_of, next_variance, is_shock, candidate as candidate_of, falls, next_preliminary, next_days};
ghost use Rattle.preliminary.specs.Moves.{paper_price, paper_move};

// The move of a price against one kept price. The product is at most 10^15.
#[tactic(auto, using(paper::proofs::Rates::ceil_of_rest), unfolding(paper::specs::Rates::move_from))]
fn move_from(kept: u64, price: u64) -> u64
    requires { (0 < kept) × (kept ≤ 1000000000) × (price ≤ 1000000000) }
    ensures { result ≡ move_from kept price }
{
    (price.abs_diff(kept) * 1000000).div_ceil(kept)
}

// The greatest move that a day may have.
pub const GREATEST_MOVE: u64 = 1000000;

// The kept price that gives a move.
#[derive(Clone, Copy)]
pub enum Price {
    Newer = 1,
    Older = 2,
}

// The number under which a price is handed out.
impl From<Price> for u64 {
    ghost from_gives = { λ price number. number ≡ price_number (paper_price price) };

    fn from(price: Price) -> u64 {
        price as u64
    }
}

// A move: its size, and the price that gives it.
#[derive(Clone, Copy)]
pub struct Move {
    pub size: u64,
    pub from: Price,
}

// The move of a day: the larger of those against the two kept prices, from the newer where both are the same. Its size is at most 10^15.
pub fn move_on(newer: u64, older: u64, price: u64) -> Move
    requires newest { (0 < newer) × (newer ≤ 1000000000) }
    requires oldest { (0 < older) × (older ≤ 1000000000) }
    requires today { price ≤ 1000000000 }
    ensures { paper_move result ≡ move_of newer older price }
{
    let by_newer = move_from(newer, price);
    let by_older = move_from(older, price);
    if by_newer < by_older {
        Move {
            size: by_older,
            from: Price::Older,
        }
    } else {
        Move {
            size: by_newer,
            from: Price::Newer,
        }
    }
}

// Whether a day takes the upper weight: the move's square exceeds the variance.
pub fn is_upper(v: u64, square: u64) -> bool
    ensures { result ≡ ltb v square }
{
    v < square
}

// The weight of a day.
fn weight_for(upper: u64, lower: u64, v: u64, square: u64) -> u64
    requires { (upper ≤ 10000) × (lower ≤ 10000) }
    ensures value { result ≡ cond (ltb v square) upper lower }
    ensures small { result ≤ 10000 }
{
    if is_upper(v, square) { upper } else { lower }
}

// The new variance. Each product is at most 10^16, and so is their sum, a weighted mean of two numbers up to 10^12 times 10,000.
#[tactic(auto, using(paper::proofs::Rates::ceil_of_rest), unfolding(paper::specs::Rates::weight, paper::specs::Rates::next_variance))]
pub fn next_variance(upper: u64, lower: u64, v: u64, d: u64) -> u64
    requires weights { (upper ≤ 10000) × (lower ≤ 10000) }
    requires sizes { (v ≤ 1000000000000) × (d ≤ 1000000) }
    ensures { result ≡ next_variance upper lower v d }
{
    let square = d * d;
    let w = weight_for(upper, lower, v, square);
    ((10000 - w) * v + w * square).div_ceil(10000)
}

// Whether it is a shock day: the move is above the published margin kept from the day before, and j is at most 1.
#[tactic(auto, unfolding(paper::specs::Rates::is_shock))]
pub fn is_shock(margin: u64, j: u64, d: u64) -> bool
    ensures { result ≡ is_shock margin j d }
{
    margin < d && j <= 1
}

// A rate rounded up to a multiple of h, at which a search for one not below it may start: less than one step above the rate, so at most 1,100,000.
pub fn multiple_from(h: u64, rate: u64) -> u64
    requires { (0 < h) × (h ≤ 100000) × (rate ≤ 1000000) }
    ensures { result ≡ h * ceil_div rate h }
{
    rate.next_multiple_of(h)
}

// What a candidate may not be below on a shock day: the move. On another day nothing.
fn floor_of(shock: bool, d: u64) -> u64
    ensures { result ≡ cond shock d 0 }
{
    if shock { d } else { 0 }
}

// The candidate, by steps of h from the first multiple not below a shock day's move. The need's square, of alpha in thousandths, is at
// most 1.6 * 10^19; no step passes 4,100,000, so the square compared with it is at most 1.681 * 10^19. Both fit a word.
pub fn candidate(h: u64, alpha: u64, v: u64, d: u64, shock: bool) -> u64
    requires steps { (0 < h) × (h ≤ 100000) }
    requires sizes { (alpha ≤ 4000) × (v ≤ 1000000000000) × (d ≤ 1000000) }
    ensures { result ≡ candidate_of h alpha v d shock }
{
    let need = alpha * alpha * v;
    let mut c = multiple_from(h, floor_of(shock, d));
    while (1000 * c) * (1000 * c) < need {
        c += h;
    }
    c
}

// The preliminary and the days since its change.
#[derive(Clone, Copy)]
pub struct Preliminary {
    pub rate: u64,
    pub days: u64,
}

// Whether the preliminary falls: the candidate is at least one step below, and the days since change reach n. The sum is at most 4,200,000.
#[tactic(auto, unfolding(paper::specs::Rates::falls))]
fn falls_on(h: u64, n: u64, old: u64, days: u64, c: u64) -> bool
    requires { (h ≤ 100000) × (c ≤ 4100000) }
    ensures { result ≡ falls h n old days c }
{
    c + h <= old && n <= days
}

// The new preliminary, by the days since change as the day finds them. Sums are at most 4,200,000.
#[tactic(auto, unfolding(paper::specs::Rates::rises, paper::specs::Rates::falls, paper::specs::Rates::next_preliminary, paper::specs::Rates::next_days))]
pub fn next_preliminary(h: u64, n: u64, old: u64, days: u64, c: u64) -> Preliminary
    requires { (h ≤ 100000) × (old ≤ 4100000) × (c ≤ 4100000) }
    ensures { (result.rate ≡ next_preliminary h n old days c) × (result.days ≡ next_days h n old days c) }
{
    if old + h <= c {
        Preliminary { rate: c, days: 0 }
    } else if falls_on(h, n, old, days, c) {
        Preliminary {
            rate: old - h,
            days: 0,
        }
    } else {
        Preliminary { rate: old, days }
    }
}
