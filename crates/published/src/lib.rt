// The published rates, on plain numbers (items 6 and 7). Each function gives what the definition of the same rule in `paper` gives.
#![tactic(auto)]

ghost use Rattle.std.specs.Prelude.{◌≡◌, ℕ, Bool, ◌*◌, ◌≤◌, ◌<◌};
ghost use Rattle.paper.specs.Rates.{square, published, published_margin, published_concentration};
ghost use Rattle.wide.specs.Value.{value};
ghost use Rattle.published.specs.Sums.{covers_margin_sum, covers_concentration_sum};

use wide::Wide;

// A sum of which a rate is published, as what a rate is compared with, worked out once.
trait Sum {
    // Whether a rate is not below the sum.
    ghost covers: { Self → ℕ → Bool };

    fn covers(&self, x: u64) -> bool
        requires { x ≤ 1000000 }
        ensures { result ≡ covers self.now x };
}

// The margin's sum: the preliminary's square times T + m, the add-on R, and T.
#[derive(Drop)]
struct Margin {
    need: u64,
    add_on: u64,
    horizon: u64,
    ghost short: { horizon ≤ 10 },
}

// A rate is at most 1,000,000 and T at most 10, so the product is at most 10^13.
impl Sum for Margin {
    ghost covers = { λ sum x. covers_margin_sum sum.need sum.add_on sum.horizon x };

    fn covers(&self, x: u64) -> bool {
        let Some(rest) = x.checked_sub(self.add_on) else {
            return false;
        };
        self.need <= rest * rest * self.horizon
    }
}

// The concentration's sum: A + B, 4AB, and the square of T.
#[derive(Drop)]
struct Concentration {
    parts: u64,
    cross: Wide,
    scale: u64,
    ghost short: { scale ≤ 100 },
}

// The rate's square times that of T is at most 10^14, and what A + B leave of it is less; the square of that is two words wide, and so is 4AB.
impl Sum for Concentration {
    ghost covers = { λ sum x. covers_concentration_sum sum.parts (value sum.cross) sum.scale x };

    fn covers(&self, x: u64) -> bool {
        let Some(rest) = (x * x * self.scale).checked_sub(self.parts) else {
            return false;
        };
        wide::at_most(self.cross, wide::product(rest, rest))
    }
}

// What is published of a sum: by steps of h from the first multiple not below the least rate, and no further than the greatest. No step passes
// 1,100,000.
fn publish<S: Sum>(monitored: u64, h: u64, least: u64, greatest: u64, sum: &S) -> u64
    requires steps { (0 < h) × (h ≤ 100000) }
    requires rates { (least ≤ 1000000) × (greatest ≤ 1000000) }
    ensures { result ≡ published monitored h least greatest (S.covers sum.now) greatest }
{
    if monitored != 1 {
        return least;
    }
    let mut x = preliminary::multiple_from(h, least);
    while x < greatest {
        if sum.covers(x) {
            return x;
        }
        x += h;
    }
    greatest
}

// A rate's square times a number of days: at most 4.1 * 10^16.
fn square_times(rate: u64, by: u64) -> u64
    requires { (rate ≤ 4100000) × (by ≤ 2400) }
    ensures value { result ≡ square rate * by }
    ensures small { result ≤ 40344000000000000 }
{
    rate * rate * by
}

// The published margin. The need is at most 6.8 * 10^14.
pub fn published_margin(
    monitored: u64,
    h: u64,
    horizon: u64,
    add_on: u64,
    least: u64,
    greatest: u64,
    preliminary: u64,
    m: u64,
) -> u64
    requires steps { (0 < h) × (h ≤ 100000) }
    requires spans { (0 < horizon) × (horizon ≤ 10) × (m ≤ 30) }
    requires rates { (least ≤ 1000000) × (greatest ≤ 1000000) × (preliminary ≤ 4100000) }
    ensures { result ≡ published_margin monitored h horizon add_on least greatest preliminary m }
{
    let need = square_times(preliminary, horizon + m);
    let sum = Margin {
        need,
        add_on,
        horizon,
    };
    publish(monitored, h, least, greatest, &sum)
}

// The published concentration, of the unrounded sum. A and B are each at most 4.1 * 10^16, so 4AB is two words wide.
pub fn published_concentration(
    monitored: u64,
    h: u64,
    horizon: u64,
    long: u64,
    add_on: u64,
    least: u64,
    greatest: u64,
    preliminary: u64,
    m: u64,
) -> u64
    requires steps { (0 < h) × (h ≤ 100000) }
    requires spans { (0 < horizon) × (horizon ≤ 10) × (long ≤ 60) × (m ≤ 30) }
    requires rates { (add_on ≤ 1000000) × (least ≤ 1000000) × (greatest ≤ 1000000) × (preliminary ≤ 4100000) }
    ensures { result ≡ published_concentration monitored h horizon long add_on least greatest preliminary m }
{
    let a = square_times(preliminary, (horizon + m) * long);
    let b = square_times(add_on, long * horizon);
    let cross = wide::product(4 * a, b);
    let sum = Concentration {
        parts: a + b,
        cross,
        scale: horizon * horizon,
    };
    publish(monitored, h, least, greatest, &sum)
}
