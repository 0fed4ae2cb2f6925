// Two-word numbers: a product of two words, a sum and a difference with the carry or the borrow, and the order that the borrow tells.
// Limbs are added and subtracted by wrapping operations; a carry or a borrow is found by comparing.
#![tactic(auto)]

ghost use Rattle.std.specs.Prelude.{◌≡◌, ◌+◌, ◌*◌, nat_le};
ghost use Rattle.wide.specs.Value.{word, value, column_value};

// A number below 2^128: high times 2^64, plus low.
#[derive(Clone, Copy)]
pub struct Wide {
    pub high: u64,
    pub low: u64,
}

// One column of a sum or a difference: its word, and what it carries or borrows, 0 or 1.
#[derive(Clone, Copy)]
pub struct Column {
    pub word: u64,
    pub over: u64,
}

// A difference of two-word numbers: its limbs, and the borrow, 1 where the first number is below the second.
#[derive(Clone, Copy)]
pub struct Difference {
    pub limbs: Wide,
    pub borrow: u64,
}

// The sum of two words: the wrapped word, and a carry where it came out below an operand.
pub fn add_words(a: u64, b: u64) -> Column
    ensures { column_value result ≡ a + b }
{
    let sum = a.wrapping_add(b);
    Column {
        word: sum,
        over: u64::from(sum < a),
    }
}

// The difference of two words: the wrapped word, and a borrow where the first is below the second.
pub fn sub_words(a: u64, b: u64) -> Column
    ensures { result.word + b ≡ a + result.over * word }
{
    Column {
        word: a.wrapping_sub(b),
        over: u64::from(a < b),
    }
}

// A word is two halves below this.
const HALF: u64 = 4294967296;

// The product of two words. Each product of halves is below 2^64; the upper limb is at most that of (2^64 - 1) squared, so its two sums do not
// come round.
pub fn product(a: u64, b: u64) -> Wide
    ensures { value result ≡ a * b }
{
    let a1 = a / HALF;
    let a0 = a % HALF;
    let b1 = b / HALF;
    let b0 = b % HALF;
    let cross = add_words(a1 * b0, a0 * b1);
    let low = add_words(a0 * b0, cross.word % HALF * HALF);
    let upper = (a1 * b1).wrapping_add(cross.word / HALF);
    let carries = cross.over * HALF + low.over;
    Wide {
        high: upper.wrapping_add(carries),
        low: low.word,
    }
}

// The difference of two-word numbers, limb by limb from below. At most one of the two columns of the upper limb borrows.
pub fn subtract(a: Wide, b: Wide) -> Difference
    ensures { value result.limbs + value b ≡ value a + result.borrow * (word * word) }
{
    let low = sub_words(a.low, b.low);
    let upper = sub_words(a.high, b.high);
    let high = sub_words(upper.word, low.over);
    Difference {
        limbs: Wide {
            high: high.word,
            low: low.word,
        },
        borrow: upper.over + high.over,
    }
}

// Whether a is at most b: b less a borrows nothing.
pub fn at_most(a: Wide, b: Wide) -> bool
    ensures { result ≡ nat_le (value a) (value b) }
{
    subtract(b, a).borrow == 0
}
