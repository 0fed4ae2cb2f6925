// What a row of the book is: how many words it has and where each stands, the parameters among them as an array, the range of each word, whether words
// are a row in range, and the refusals that a call can give.
#![tactic(auto)]

pub mod parameter;

ghost use Rattle.std.specs.Prelude.{◌≡◌, ◌+◌, ◌≤◌, ◌<◌, length, take, drop};
ghost use Rattle.row.specs.Ranges.{interval};
ghost use Rattle.paper.specs.Book.{size, rows, row_at};
ghost use Rattle.paper.specs.Row.{width, parameter_count, ranges, ◌up_to◌, is_in, are_in, range_at, is_paired, parameters_in_range, row_in_range};

// How many words a row has, how many rows the book, and how many words it has then.
pub const WIDTH: usize = 23;

pub const ROWS: usize = 64;

pub const WORDS: usize = ROWS * WIDTH;

// How many of the words are parameters, from alpha on.
pub const PARAMETERS: usize = 13;

// The places of a row's words.
pub const INSTRUMENT: usize = 0;

pub const ALPHA: usize = 1;

pub const UPPER_WEIGHT: usize = 2;

pub const LOWER_WEIGHT: usize = 3;

pub const STEP: usize = 4;

pub const NO_FALL: usize = 5;

pub const HORIZON: usize = 6;

pub const LONG_HORIZON: usize = 7;

pub const ADD_ON: usize = 8;

pub const LEAST_MARGIN: usize = 9;

pub const GREATEST_MARGIN: usize = 10;

pub const LEAST_CONCENTRATION: usize = 11;

pub const GREATEST_CONCENTRATION: usize = 12;

pub const MONITORED: usize = 13;

pub const VARIANCE: usize = 14;

pub const PRELIMINARY: usize = 15;

pub const MARGIN: usize = 16;

pub const CONCENTRATION: usize = 17;

pub const LAST_CHANGE: usize = 18;

pub const LAST_DAY: usize = 19;

pub const NEWER: usize = 20;

pub const OLDER: usize = 21;

pub const HALTED: usize = 22;

// The refusals.
#[derive(Clone, Copy)]
pub enum Refusal {
    Book = 1,
    Range = 2,
    Known = 3,
    Full = 4,
    Unknown = 5,
    Stale = 6,
    Move = 7,
    Empty = 8,
    Line = 9,
    Step = 10,
    Room = 11,
    Halted = 12,
}

// The number of a refusal.
impl From<Refusal> for u64 {
    ghost use Rattle.row.specs.Refusals.{refusal_number};

    ghost from_gives = { λ refusal n. n ≡ refusal_number refusal };

    fn from(refusal: Refusal) -> u64 {
        refusal as u64
    }
}

// A range: the least and the greatest.
#[derive(Clone, Copy)]
struct Range(u64, u64);

// The table of ranges, in the order of a row's words: each line is the range of the words up to the one that it names, the last that of the last word.
fn range_of(place: usize) -> Range
    requires { place < width }
    ensures { interval result ≡ range_at place }
{
    match place {
        ..=INSTRUMENT => Range(1, 999999999),
        ..=ALPHA => Range(1000, 4000),
        ..=LOWER_WEIGHT => Range(1, 10000),
        ..=STEP => Range(1000, 100000),
        ..=NO_FALL => Range(0, 250),
        ..=HORIZON => Range(1, 10),
        ..=LONG_HORIZON => Range(1, 60),
        ..=GREATEST_CONCENTRATION => Range(0, 1000000),
        ..=MONITORED => Range(0, 1),
        ..=VARIANCE => Range(0, 1000000000000),
        ..=PRELIMINARY => Range(0, 4100000),
        ..=CONCENTRATION => Range(0, 1000000),
        ..=LAST_DAY => Range(0, 999999),
        ..=OLDER => Range(1, 1000000000),
        _ => Range(0, 1),
    }
}

// Whether a word is in the range of its place in a row.
#[tactic(auto, unfolding(paper::specs::Row::is_in))]
pub fn word_in_range(place: usize, x: u64) -> bool
    requires { place < width }
    ensures { result ≡ is_in (range_at place) x }
{
    let Range(least, greatest) = range_of(place);
    if x < least {
        return false;
    }
    x <= greatest
}

// The thirteen parameters as an array, of the words that hold them.
pub fn parameters_of(words: &[u64]) -> [u64; PARAMETERS]
    requires { length words.now ≡ parameter_count }
    ensures { result ≡ words.now }
{
    *words.first_chunk().unwrap()
}

// Whether least is not above greatest, for the margin and for the concentration.
#[tactic(auto, unfolding(paper::specs::Row::is_paired))]
fn paired(params: [u64; PARAMETERS]) -> bool
    ensures { result ≡ is_paired params }
{
    params[parameter::LEAST_MARGIN] <= params[parameter::GREATEST_MARGIN]
        && params[parameter::LEAST_CONCENTRATION] <= params[parameter::GREATEST_CONCENTRATION]
}

// Whether words are each in the range of their places in a row, from a place on.
fn words_in_range(words: &[u64], from: usize) -> bool
    requires { from + length words.now ≤ width }
    ensures { result ≡ are_in (take (length words.now) (drop from ranges)) words.now }
{
    for (i, word) in words.iter().enumerate() {
        if !word_in_range(from + i, *word) {
            return false;
        }
    }
    true
}

// Whether the thirteen parameters are in range: the words of a row from alpha on.
#[tactic(auto, using(crate::proofs::Words::are_of_length), unfolding(paper::specs::Row::parameters_in_range))]
pub fn parameters_in_range(params: [u64; PARAMETERS]) -> bool
    ensures { result ≡ parameters_in_range params }
{
    words_in_range(&params, ALPHA) && paired(params)
}

// Whether words are a row in range: as many as a row has, each in its range, least not above greatest, twice, the day of the last change not after the
// last day, and the preliminary a multiple of h.
#[tactic(auto, using(crate::proofs::Words::are_of_length, crate::proofs::Words::step_some, paper::proofs::Row::are_not_long, paper::proofs::Row::row_tested))]
pub fn row_in_range(row: &[u64]) -> bool
    ensures { result ≡ row_in_range row.now }
{
    if row.len() != WIDTH {
        return false;
    }
    if !words_in_range(row, INSTRUMENT) {
        return false;
    }
    if row[GREATEST_MARGIN] < row[LEAST_MARGIN] {
        return false;
    }
    if row[GREATEST_CONCENTRATION] < row[LEAST_CONCENTRATION] {
        return false;
    }
    if row[LAST_DAY] < row[LAST_CHANGE] {
        return false;
    }
    row[PRELIMINARY] % row[STEP] == 0
}

// The words of a row of the book, lent on.
#[tactic(auto, using(paper::proofs::Book::part_row))]
pub fn row_of(book: &[u64], k: usize) -> &[u64]
    requires { (length book.now ≡ size) × (k < rows) }
    ensures { result.now ≡ row_at book.now k }
{
    let at = k * WIDTH;
    &book[at..at + WIDTH]
}
