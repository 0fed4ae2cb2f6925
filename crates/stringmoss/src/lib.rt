// The calls of `station` under C's names: a slice is a pointer and a length, and what a call hands out goes into single lent numbers, each 0 where it
// is refused. Each returns 0 or the number of a refusal, and asks nothing of its caller.
#![tactic(auto)]

ghost use Rattle.std.specs.Prelude.{◌≡◌, [], ◌∷◌};
ghost use Rattle.paper.specs.Calls.{opening, closing, parameters, halt, day, why, corridor, bond, Kept};
ghost use Rattle.paper_sheets.specs.Sheet.{finding};
ghost use Rattle.row.specs.Answers.{call_answer_of};
ghost use Rattle.corridor.specs.Edges.{paper_terms};
ghost use Rattle.stringmoss.specs.Linked.{RunsInto, RanInto, EvenedInto};

use corridor::{Bond, Terms};
use row::{PARAMETERS, Refusal};
use runs::Stopped;
use station_sheets::TEXT;
use stores::Day;

// Opens an instrument with the values of a row; another number of values than it has is out of range.
#[unsafe(no_mangle)]
pub extern "C" fn stringmoss_open(book: &mut [u64], row: &[u64]) -> u64
    ensures { Kept book.old (opening row.now) (record { number = result; figures = [] }) book.new }
{
    answers::call_number(station::open(book, row))
}

// Closes an instrument.
#[unsafe(no_mangle)]
pub extern "C" fn stringmoss_close(book: &mut [u64], instrument: u64) -> u64
    ensures { Kept book.old (closing instrument) (record { number = result; figures = [] }) book.new }
{
    answers::call_number(station::close(book, instrument))
}

// Gives an instrument new parameters, the thirteen from alpha to M; another number of values is out of range.
#[unsafe(no_mangle)]
pub extern "C" fn stringmoss_set_parameters(
    book: &mut [u64],
    instrument: u64,
    params: &[u64],
) -> u64
    ensures { Kept book.old (parameters instrument params.now) (record { number = result; figures = [] }) book.new }
{
    answers::call_number(set_parameters(book, instrument, params))
}

// The same of any number of values.
fn set_parameters(book: &mut [u64], instrument: u64, params: &[u64]) -> Result<(), Refusal>
    ensures { Kept book.old (parameters instrument params.now) (call_answer_of result) book.new }
{
    soundness::test(book)?;
    if params.len() != PARAMETERS {
        return Err(Refusal::Range);
    }
    book::set_parameters(book, instrument, row::parameters_of(params))
}

// Halts an instrument, by 1, or ends its halt, by 0; another value is out of range.
#[unsafe(no_mangle)]
pub extern "C" fn stringmoss_set_halt(book: &mut [u64], instrument: u64, value: u64) -> u64
    ensures { Kept book.old (halt instrument value) (record { number = result; figures = [] }) book.new }
{
    answers::call_number(station::set_halt(book, instrument, value))
}

// Gives an instrument a day.
#[unsafe(no_mangle)]
pub extern "C" fn stringmoss_give_day(
    book: &mut [u64],
    instrument: u64,
    today: u64,
    price: u64,
    m: u64,
    j: u64,
    margin: &mut u64,
    concentration: &mut u64,
    preliminary: &mut u64,
    variance: &mut u64,
    days: &mut u64,
    from: &mut u64,
) -> u64
    ensures { Kept book.old (day (record { instrument = instrument; day = today; price = price; m = m; j = j })) (record { number = result; figures = margin.new ∷ concentration.new ∷ preliminary.new ∷ variance.new ∷ days.new ∷ from.new ∷ [] }) book.new }
{
    let f = answers::day_fields(station::give_day(
        book,
        Day {
            instrument,
            day: today,
            price,
            m,
            j,
        },
    ));
    *margin = f[1];
    *concentration = f[2];
    *preliminary = f[3];
    *variance = f[4];
    *days = f[5];
    *from = f[6];
    f[0]
}

// Why a day would have its figures: its answer, and the reasons as numbers. The book is only read.
#[unsafe(no_mangle)]
pub extern "C" fn stringmoss_explain_day(
    book: &[u64],
    instrument: u64,
    today: u64,
    price: u64,
    m: u64,
    j: u64,
    margin: &mut u64,
    concentration: &mut u64,
    preliminary: &mut u64,
    variance: &mut u64,
    days: &mut u64,
    from: &mut u64,
    weight: &mut u64,
    shock: &mut u64,
    branch: &mut u64,
    set_by: &mut u64,
) -> u64
    ensures { Kept book.now (why (record { instrument = instrument; day = today; price = price; m = m; j = j })) (record { number = result; figures = margin.new ∷ concentration.new ∷ preliminary.new ∷ variance.new ∷ days.new ∷ from.new ∷ weight.new ∷ shock.new ∷ branch.new ∷ set_by.new ∷ [] }) book.now }
{
    let asked = Day {
        instrument,
        day: today,
        price,
        m,
        j,
    };
    let why = answers::why_fields(station::explain_day(book, asked));
    *margin = why[1];
    *concentration = why[2];
    *preliminary = why[3];
    *variance = why[4];
    *days = why[5];
    *from = why[6];
    *weight = why[7];
    *shock = why[8];
    *branch = why[9];
    *set_by = why[10];
    why[0]
}

// What a corridor is asked with.
fn terms_of(
    k: u64,
    lower: i64,
    upper: i64,
    shift: u64,
    x: u64,
    rise: u64,
    fall: u64,
    tick: u64,
) -> Terms
    ensures { paper_terms result ≡ record { k = k; lower = lower; upper = upper; shift = shift; x = x; rise = rise; fall = fall; tick = tick } }
{
    Terms {
        k,
        lower,
        upper,
        shift,
        x,
        rise,
        fall,
        tick,
    }
}

// The price corridor of an instrument, as a share. The book is only read.
#[unsafe(no_mangle)]
pub extern "C" fn stringmoss_corridor_of(
    book: &[u64],
    instrument: u64,
    k: u64,
    lower: i64,
    upper: i64,
    shift: u64,
    x: u64,
    rise: u64,
    fall: u64,
    tick: u64,
    lowest: &mut u64,
    highest: &mut u64,
) -> u64
    ensures { Kept book.now (corridor instrument (record { k = k; lower = lower; upper = upper; shift = shift; x = x; rise = rise; fall = fall; tick = tick })) (record { number = result; figures = lowest.new ∷ highest.new ∷ [] }) book.now }
{
    let terms = terms_of(k, lower, upper, shift, x, rise, fall, tick);
    let f = answers::corridor_fields(station::corridor_of(book, instrument, terms));
    *lowest = f[1];
    *highest = f[2];
    f[0]
}

// The price corridor of an instrument as a bond, in ten-thousandths of a percent point of its face value. The book is only read.
#[unsafe(no_mangle)]
pub extern "C" fn stringmoss_bond_corridor_of(
    book: &[u64],
    instrument: u64,
    k: u64,
    lower: i64,
    upper: i64,
    shift: u64,
    x: u64,
    rise: u64,
    fall: u64,
    tick: u64,
    face: u64,
    carry: u64,
    accrued: u64,
    lowest: &mut u64,
    highest: &mut u64,
) -> u64
    ensures { Kept book.now (bond instrument (record { k = k; lower = lower; upper = upper; shift = shift; x = x; rise = rise; fall = fall; tick = tick }) (record { face = face; carry = carry; accrued = accrued })) (record { number = result; figures = lowest.new ∷ highest.new ∷ [] }) book.now }
{
    let terms = terms_of(k, lower, upper, shift, x, rise, fall, tick);
    let bond = Bond {
        face,
        carry,
        accrued,
    };
    let prices = answers::corridor_fields(station::bond_corridor_of(book, instrument, terms, bond));
    *lowest = prices[1];
    *highest = prices[2];
    prices[0]
}

// Checks the form of a sheet. The bad line goes out by its number, its start and its length.
#[unsafe(no_mangle)]
pub extern "C" fn stringmoss_check_sheet(
    sheet: &[u8],
    line: &mut u64,
    start: &mut u64,
    length: &mut u64,
) -> u64
    ensures { record { number = result; line = line.new; start = start.new; length = length.new } ≡ finding sheet.now }
{
    *line = 0;
    *start = 0;
    *length = 0;
    let Err(bad) = station_sheets::check_sheet(sheet) else {
        return 0;
    };
    *line = bad.line;
    *start = bad.start;
    *length = bad.part.len() as u64;
    Refusal::Line.into()
}

// Runs a sheet on a book. An output shorter than the longest text of any sheet is refused before anything acts.
fn run_sheet(book: &mut [u64], sheet: &[u8], out: &mut [u8]) -> Result<usize, Stopped>
    ensures { RunsInto book.old book.new sheet.now out.old out.new result }
{
    soundness::test(book)?;
    if out.len() < TEXT {
        return Err(Refusal::Room.into());
    }
    runs::run_sheet(book, sheet, out)
}

// The same, with each number of the answer in a lent one.
#[unsafe(no_mangle)]
pub extern "C" fn stringmoss_run_sheet(
    book: &mut [u64],
    sheet: &[u8],
    out: &mut [u8],
    line: &mut u64,
    start: &mut u64,
    length: &mut u64,
    written: &mut u64,
) -> u64
    ensures { RanInto book.old book.new sheet.now out.old out.new result line.new start.new length.new written.new }
{
    *line = 0;
    *start = 0;
    *length = 0;
    match run_sheet(book, sheet, out) {
        Ok(bytes) => {
            *written = bytes as u64;
            0
        }
        Err(why) => {
            *line = why.line;
            *start = why.start;
            *length = why.length;
            *written = why.written as u64;
            why.refusal.into()
        }
    }
}

// Writes the evening sheet of a book into a buffer of any length. How many bytes it has goes out. The book is only read.
#[unsafe(no_mangle)]
pub extern "C" fn stringmoss_evening_sheet(book: &[u64], out: &mut [u8], written: &mut u64) -> u64
    ensures { EvenedInto book.now out.old out.new result written.new }
{
    *written = 0;
    match station_sheets::write_evening(book, out) {
        Ok(count) => {
            *written = count as u64;
            0
        }
        Err(refusal) => refusal.into(),
    }
}
