// The rows of a sheet on a book that is known to be sound: each acts, its answer is taken apart, and its line is written. A refused row does not stop
// the next. The output has to hold the text; that it does is the caller's to show, of the text itself.
#![tactic(auto)]

ghost use Rattle.std.specs.Prelude.{◌≡◌, ℕ, true, [], ◌∷◌, ◌*◌, ◌<◌, length, get_or, refl};
ghost use Rattle.std.proofs.Common.{lit<};
ghost use Rattle.paper.specs.Book.{is_sound};
ghost use Rattle.paper.specs.Calls.{opening, corridor};
ghost use Rattle.paper_sheets.specs.Sheet.{Section, rate as rate_of, corridor_call, openings, days, corridors, sections, width_of, calls_of};
ghost use Rattle.paper_sheets.specs.Written.{AreShort};
ghost use Rattle.corridor.specs.Edges.{paper_terms};
ghost use Rattle.sheet.specs.Numbers.{AreOfSheet, most_numbers};
ghost use Rattle.rows.specs.Acts.{HasRoom, Acts};
ghost use Rattle.rows.specs.Takes.{Takes};
ghost use Rattle.rows.specs.Rows.{calls_in};

use corridor::Terms;
use lines::Text;
use row::WIDTH;
use sheet::{CORRIDOR_WIDTH, DAY_WIDTH};
use stores::Day;

// The rows of a section of a sheet: how many numbers each has, and how one acts.
trait Rows {
    ghost section: { Section };

    const WIDTH: usize;

    ghost WIDTH: { ℕ };

    // Has a row act, and writes its line.
    fn act(book: &mut [u64], row: &[u64], text: &mut Text<'_>)
        requires sound { is_sound book.old ≡ true }
        requires row { length row.now ≡ WIDTH }
        requires short { AreShort row.now }
        requires room { HasRoom book.old text.old.out.now text.old.at (section.call row.now ∷ []) }
        ensures { Takes book.old book.new text.old text.new (section.call row.now ∷ []) };

    ghost wide: { WIDTH ≡ width_of section };

    ghost some: { 0 < WIDTH };
}

// The instruments: each row opens one.
struct Openings;

impl Rows for Openings {
    ghost section = { openings };

    const WIDTH: usize = row::WIDTH;

    ghost WIDTH = { width_of openings };

    fn act(book: &mut [u64], row: &[u64], text: &mut Text<'_>) {
        let answer = book::open(book, row);
        text.put_line(b'O', &[row[0]], &[answers::call_number(answer)]);
    }

    ghost wide = { refl };

    ghost some = { lit< tt };
}

// The days: each row gives one.
struct Days;

impl Rows for Days {
    ghost section = { days };

    const WIDTH: usize = DAY_WIDTH;

    ghost WIDTH = { width_of days };

    fn act(book: &mut [u64], row: &[u64], text: &mut Text<'_>) {
        let d = Day {
            instrument: row[0],
            day: row[1],
            price: row[2],
            m: row[3],
            j: row[4],
        };
        let fields = answers::day_fields(book::give_day(book, d));
        text.put_line(b'D', &[d.instrument, d.day], &fields);
    }

    ghost wide = { refl };

    ghost some = { lit< tt };
}

// A rate, of its sign and its size. Of at most 18 digits it fits a signed word either way.
fn rate(minus: u64, size: u64) -> i64
    requires { size < 1000000000000000000 }
    ensures { result ≡ rate_of minus size }
{
    let z = size as i64;
    if minus == 0 { z } else { -z }
}

// What a corridor's row asks.
fn terms_of(row: &[u64]) -> Terms
    requires row { length row.now ≡ width_of corridors }
    requires short { AreShort row.now }
    ensures { corridor (get_or row.now 0 0) (paper_terms result) ≡ corridor_call row.now }
{
    Terms {
        k: row[1],
        lower: rate(row[2], row[3]),
        upper: rate(row[4], row[5]),
        shift: row[6],
        x: row[7],
        rise: row[8],
        fall: row[9],
        tick: row[10],
    }
}

// The corridors: each row asks one, and the book stays.
struct Corridors;

impl Rows for Corridors {
    ghost section = { corridors };

    const WIDTH: usize = CORRIDOR_WIDTH;

    ghost WIDTH = { width_of corridors };

    fn act(book: &mut [u64], row: &[u64], text: &mut Text<'_>) {
        let terms = terms_of(row);
        let fields = answers::corridor_fields(book::corridor_of(book, row[0], terms));
        text.put_line(b'C', &[row[0], terms.k], &fields);
    }

    ghost wide = { refl };

    ghost some = { lit< tt };
}

// Has the rows of a section act, one after the other.
fn act_rows<R: Rows>(book: &mut [u64], rows: &[u64], text: &mut Text<'_>)
    requires sound { is_sound book.old ≡ true }
    requires short { AreShort rows.now }
    requires room { HasRoom book.old text.old.out.now text.old.at (calls_in R.section rows.now) }
    ensures { Takes book.old book.new text.old text.new (calls_in R.section rows.now) }
{
    for row in rows.chunks_exact(R::WIDTH) {
        R::act(book, row, text);
    }
}

// Has every row of a sheet act, by the numbers that its check kept, and answers how many bytes are written.
pub fn act(book: &mut [u64], numbers: &[u64], out: &mut [u8]) -> usize
    requires sound { is_sound book.old ≡ true }
    requires numbers { (length numbers.now ≡ most_numbers) × AreOfSheet numbers.now }
    requires room { HasRoom book.old out.old 0 (calls_of sections numbers.now) }
    ensures { Acts book.old book.new out.old out.new 0 result (calls_of sections numbers.now) }
{
    let mut text = Text { out, at: 0 };
    let days = 1 + numbers[0] as usize * WIDTH;
    act_rows::<Openings>(book, &numbers[1..days], &mut text);
    let corridors = days + 1 + numbers[days] as usize * DAY_WIDTH;
    act_rows::<Days>(book, &numbers[days + 1..corridors], &mut text);
    let end = corridors + 1 + numbers[corridors] as usize * CORRIDOR_WIDTH;
    act_rows::<Corridors>(book, &numbers[corridors + 1..end], &mut text);
    text.at
}
