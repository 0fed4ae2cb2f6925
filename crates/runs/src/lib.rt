// A sheet run on a book that is known to be sound: its form is checked first, then its rows act, or its bad line is written. The output has to hold the
// text; that it does is the caller's to show, of the text itself.
#![tactic(auto)]

ghost use Rattle.std.specs.Prelude.{◌≡◌, true, ◌≤◌, length};
ghost use Rattle.paper.specs.Book.{is_sound};
ghost use Rattle.paper_sheets.specs.Sheet.{morning_text};
ghost use Rattle.runs.specs.Runs.{Ran};

use lines::Text;
use row::Refusal;
use sheet::NUMBERS;

// Why a sheet did not run: the refusal, the number, start and length of its bad line, zeros where there is none, and how many bytes are written.
#[derive(Clone, Copy)]
pub struct Stopped {
    pub refusal: Refusal,
    pub line: u64,
    pub start: u64,
    pub length: u64,
    pub written: usize,
}

// A refusal before the sheet is looked at.
impl From<Refusal> for Stopped {
    ghost use Rattle.runs.specs.Before.{stopped_before};

    ghost from_gives = { λ refusal why. why ≡ stopped_before refusal };

    fn from(refusal: Refusal) -> Stopped {
        Stopped {
            refusal,
            line: 0,
            start: 0,
            length: 0,
            written: 0,
        }
    }
}

// Runs a sheet, and answers how many bytes are written. Its text is written from the start of the output on.
pub fn run_sheet(book: &mut [u64], sheet: &[u8], out: &mut [u8]) -> Result<usize, Stopped>
    requires sound { is_sound book.old ≡ true }
    requires room { length (morning_text book.old sheet.now) ≤ length out.old }
    ensures { Ran book.old book.new sheet.now out.old out.new result }
{
    let mut numbers = [0; NUMBERS];
    if let Err(bad) = sheet::check(sheet, &mut numbers) {
        let mut text = Text { out, at: 0 };
        text.put_line(b'L', &[bad.line], &[]);
        return Err(Stopped {
            refusal: Refusal::Line,
            line: bad.line,
            start: bad.start,
            length: bad.part.len() as u64,
            written: text.at,
        });
    }
    Ok(rows::act(book, &numbers, out))
}
