// What anyone may call with a sheet: a sheet's check, its run on a lent book of any length and content, and the evening sheet of one. Each ends with a
// result or with one numbered refusal; a refused call leaves every word of the book as it was. Nothing is asked of a caller. What is tested here is only
// whether the book is sound, since that is all that `runs` and `evening_sheet` ask.
#![tactic(auto)]

ghost use Rattle.sheet.specs.Checked.{HandsBack};
ghost use Rattle.runs.specs.Runs.{Ran};
ghost use Rattle.evening_sheet.specs.Evenings.{Evened};

use row::Refusal;
use runs::Stopped;
use sheet::{BadLine, NUMBERS};

// The bytes of the longest text that is written for any sheet on any book: 64 lines of 23, 1,000 of 68 and 64 of 46 (`TextFits`).
pub const TEXT: usize = 72416;

// Checks the form of a sheet, or hands back its first bad line: the part of the sheet that it occupies, its number and its start beside it.
pub fn check_sheet<'a>(sheet: &'a [u8]) -> Result<(), BadLine<'a>>
    ensures { HandsBack sheet.now result }
{
    let mut numbers = [0; NUMBERS];
    sheet::check(sheet, &mut numbers)
}

// Runs a sheet on a book, and writes its text from the start of the output on, which is long enough for any. The book is tested once; each row is
// then worked on a book that is known to be sound.
pub fn run_sheet(book: &mut [u64], sheet: &[u8], out: &mut [u8; TEXT]) -> Result<usize, Stopped>
    ensures { Ran book.old book.new sheet.now out.old out.new result }
{
    soundness::test(book)?;
    runs::run_sheet(book, sheet, out)
}

// Writes the evening sheet of a book into a buffer of any length, from its start on, and answers how many bytes are written. The book is only read.
pub fn write_evening(book: &[u64], out: &mut [u8]) -> Result<usize, Refusal>
    ensures { Evened book.now out.old out.new result }
{
    soundness::test(&book[..])?;
    evening_sheet::write_evening(book, out)
}
