// The form of a morning sheet on lent bytes: its three sections, and its first bad line. Reading goes over the bytes once and keeps every number.
#![tactic(auto)]

ghost use Rattle.std.specs.Prelude.{◌≡◌, ◌+◌, ◌≤◌, length, OnOk};
ghost use Rattle.paper_sheets.specs.Sheet.{opening_form, read_sheet, line_length};
ghost use Rattle.forms.specs.Reads.{form_of, ReadsLines};
ghost use Rattle.sheet.specs.Numbers.{KeepsNumbers, most_numbers};
ghost use Rattle.sheet.specs.Checked.{HandsBack};

use forms::{Bad, Place};
use row::WIDTH;

// The most bytes of a sheet.
pub const MOST_BYTES: usize = 65536;

// How many numbers a day's row has, and a corridor's, whose rates have a sign each.
pub const DAY_WIDTH: usize = 5;

pub const CORRIDOR_WIDTH: usize = 11;

// How many bytes the form of an instrument's line has: a number for each word of a row, and a space between two.
const OPENING_BYTES: usize = 2 * WIDTH - 1;

// The forms of the other lines: a day's and a corridor's.
const DAY: &[u8; 9] = b"n n n n n";

const CORRIDOR: &[u8; 19] = b"n n -n -n n n n n n";

// The most numbers of a sheet: three counts, the words of 64 rows, and the numbers of 1,000 days and of 64 corridors.
pub const NUMBERS: usize = 3 + 64 * WIDTH + 1000 * DAY_WIDTH + 64 * CORRIDOR_WIDTH;

// The form of an instrument's line, by the width.
fn opening_form() -> [u8; OPENING_BYTES]
    ensures { form_of result ≡ opening_form }
{
    let mut form = [b' '; OPENING_BYTES];
    for i in 0..WIDTH {
        form[2 * i] = b'n';
    }
    form
}

// Reads a whole sheet: three sections, and nothing after the last line.
fn read_sheet(text: &[u8], numbers: &mut [u64]) -> Result<Place, Bad>
    requires { length numbers.old ≡ most_numbers }
    ensures { ReadsLines text.now numbers.new (read_sheet text.now) result }
{
    let first = Place {
        line: 1,
        at: 0,
        kept: 0,
    };
    let opened = forms::read_section(text, first, &opening_form(), 64, numbers)?;
    let dated = forms::read_section(text, opened, DAY, 1000, numbers)?;
    let asked = forms::read_section(text, dated, CORRIDOR, 64, numbers)?;
    if asked.at < text.len() {
        return Err(Bad {
            line: asked.line,
            start: asked.at,
            at: asked.at,
        });
    }
    Ok(asked)
}

// How many bytes a text's first line has: those before its LF, or all.
fn line_length(text: &[u8]) -> usize
    ensures { result ≡ line_length text.now }
{
    text.iter()
        .position(|byte| *byte == b'\n')
        .unwrap_or(text.len())
}

// The first bad line of a sheet: its number, where it starts, and the part of the sheet that it occupies, without its LF.
#[derive(Clone, Copy)]
pub struct BadLine<'a> {
    pub line: u64,
    pub start: u64,
    pub part: &'a [u8],
}

// Checks the form of a sheet and keeps its numbers, or hands back its first bad line. A sheet that is too long has line 0, an empty part at its start.
pub fn check<'a>(sheet: &'a [u8], numbers: &mut [u64; NUMBERS]) -> Result<(), BadLine<'a>>
    ensures found { HandsBack sheet.now result }
    ensures kept { OnOk result (KeepsNumbers sheet.now numbers.new) }
{
    if MOST_BYTES < sheet.len() {
        return Err(BadLine {
            line: 0,
            start: 0,
            part: &sheet[..0],
        });
    }
    match read_sheet(sheet, numbers) {
        Ok(_) => Ok(()),
        Err(bad) => {
            let end = bad.at + line_length(&sheet[bad.at..]);
            Err(BadLine {
                line: bad.line,
                start: bad.start as u64,
                part: &sheet[bad.start..end],
            })
        }
    }
}
