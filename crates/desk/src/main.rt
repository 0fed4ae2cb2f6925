// The program with which a desk makes any call of `station`, by hand or from a file. It keeps one book, empty at the start. Standard input has a call
// on each line, and each line is answered as soon as it is read.
//
//   O and the values of a row                                      O, the answer's number (an opening)
//   X instrument                                                   X, the number (a closing)
//   P instrument and the parameters                                P, the number
//   H instrument, value                                            H, the number (a halt by 1, its end by 0)
//   D instrument, day, price, m, j                                 D, the number, margin, concentration, preliminary, V, days since change, price
//   Y instrument, day, price, m, j                                 Y, as D, then weight, shock day, branch, what set the margin (why a day has them)
//   C instrument, k, lower, upper, Shift, x, rise, fall, tick      C, the number, lowest, highest
//   B as C, then face, carry, accrued interest                     B, the number, lowest, highest (a bond's corridor)
//   R k                                                            R and the words of row k, from 0 on
//   Z                                                              Z: the book is empty again, with all its words
//   S bytes, at most 70,000, then so many bytes of a sheet         S, the number, the bad line's number, start and length; then the text
//   E length, at most 70,000                                       E, the number, the bytes written; then the evening sheet, into a buffer so long
//
// Two lines more are for trials, of what the calls do on a book that is not sound:
//
//   W place and value                                              W, after the word at that place of the book, from 0 on, was written
//   N length                                                       N: the calls from here on are made on the first so many words of the book
//
// A line is a letter and its numbers, with one space before each. A number fits a word of 64 bits; only the two repo rates, which are below 10 to
// the power 18, may have a minus sign. A line of any other form is answered by `?`, and so is a row, a place or a length that the book does not have,
// and so are bytes at the end of the input with no LF after them, or a sheet that the input ends in.
//
// A failed read and a failed write are each a line on standard error, but for a write to an output that nobody reads any more, which is status 141.
//
// `stdin` and `stdout` hold lines and their answers. Both are made anew by `compare/stored`, the answers by the independent program.
#![tactic(auto)]

mod request;

use request::{Call, Request, UpTo};
use row::{WIDTH, WORDS};
use station_sheets::TEXT;
use std::io::Read;
use std::process::ExitCode;
use std::{fmt, io};
use streams::Fault;

// The most bytes of a line and of a sheet, for either of which there is room, and of a buffer that an evening sheet is written into.
const MOST_LINE: usize = 4096;

const ROOM: usize = 70000;

// What a line of another form is answered by.
const OTHER: char = '?';

// The line of an answer: a letter, and numbers with a space before each.
#[derive(Clone, Copy)]
struct Answer<'a> {
    letter: char,
    numbers: &'a [u64],
}

impl fmt::Display for Answer<'_> {
    fn fmt<W: fmt::Write>(&self, f: &mut fmt::Formatter<W>) -> fmt::Result {
        write!(f, "{}", self.letter)?;
        for number in self.numbers {
            write!(f, " {number}")?;
        }
        Ok(())
    }
}

fn print_line(rt: &impl Print, letter: char, numbers: &[u64]) -> io::Result<()> {
    rt.println(Answer { letter, numbers })
}

// Makes a call on a book and answers it.
fn answer_call(rt: &impl Print, book: &mut [u64], call: Call) -> io::Result<()> {
    match call {
        Call::Open(row) => {
            let answer = station::open(book, &row);
            print_line(rt, 'O', &[answers::call_number(answer)])
        }
        Call::Close(instrument) => {
            let answer = station::close(book, instrument);
            print_line(rt, 'X', &[answers::call_number(answer)])
        }
        Call::SetParameters(instrument, params) => {
            let answer = station::set_parameters(book, instrument, params);
            print_line(rt, 'P', &[answers::call_number(answer)])
        }
        Call::SetHalt(instrument, value) => {
            let answer = station::set_halt(book, instrument, value);
            print_line(rt, 'H', &[answers::call_number(answer)])
        }
        Call::GiveDay(day) => {
            let answer = station::give_day(book, day);
            print_line(rt, 'D', &answers::day_fields(answer))
        }
        Call::ExplainDay(day) => {
            let answer = station::explain_day(book, day);
            print_line(rt, 'Y', &answers::why_fields(answer))
        }
        Call::Corridor(instrument, terms) => {
            let answer = station::corridor_of(book, instrument, terms);
            print_line(rt, 'C', &answers::corridor_fields(answer))
        }
        Call::BondCorridor(instrument, terms, bond) => {
            let answer = station::bond_corridor_of(book, instrument, terms, bond);
            print_line(rt, 'B', &answers::corridor_fields(answer))
        }
    }
}

// Runs a sheet on a book and answers it. It is not inlined, so that a byte that ends no sheet takes no stack for a text.
#[inline(never)]
fn answer_sheet(rt: &impl Print, book: &mut [u64], sheet: &[u8]) -> io::Result<()> {
    let mut out = [0u8; TEXT];
    let written = match station_sheets::run_sheet(book, sheet, &mut out) {
        Ok(written) => {
            print_line(rt, 'S', &[0, 0, 0, 0])?;
            written
        }
        Err(why) => {
            let number = u64::from(why.refusal);
            print_line(rt, 'S', &[number, why.line, why.start, why.length])?;
            why.written
        }
    };
    rt.write_all(&out[..written])
}

// Writes the evening sheet of a book into a buffer of so many bytes and answers it. It is not inlined either.
#[inline(never)]
fn answer_evening(rt: &impl Print, book: &[u64], length: UpTo<ROOM>) -> io::Result<()> {
    let mut out = [0u8; ROOM];
    let out = &mut out[..length.value];
    let (number, written) = match station_sheets::write_evening(book, out) {
        Ok(written) => (0, written),
        Err(refusal) => (refusal.into(), 0),
    };
    print_line(rt, 'E', &[number, written as u64])?;
    rt.write_all(&out[..written])
}

// What the bytes of the input belong to: a line, or a sheet of so many bytes.
#[derive(Clone, Copy)]
enum Reading {
    Line,
    Sheet(UpTo<ROOM>),
}

// A book, and on how many of its words, from the first on, the calls are made.
#[derive(Drop)]
struct Book {
    words: [u64; WORDS],
    length: UpTo<WORDS>,
}

impl Book {
    fn new() -> Book {
        Book {
            words: [0; WORDS],
            length: UpTo { value: WORDS },
        }
    }

    // The words that the calls are made on.
    fn lent(&mut self) -> &mut [u64] {
        &mut self.words[..self.length.value]
    }
}

// A desk: its book, and the line or the sheet that is being read, with how many bytes of it have come. Those for which there is room are held.
#[derive(Drop)]
struct Desk {
    book: Book,
    reading: Reading,
    count: usize,
    held: [u8; ROOM],
}

impl Desk {
    fn new() -> Desk {
        Desk {
            book: Book::new(),
            reading: Reading::Line,
            count: 0,
            held: [0; ROOM],
        }
    }

    // Does what a line asks for and answers it. A sheet comes after its line, and is answered once it is whole.
    fn answer(&mut self, rt: &impl Print, request: Request) -> io::Result<()> {
        match request {
            Request::Make(call) => answer_call(rt, self.book.lent(), call),
            Request::ShowRow(k) => {
                let at = k.value * WIDTH;
                print_line(rt, 'R', &self.book.words[at..at + WIDTH])
            }
            Request::NewBook => {
                self.book = Book::new();
                print_line(rt, 'Z', &[])
            }
            Request::RunSheet(bytes) => {
                self.reading = Reading::Sheet(bytes);
                self.end_sheet(rt)
            }
            Request::WriteEvening(bytes) => answer_evening(rt, self.book.lent(), bytes),
            Request::WriteWord(place, value) => {
                self.book.words[place.value] = value;
                print_line(rt, 'W', &[])
            }
            Request::SetLength(words) => {
                self.book.length = words;
                print_line(rt, 'N', &[])
            }
        }
    }

    // Answers the line that has ended.
    fn end_line(&mut self, rt: &impl Print) -> io::Result<()> {
        let line = self.held[..MOST_LINE].get(..self.count);
        let request = line.and_then(request::request_of);
        self.count = 0;
        match request {
            Some(request) => self.answer(rt, request),
            None => print_line(rt, OTHER, &[]),
        }
    }

    // Runs and answers the sheet that is being read, once all its bytes have come.
    fn end_sheet(&mut self, rt: &impl Print) -> io::Result<()> {
        let Reading::Sheet(bytes) = self.reading else {
            return Ok(());
        };
        if self.count < bytes.value {
            return Ok(());
        }
        self.reading = Reading::Line;
        self.count = 0;
        answer_sheet(rt, self.book.lent(), &self.held[..bytes.value])
    }

    // Takes a byte of the input.
    fn take(&mut self, rt: &impl Print, byte: u8) -> io::Result<()> {
        if byte == b'\n' && matches!(self.reading, Reading::Line) {
            return self.end_line(rt);
        }
        if let Some(place) = self.held.get_mut(self.count) {
            *place = byte;
        }
        self.count = self.count.saturating_add(1);
        self.end_sheet(rt)
    }

    // Answers what has not ended where the input ends.
    fn end(&self, rt: &impl Print) -> io::Result<()> {
        if self.count == 0 && matches!(self.reading, Reading::Line) {
            return Ok(());
        }
        print_line(rt, OTHER, &[])
    }
}

// Takes what is there of the input, again and again to its end, so that a line typed by hand is answered before the next. A read that gives 0 is the
// end of the input, and one that gives an error a failure. A proved loop has to end, and nothing says that the input does, so the loop counts its
// turns, up to a number that no run comes to.
fn run(rt: &impl Print, input: &mut impl Read) -> Result<(), Fault> {
    let mut desk = Desk::new();
    let mut piece = [0u8; 4096];
    for _ in 0..u64::MAX {
        let count = input.read(&mut piece).map_err(|_| Fault::Unread)?;
        if count == 0 {
            break;
        }
        for byte in &piece[..count] {
            desk.take(rt, *byte)?;
        }
    }
    desk.end(rt)?;
    Ok(())
}

fn main(rt: HostRuntime) -> ExitCode {
    streams::end(&rt, "desk", run(&rt, &mut rt.stdin()))
}
