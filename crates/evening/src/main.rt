// The program: reads a morning sheet from standard input, runs it on an empty book, and writes the evening sheet of the book that it leaves, from which
// the next morning starts. For a sheet that breaks its form it writes L and the line's number, as `morning` does. One byte more than a sheet may have
// is read, so that a sheet too long is known. A sheet that could not be read whole does not act. A failed read and a failed write are each a line on
// standard error, but for a write to an output that nobody reads any more, which is status 141.
#![tactic(auto)]

ghost use Rattle.io.specs.Counts.{IsPrefixLen};

use row::WORDS;
use sheet::MOST_BYTES;
use station_sheets::TEXT;
use std::io::Read;
use std::process::ExitCode;
use streams::Fault;

// Writes what a sheet gives into a buffer that holds any: the evening sheet of the book that it leaves, or the line of a bad one.
fn evening_of(sheet: &[u8], text: &mut [u8; TEXT]) -> usize
    ensures { IsPrefixLen result text.new }
{
    let mut book = [0u64; WORDS];
    match station_sheets::run_sheet(&mut book, sheet, text) {
        Ok(_) => station_sheets::write_evening(&book, text).unwrap_or(0),
        Err(why) => why.written,
    }
}

fn run(rt: &impl Print, input: &mut impl Read) -> Result<(), Fault> {
    let mut sheet = [0u8; MOST_BYTES + 1];
    let count = streams::read_whole(input, &mut sheet)?;
    let mut text = [0u8; TEXT];
    let written = evening_of(&sheet[..count], &mut text);
    rt.write_all(&text[..written])?;
    Ok(())
}

fn main(rt: HostRuntime) -> ExitCode {
    streams::end(&rt, "evening", run(&rt, &mut rt.stdin()))
}
