// The program: reads a sheet from standard input, runs it on an empty book, and writes its text. One byte more than a sheet may have is read, so
// that a sheet too long is known. A sheet that could not be read whole does not act. A failed read and a failed write are each a line on standard
// error, but for a write to an output that nobody reads any more, which is status 141.
#![tactic(auto)]

use row::WORDS;
use sheet::MOST_BYTES;
use station_sheets::TEXT;
use std::io::Read;
use std::process::ExitCode;
use streams::Fault;

fn run(rt: &impl Print, input: &mut impl Read) -> Result<(), Fault> {
    let mut sheet = [0u8; MOST_BYTES + 1];
    let count = streams::read_whole(input, &mut sheet)?;
    let mut book = [0u64; WORDS];
    let mut text = [0u8; TEXT];
    let written = match station_sheets::run_sheet(&mut book, &sheet[..count], &mut text) {
        Ok(written) => written,
        Err(why) => why.written,
    };
    rt.write_all(&text[..written])?;
    Ok(())
}

fn main(rt: HostRuntime) -> ExitCode {
    streams::end(&rt, "morning", run(&rt, &mut rt.stdin()))
}
