// The streams of a program: input read whole, where a read that failed is told from an input that ended, and how a program ends by what its streams
// met.
#![tactic(auto)]

ghost use Rattle.std.specs.Prelude.{◌≡◌, ◌<◌, length, take, Some, IfOk, IsOk};
ghost use Rattle.io.specs.Counts.{IsPrefixLen};
ghost use Rattle.std.specs.Io.KnownBytes.{Consumes, IsAtEnd};
ghost use Rattle.std.specs.Process.{exit_status};
ghost use Rattle.std.specs.IoError.{error_kind};
ghost use Rattle.streams.specs.declared.Fault.TheVariants.{Unread};
ghost use Rattle.streams.specs.Ends.{kept, write_fault, fault_text, status_of};

use std::error::Error;
use std::io::{ErrorKind, Read};
use std::process::ExitCode;
use std::{fmt, io};

// An input that could not be read to its end: how many bytes of it are kept.
#[derive(Clone, Copy, Debug, PartialEq, Eq)]
pub struct Cut {
    pub count: usize,
}

// Reads until the input ends, the room is full or a read fails, and answers how many bytes are kept. A read that gives 0 is the end, and one that gives
// an error a failure. A full room is never called a failure, so that an input too long is told from one that could not be read. What is kept is what
// the reader had first, and it has no more where no read failed and the room is not full.
pub fn read_whole<R: Read>(reader: &mut R, room: &mut [u8]) -> Result<usize, Cut>
    ensures counts { IsPrefixLen (kept result) room.new }
    ensures full { kept result ≡ length room.new → IsOk result }
    ensures bytes { Consumes (R.remaining reader.old) (R.remaining reader.new) (take (kept result) room.new) }
    ensures end { IfOk result (λ count. count < length room.new → IsAtEnd (R.remaining reader.new)) }
{
    let mut count = 0;
    while count < room.len() {
        match reader.read(&mut room[count..]) {
            Err(_) => return Err(Cut { count }),
            Ok(0) => return Ok(count),
            Ok(more) => count += more,
        }
    }
    Ok(count)
}

// What a program may meet at its streams: standard input that could not be read, standard output that could not be written, and one that nobody reads
// any more.
#[derive(Clone, Copy, Debug, PartialEq, Eq)]
pub enum Fault {
    Unread,
    Unwritten,
    NobodyReads,
}

impl From<Cut> for Fault {
    ghost from_gives = { λ _ fault. fault ≡ Unread };

    fn from(_cut: Cut) -> Fault {
        Fault::Unread
    }
}

// An error of a write.
impl From<io::Error> for Fault {
    ghost from_gives = { λ error fault. fault ≡ write_fault (error_kind error) };

    fn from(error: io::Error) -> Fault {
        match error.kind() {
            ErrorKind::BrokenPipe => Fault::NobodyReads,
            _ => Fault::Unwritten,
        }
    }
}

impl fmt::Display for Fault {
    ghost output = { λ fault. Some (fault_text fault) };

    fn fmt<W: fmt::Write>(&self, f: &mut fmt::Formatter<W>) -> fmt::Result {
        f.write_str(match self {
            Fault::Unread => "standard input could not be read",
            Fault::Unwritten => "standard output could not be written",
            Fault::NobodyReads => "nobody reads standard output any more",
        })
    }
}

impl Error for Fault {}

// The status of a program whose output nobody reads any more, as a closed pipe's signal gives it.
const NOBODY_READS: u8 = 141;

// The end of a program. A fault is a line on standard error after the program's name, but for an output that nobody reads any more, which is a status
// of its own.
pub fn end(rt: &impl Eprint, program: &str, outcome: Result<(), Fault>) -> ExitCode
    ensures { exit_status result ≡ status_of outcome }
{
    match outcome {
        Ok(()) => ExitCode::SUCCESS,
        Err(Fault::NobodyReads) => ExitCode::from(NOBODY_READS),
        Err(fault) => {
            let _ = eprintln!(rt; "{program}: {fault}");
            ExitCode::SUCCESS
        }
    }
}
