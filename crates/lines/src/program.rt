ghost use Rattle.std.specs.Prelude.{◌≡◌, drop, take, IfSome, OnOk, Some};
ghost use Rattle.job.specs.Sayings.{said_by};
ghost use Rattle.lines.specs.Listing.{accepted, reported};
ghost use Rattle.lines.specs.Printing.{text_of};
ghost use Rattle.lines.specs.Streams.{Writes};

use crate::line::PrintedLine;
use crate::printing::print;
use crate::reading::read_front;
use job::reader::JobReader;
use job::whole::Job;
use path::command::Command;
use std::io;
use std::io::{Read, Write};

const MOST_BYTES: usize = 8192;

const MOST_COMMANDS: usize = 512;

const MOST_DASHES: usize = 32;

/// What a program prints of a job that is accepted, by its style, path and dashes.
pub trait Program: Copy {
    ghost use Rattle.std.specs.Prelude.{List};
    ghost use Rattle.job.specs.Sayings.{Said};
    ghost use Rattle.lines.specs.declared.line.PrintedLine.{PrintedLine};

    ghost lines: { Self → Said → List PrintedLine };

    fn report<W: Write>(self, writer: &mut W, job: &Job) -> io::Result<()>
        ensures { Writes (W.contents writer.old) (W.contents writer.new) result
            (text_of (lines self (accepted job.now))) };
}

/// Reads a job, of at most 8,192 bytes, into 512 places for commands and 32 for dashes, and prints what
/// the program says of it. A job that is refused is printed as its refusal alone. What the reader has
/// after those bytes stays unread. Where it fails a front of the text was written.
pub fn run<R: Read, W: Write, P: Program>(
    reader: &mut R,
    writer: &mut W,
    program: P,
) -> io::Result<()>
    ensures text { IfSome (R.remaining reader.old) (λ bytes.
        Writes (W.contents writer.old) (W.contents writer.new) result
        (text_of (reported (P.lines program) (said_by 512 32 (take 8192 bytes))))) }
    ensures left { OnOk result (IfSome (R.remaining reader.old) (λ bytes.
        R.remaining reader.new ≡ Some (drop 8192 bytes))) }
{
    let mut places = [0; MOST_BYTES];
    let count = read_front(reader, &mut places)?;
    report(writer, program, &places[..count])
}

fn report<W: Write, P: Program>(writer: &mut W, program: P, bytes: &[u8]) -> io::Result<()>
    ensures { Writes (W.contents writer.old) (W.contents writer.new) result
        (text_of (reported (P.lines program) (said_by 512 32 bytes.now))) }
{
    let mut commands = [Command::Close; MOST_COMMANDS];
    let mut dashes = [0.0; MOST_DASHES];
    let mut job = Job::new(&mut commands, &mut dashes);
    match JobReader::new(bytes).read(&mut job) {
        Ok(()) => program.report(writer, &job),
        Err(refusal) => print(writer, PrintedLine::Refused(refusal)),
    }
}
