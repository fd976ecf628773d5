ghost use Rattle.std.specs.Prelude.{drop, IfSome, OnOk, Some, ◌≡◌};
ghost use Rattle.lines.specs.Listing.{accepted};
ghost use Rattle.lines.specs.Printing.{text_of};
ghost use Rattle.lines.specs.Streams.{Writes};
ghost use Rattle.stroke_lines.specs.Outlined.{outline_of, stroked_lines};

use crate::drawn::print_drawn;
use job::whole::Job;
use lines::program::{Program, run};
use maths::series::SeriesHost;
use path::command::Command;
use sinks::record_list::RecordList;
use std::io;
use std::io::{Read, Write};
use stroke::calls::stroke_into;

const MOST_STEPS: u32 = 65_536;

const PLACES: usize = 1024;

/// Reads a job, strokes it with the series host, and prints the lines of the commands that were sent and
/// of the answer. A job that is refused is not stroked, and its refusal is printed alone.
///
/// Of the bytes the first 8,192 are read, and those after them stay unread. Where it fails a front of
/// the text was written.
#[tactic(auto, unfolding(crate::specs::Outlined::outline_of))]
pub fn outline<R: Read, W: Write>(reader: &mut R, writer: &mut W) -> io::Result<()>
    ensures text { IfSome (R.remaining reader.old) (λ bytes.
        Writes (W.contents writer.old) (W.contents writer.new) result
        (outline_of bytes)) }
    ensures left { OnOk result (IfSome (R.remaining reader.old) (λ bytes.
        R.remaining reader.new ≡ Some (drop 8192 bytes))) }
{
    run(reader, writer, Stroked)
}

#[derive(Clone, Copy)]
struct Stroked;

impl Program for Stroked {
    ghost lines = { λ p. stroked_lines };

    fn report<W: Write>(self, writer: &mut W, job: &Job) -> io::Result<()> {
        stroke_job(writer, job)
    }
}

fn stroke_job<W: Write>(writer: &mut W, job: &Job) -> io::Result<()>
    ensures { Writes (W.contents writer.old) (W.contents writer.new) result
        (text_of (stroked_lines (accepted job.now))) }
{
    let mut places = [Command::Close; PLACES];
    let mut list = RecordList::new(&mut places);
    let mut host = SeriesHost::new();
    let answer = stroke_into(
        job.commands.as_slice(),
        job.style,
        job.dashes.as_slice(),
        MOST_STEPS,
        &mut list,
        &mut host,
    );
    print_drawn(writer, list.finish(), answer)
}
