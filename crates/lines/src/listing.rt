ghost use Rattle.std.specs.Prelude.{◌≡◌, drop, IfSome, OnOk, Some};
ghost use Rattle.lines.specs.Listing.{style_lines, total, accepted, job_lines, listing_of};
ghost use Rattle.lines.specs.Printing.{text_of};
ghost use Rattle.lines.specs.Streams.{Writes};

use crate::line::PrintedLine;
use crate::printing::{print, print_all};
use crate::program::{Program, run};
use job::item::Item;
use job::whole::Job;
use path::style::Stroke;
use std::io;
use std::io::{Read, Write};

/// Prints what a job holds: the style, the dashes, the path, and how many of them. A job that is refused
/// is printed as its refusal alone.
pub fn listing<R: Read, W: Write>(reader: &mut R, writer: &mut W) -> io::Result<()>
    ensures text { IfSome (R.remaining reader.old) (λ bytes.
        Writes (W.contents writer.old) (W.contents writer.new) result
        (listing_of bytes)) }
    ensures left { OnOk result (IfSome (R.remaining reader.old) (λ bytes.
        R.remaining reader.new ≡ Some (drop 8192 bytes))) }
{
    run(reader, writer, Held)
}

#[derive(Clone, Copy)]
struct Held;

impl Program for Held {
    ghost lines = { λ p. job_lines };

    fn report<W: Write>(self, writer: &mut W, job: &Job) -> io::Result<()> {
        print_job(writer, job)
    }
}

fn print_job<W: Write>(writer: &mut W, job: &Job) -> io::Result<()>
    ensures { Writes (W.contents writer.old) (W.contents writer.new) result
        (text_of (job_lines (accepted job.now))) }
{
    print_all(writer, &style_lines(job.style))?;
    print_all(writer, job.dashes.as_slice())?;
    print_all(writer, job.commands.as_slice())?;
    print(writer, total(job))
}

fn total(job: &Job) -> PrintedLine
    ensures { result ≡ total (accepted job.now) }
{
    PrintedLine::Held {
        commands: job.commands.len(),
        dashes: job.dashes.len(),
    }
}

fn style_lines(s: Stroke) -> [PrintedLine; 6]
    ensures { result ≡ style_lines s }
{
    [
        PrintedLine::Item(Item::Width(s.width)),
        PrintedLine::Item(Item::Join(s.join)),
        PrintedLine::Item(Item::MiterLimit(s.miter_limit)),
        PrintedLine::Item(Item::StartCap(s.start_cap)),
        PrintedLine::Item(Item::EndCap(s.end_cap)),
        PrintedLine::Item(Item::Offset(s.offset)),
    ]
}
