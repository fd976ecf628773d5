//! Reads drawings, each with the answers of a maths host, and prints what a cursor gives for them.
//! At a damaged drawing or a refused path it prints a line that says so, and ends.
#![tactic(auto)]

use crate::drawing::Drawings;
use crate::given::segments_of;
use crate::shown::Shown;
use job::reader::JobReader;
use job::whole::Job;
use lines::line::PrintedLine;
use maths::byte_rows::decoded;
use path::command::Command;
use segments::segment::Segment;
use std::io;
use std::io::Read;

mod drawing;
mod given;
mod shown;

const MOST_COMMANDS: usize = 4096;

fn main(rt: HostRuntime) -> io::Result<()> {
    let mut bytes = Vec::new(rt.alloc());
    rt.stdin().read_to_end(&mut bytes)?;
    let mut places = vec![in rt.alloc(); Command::Close; MOST_COMMANDS]?;
    for drawing in Drawings::new(&bytes) {
        let Ok(drawing) = drawing else {
            return println!(rt; "! a drawing is damaged");
        };
        let mut job = Job::new(&mut places, &mut []);
        if let Err(refusal) = JobReader::new(drawing.path).read(&mut job) {
            return println!(rt; "{}", PrintedLine::Refused(refusal));
        }
        let rows = decoded(rt.alloc(), drawing.rows)?;
        let segments = segments_of(rt.alloc(), drawing.split, job.commands.as_slice(), &rows)?;
        print_segments(&rt, &segments)?;
    }
    Ok(())
}

fn print_segments(rt: &HostRuntime, segments: &[Segment]) -> io::Result<()> {
    for segment in segments {
        println!(rt; "{}", Shown(*segment))?;
    }
    println!(rt; "= {}", segments.len())
}
