ghost use Rattle.std.specs.Prelude.{drop, length, take, IfSome, OnOk, Some, ◌≡◌};
ghost use Rattle.job.specs.Sayings.{said_by};
ghost use Rattle.lines.specs.Listing.{accepted, reported};
ghost use Rattle.lines.specs.Printing.{text_of};
ghost use Rattle.lines.specs.Streams.{Writes};
ghost use Rattle.stroke_lines.specs.Replayed.{replay_of, replayed_lines};
ghost use Rattle.stroke_lines.specs.Settings.{values};

use crate::drawn::print_drawn;
use crate::setting::Setting;
use job::reader::JobReader;
use job::whole::Job;
use lines::line::PrintedLine;
use lines::printing::{print, println};
use lines::reading::read_up_to;
use maths::table::TableHost;
use path::command::Command;
use segments::segment::Segment;
use sinks::record_list::RecordList;
use std::alloc::Global;
use std::io;
use std::io::{Read, Write};
use storage::lent_storage::LentStorage;
use stroke::calls::stroke_with_storage;

// The four numbers, the rows, the job, and one byte that shows that it goes on.
const MOST_BYTES: usize = 16 + 9 * 65_536 + 131_072 + 1;

const MOST_COMMANDS: usize = 4096;

const MOST_DASHES: usize = 32;

/// Reads a setting and replays it. Of the bytes the first 720,913 are read, and those after them stay
/// unread. Where it fails, also for want of memory, a front of the text was written.
pub fn replay<R: Read, W: Write>(heap: Global, reader: &mut R, writer: &mut W) -> io::Result<()>
    ensures text { IfSome (R.remaining reader.old) (λ bytes.
        Writes (W.contents writer.old) (W.contents writer.new) result
        (replay_of (take 720913 bytes))) }
    ensures left { OnOk result (IfSome (R.remaining reader.old) (λ bytes.
        R.remaining reader.new ≡ Some (drop 720913 bytes))) }
{
    let bytes = read_up_to(heap, reader, MOST_BYTES)?;
    replay_bytes(heap, writer, &bytes)
}

/// Replays the setting that the bytes tell, or prints why they tell none. Where it fails, also for want
/// of memory, a front of the text was written.
#[tactic(auto, unfolding(crate::specs::Replayed::replay_of))]
pub fn replay_bytes<W: Write>(heap: Global, writer: &mut W, bytes: &[u8]) -> io::Result<()>
    ensures { Writes (W.contents writer.old) (W.contents writer.new) result (replay_of bytes.now) }
{
    match Setting::read(bytes) {
        Ok(setting) => replay_setting(heap, writer, setting),
        Err(why) => println(writer, why),
    }
}

/// Reads a setting's job, strokes it with the setting's rows as the maths, and prints the lines of the
/// commands that were sent and of the answer. A job that is refused is not stroked, and its refusal is
/// printed alone. Where it fails, also for want of memory, a front of the text was written.
pub fn replay_setting<W: Write>(heap: Global, writer: &mut W, setting: Setting) -> io::Result<()>
    ensures { Writes (W.contents writer.old) (W.contents writer.new) result
        (text_of (reported (replayed_lines (values setting.entry))
        (said_by 4096 32 setting.entry.job.now))) }
{
    let mut commands = vec![in heap; Command::Close; MOST_COMMANDS]?;
    let mut dashes = [0.0; MOST_DASHES];
    let mut job = Job::new(&mut commands, &mut dashes);
    match JobReader::new(setting.job).read(&mut job) {
        Ok(()) => replay_job(heap, writer, setting, &job),
        Err(refusal) => print(writer, PrintedLine::Refused(refusal)),
    }
}

fn replay_job<W: Write>(heap: Global, writer: &mut W, setting: Setting, job: &Job) -> io::Result<()>
    ensures { Writes (W.contents writer.old) (W.contents writer.new) result
        (text_of (replayed_lines (values setting.entry) (accepted job.now))) }
{
    let mut places = vec![in heap; Command::Close; setting.places]?;
    let mut segments = vec![in heap; Segment::End(false); setting.segments]?;
    replay_in(writer, setting, job, &mut places, &mut segments)
}

// In places that are lent.
fn replay_in<W: Write>(
    writer: &mut W,
    setting: Setting,
    job: &Job,
    places: &mut [Command],
    segments: &mut [Segment],
) -> io::Result<()>
    requires places { length places.old ≡ setting.places }
    requires segments { length segments.old ≡ setting.segments }
    ensures { Writes (W.contents writer.old) (W.contents writer.new) result
        (text_of (replayed_lines (values setting.entry) (accepted job.now))) }
{
    let mut list = RecordList::new(places);
    let mut storage = LentStorage::new(segments);
    let mut host = TableHost::from_bytes(setting.rows);
    let answer = stroke_with_storage(
        job.commands.as_slice(),
        job.style,
        job.dashes.as_slice(),
        setting.budget,
        &mut list,
        &mut storage,
        &mut host,
    );
    print_drawn(writer, list.finish(), answer)
}
