ghost use Rattle.std.specs.Prelude.{◌≡◌, ◌≤◌, [], length};
ghost use Rattle.job.specs.Readers.{start};
ghost use Rattle.job.specs.Sayings.{said, AsMany};
ghost use Rattle.job.specs.Whole.{whole};
ghost use Rattle.job.specs.ByteSinks.{over, spelling};
ghost use Rattle.stroke_export.specs.Drawings.{untouched, said_drawn, job_drawn, told_of, bytes_of, Writes};

use crate::answer::{Answer, told};
use curves::line::Line;
use job::byte_sink::ByteSink;
use job::reader::JobReader;
use job::whole::Job;
use maths::host::MathsHost;
use path::command::Command;
use path::geometry::Point;
use path::refusal::Refusal;
use segments::mark::SegmentId;
use segments::segment::Segment;
use storage::lent_storage::LentStorage;
use storage::storage::Storage;
use stroke::calls::stroke_with_storage;
use stroke::tally::Tally;

// What the places of a list hold at first: all of it zeros, which a single memset writes.
const ORIGIN: Point = Point { x: 0.0, y: 0.0 };

// How many places a list of commands has.
const FEW_COMMANDS: usize = 128;

const SOME_COMMANDS: usize = 1024;

const MOST_COMMANDS: usize = 4096;

const MOST_DASHES: usize = 32;

const MOST_SEGMENTS: usize = 4096;

const MOST_STEPS: u32 = 65_536;

// Reads a job and strokes it onto the bytes. A short job gives no more commands than it has bytes, and is
// read into a short list, which is sooner filled.
pub(crate) fn drawn<B: Storage, K: MathsHost>(
    job: &[u8],
    bytes: &mut [u8],
    storage: &mut B,
    host: &mut K,
) -> Answer
    ensures answer { result ≡ told_of (job_drawn (K.acts.functions host.old) (B.acts.capacity storage.old) job.now (length bytes.old)) }
    ensures bytes { bytes.new ≡ bytes_of (job_drawn (K.acts.functions host.old) (B.acts.capacity storage.old) job.now (length bytes.old)) bytes.old }
{
    if job.len() < FEW_COMMANDS {
        drawn_in::<FEW_COMMANDS, B, K>(job, bytes, storage, host)
    } else if job.len() < SOME_COMMANDS {
        drawn_in::<SOME_COMMANDS, B, K>(job, bytes, storage, host)
    } else {
        drawn_in::<MOST_COMMANDS, B, K>(job, bytes, storage, host)
    }
}

// By a list of so many commands.
fn drawn_in<const N: usize, B: Storage, K: MathsHost>(
    job: &[u8],
    bytes: &mut [u8],
    storage: &mut B,
    host: &mut K,
) -> Answer
    requires few { N ≤ 4096 }
    requires many { AsMany job.now N 4096 }
    ensures answer { result ≡ told_of (job_drawn (K.acts.functions host.old) (B.acts.capacity storage.old) job.now (length bytes.old)) }
    ensures bytes { bytes.new ≡ bytes_of (job_drawn (K.acts.functions host.old) (B.acts.capacity storage.old) job.now (length bytes.old)) bytes.old }
{
    let mut commands = [Command::MoveTo(ORIGIN); N];
    let mut dashes = [0.0; MOST_DASHES];
    let mut read = Job::new(&mut commands, &mut dashes);
    drawn_in_lists(job, &mut read, bytes, storage, host)
}

// With a storage of 4,096 segments.
pub(crate) fn drawn_long<K: MathsHost>(job: &[u8], bytes: &mut [u8], host: &mut K) -> Answer
    ensures answer { result ≡ told_of (job_drawn (K.acts.functions host.old) 4096 job.now (length bytes.old)) }
    ensures bytes { bytes.new ≡ bytes_of (job_drawn (K.acts.functions host.old) 4096 job.now (length bytes.old)) bytes.old }
{
    let mut places = [Segment::Line(SegmentId::first(), Line::new(ORIGIN, ORIGIN)); MOST_SEGMENTS];
    drawn(job, bytes, &mut LentStorage::new(&mut places), host)
}

// With lists that are lent.
fn drawn_in_lists<B: Storage, K: MathsHost>(
    job: &[u8],
    read: &mut Job,
    bytes: &mut [u8],
    storage: &mut B,
    host: &mut K,
) -> Answer
    ensures answer { result ≡ told_of (said_drawn (K.acts.functions host.old) (B.acts.capacity storage.old) (said (whole (start job.entry) read.old)) (untouched (length bytes.old))) }
    ensures bytes { bytes.new ≡ bytes_of (said_drawn (K.acts.functions host.old) (B.acts.capacity storage.old) (said (whole (start job.entry) read.old)) (untouched (length bytes.old))) bytes.old }
{
    let mut sink = ByteSink::new(bytes);
    let drawn = drawn_as_records(job, read, &mut sink, storage, host);
    told(sink.used(), drawn)
}

// The sink took nothing yet, and holds the commands' records in the end.
fn drawn_as_records<B: Storage, K: MathsHost>(
    bytes: &[u8],
    job: &mut Job,
    sink: &mut ByteSink,
    storage: &mut B,
    host: &mut K,
) -> Result<Tally, Refusal>
    requires { sink.old ≡ over sink.old.bytes [] }
    ensures answer { result ≡ (said_drawn (K.acts.functions host.old) (B.acts.capacity storage.old) (said (whole (start bytes.entry) job.old)) (untouched (length sink.old.bytes.now))).answer }
    ensures sink { sink.new ≡ over sink.old.bytes (said_drawn (K.acts.functions host.old) (B.acts.capacity storage.old) (said (whole (start bytes.entry) job.old)) (untouched (length sink.old.bytes.now))).sink.list }
{
    read_and_drawn(bytes, job, sink, storage, host)
}

// Reads a job and strokes it onto a sink.
fn read_and_drawn<B: Storage, K: MathsHost>(
    bytes: &[u8],
    job: &mut Job,
    sink: &mut ByteSink,
    storage: &mut B,
    host: &mut K,
) -> Result<Tally, Refusal>
    ensures outcome { let o = said_drawn (K.acts.functions host.old) (B.acts.capacity storage.old) (said (whole (start bytes.entry) job.old)) (spelling sink.old) in (result ≡ o.answer) × (spelling sink.new ≡ o.sink) }
    ensures writes { Writes sink.old sink.new }
{
    JobReader::new(bytes).read(job)?;
    stroke_with_storage(
        job.commands.as_slice(),
        job.style,
        job.dashes.as_slice(),
        MOST_STEPS,
        sink,
        storage,
        host,
    )
}
