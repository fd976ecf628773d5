use job::byte_sink::ByteSink;
use job::float::float_of;
use job::reader::JobReader;
use job::tape::Tape;
use job::whole::Job;
use maths::series::SeriesHost;
use path::command::Command;
use path::geometry::{Point, Vector};
use path::style::{Cap, Join, Stroke};
use sinks::bounds::Bounds;
use sinks::record_list::RecordList;
use sinks::shifted::Shifted;
use sinks::sink::{ReadableSink, Refused, Sink};
use stroke::calls::stroke_into;

const BY: Vector = Vector { x: 10.0, y: -1.0 };

const MOST_STEPS: u32 = 65_536;

fn at(x: f32, y: f32) -> Point {
    Point { x, y }
}

fn curve() -> Command {
    Command::CurveTo(at(1.0, 2.0), at(3.0, 4.0), at(5.0, 6.0))
}

fn quad() -> Command {
    Command::QuadTo(at(1.0, 2.0), at(3.0, 4.0))
}

// Whether a tape over the bytes takes a command.
fn taken(bytes: &mut [u8], c: Command) -> bool {
    Tape::new(bytes).send(c).is_ok()
}

fn same(bytes: &[u8], row: &[u8]) -> bool {
    bytes == row
}

#[test]
fn exactly_enough(rt: HostRuntime) {
    assert!(rt; taken(&mut [7; 9], Command::MoveTo(at(1.0, 2.0))));
    assert!(rt; taken(&mut [7; 9], Command::LineTo(at(1.0, 2.0))));
    assert!(rt; taken(&mut [7; 25], curve()));
    assert!(rt; taken(&mut [7; 17], quad()));
    assert!(rt; taken(&mut [7; 1], Command::Close));
}

// One byte too few, and each stays as it was.
#[test]
fn one_short(rt: HostRuntime) {
    let mut eight = [7; 8];
    assert!(rt; !taken(&mut eight, Command::MoveTo(at(1.0, 2.0))));
    assert!(rt; !taken(&mut eight, Command::LineTo(at(1.0, 2.0))));
    assert_eq!(rt; eight, [7; 8]);
    let mut bytes = [7; 24];
    assert!(rt; !taken(&mut bytes, curve()));
    assert_eq!(rt; bytes, [7; 24]);
    let mut bytes = [7; 16];
    assert!(rt; !taken(&mut bytes, quad()));
    assert_eq!(rt; bytes, [7; 16]);
}

// A tape of no bytes.
#[test]
fn no_bytes(rt: HostRuntime) {
    let mut bytes = [];
    let mut tape = Tape::new(&mut bytes);
    assert!(rt; tape.close() == Err(Refused));
    assert_eq!(rt; tape.len(), 0);
    assert!(rt; tape.get(0) == None);
    assert!(rt; tape.finish().is_empty());
}

// Each record is a letter and its numbers, high byte first; the bytes after the records stay.
#[test]
fn records(rt: HostRuntime) {
    let mut bytes = [7; 12];
    let mut tape = Tape::new(&mut bytes);
    assert!(rt; tape.line_to(at(1.0, -2.5)) == Ok(()));
    assert!(rt; tape.send(quad()) == Err(Refused));
    assert!(rt; tape.close() == Ok(()));
    assert_eq!(rt; tape.len(), 2);
    assert!(rt; tape.get(0) == Some(Command::LineTo(at(1.0, -2.5))));
    assert!(rt; tape.get(1) == Some(Command::Close));
    assert!(rt; tape.get(2) == None);
    assert!(rt; tape.get(usize::MAX) == None);
    assert!(rt; same(tape.finish(), b"L\x3f\x80\x00\x00\xc0\x20\x00\x00Z"));
    assert_eq!(rt; bytes, *b"L\x3f\x80\x00\x00\xc0\x20\x00\x00Z\x07\x07");
}

// The same records by a byte sink, which is not ended.
#[test]
fn byte_sinks(rt: HostRuntime) {
    let mut bytes = [7; 12];
    let mut sink = ByteSink::new(&mut bytes);
    assert!(rt; sink.line_to(at(1.0, -2.5)) == Ok(()));
    assert!(rt; sink.send(quad()) == Err(Refused));
    assert!(rt; sink.close() == Ok(()));
    assert_eq!(rt; sink.used(), 10);
    assert_eq!(rt; bytes, *b"L\x3f\x80\x00\x00\xc0\x20\x00\x00Z\x07\x07");
}

#[test]
fn each_kind(rt: HostRuntime) {
    let mut bytes = [7; 61];
    let mut tape = Tape::new(&mut bytes);
    assert!(rt; tape.move_to(at(0.0, -0.0)) == Ok(()));
    assert!(rt; tape.line_to(at(1.0, 2.0)) == Ok(()));
    assert!(rt; tape.send(curve()) == Ok(()));
    assert!(rt; tape.send(quad()) == Ok(()));
    assert!(rt; tape.close() == Ok(()));
    assert!(rt; tape.close() == Err(Refused));
    assert_eq!(rt; tape.len(), 5);
    assert!(rt; tape.get(2) == Some(curve()));
    assert!(rt; tape.get(3) == Some(quad()));
    assert!(rt; tape.get(4) == Some(Command::Close));
    let letters = tape.finish();
    assert_eq!(rt; letters.len(), 61);
    assert_eq!(rt; letters.get(0).copied(), Some(b'M'));
    assert_eq!(rt; letters.get(9).copied(), Some(b'L'));
    assert_eq!(rt; letters.get(18).copied(), Some(b'C'));
    assert_eq!(rt; letters.get(43).copied(), Some(b'Q'));
    assert_eq!(rt; letters.get(60).copied(), Some(b'Z'));
}

// Every NaN is written by the same bits.
#[test]
fn nan_patterns(rt: HostRuntime) {
    let zero = at(0.0, 0.0);
    for x in [
        f32::NAN,
        zero.x / zero.y,
        -f32::NAN,
        float_of(0x7F80_0001),
        float_of(0x7FBF_FFFF),
        float_of(0x7FFF_FFFF),
        float_of(0xFF80_0001),
        float_of(0xFFC0_0000),
        float_of(0xFFFF_FFFF),
    ] {
        let mut bytes = [7; 9];
        let mut tape = Tape::new(&mut bytes);
        assert!(rt; tape.move_to(at(x, x)) == Ok(()));
        assert!(rt; same(tape.finish(), b"M\x7f\xc0\x00\x00\x7f\xc0\x00\x00"));
    }
}

// The infinities, the zeros and the smallest numbers keep their bits.
#[test]
fn odd_numbers(rt: HostRuntime) {
    let mut bytes = [7; 17];
    let mut tape = Tape::new(&mut bytes);
    let a = at(f32::INFINITY, f32::NEG_INFINITY);
    assert!(rt; tape.send(Command::QuadTo(a, at(-0.0, float_of(1)))) == Ok(()));
    assert!(rt;
        same(
            tape.finish(),
            b"Q\x7f\x80\x00\x00\xff\x80\x00\x00\x80\x00\x00\x00\x00\x00\x00\x01"
        )
    );
}

#[test]
fn bounds_over_shifted(rt: HostRuntime) {
    let mut bytes = [7; 10];
    let mut pile = Bounds::new(Shifted::new(Tape::new(&mut bytes), BY));
    assert!(rt; pile.line_to(at(1.0, 2.0)) == Ok(()));
    assert!(rt; pile.move_to(at(99.0, 99.0)) == Err(Refused));
    assert!(rt; pile.close() == Ok(()));
    assert!(rt; pile.bounds().map(|b| (b.low, b.high)) == Some((at(1.0, 2.0), at(1.0, 2.0))));
    let tape = pile.into_inner().into_inner();
    assert!(rt; tape.get(0) == Some(Command::LineTo(at(11.0, 1.0))));
    assert!(rt; same(tape.finish(), b"L\x41\x30\x00\x00\x3f\x80\x00\x00Z"));
}

#[test]
fn shifted_over_bounds(rt: HostRuntime) {
    let mut bytes = [7; 10];
    let mut pile = Shifted::new(Bounds::new(Tape::new(&mut bytes)), BY);
    assert!(rt; pile.line_to(at(1.0, 2.0)) == Ok(()));
    assert!(rt; pile.move_to(at(99.0, 99.0)) == Err(Refused));
    let below = pile.into_inner();
    assert!(rt; below.bounds().map(|b| (b.low, b.high)) == Some((at(11.0, 1.0), at(11.0, 1.0))));
    assert!(rt;
        same(
            below.into_inner().finish(),
            b"L\x41\x30\x00\x00\x3f\x80\x00\x00"
        )
    );
}

// A stroke straight onto a tape is the job of the commands that a list of records takes.
#[test]
fn stroke_onto_a_tape(rt: HostRuntime) {
    let path = [
        Command::MoveTo(at(0.0, 0.0)),
        Command::LineTo(at(10.0, 0.0)),
        Command::CurveTo(at(12.0, 0.0), at(14.0, 5.0), at(10.0, 9.0)),
        Command::QuadTo(at(4.0, 9.0), at(1.0, 5.0)),
        Command::Close,
        Command::MoveTo(at(20.0, 20.0)),
        Command::LineTo(at(25.0, 21.0)),
    ];
    let style = Stroke {
        width: 2.0,
        join: Join::Round,
        miter_limit: 4.0,
        start_cap: Cap::Round,
        end_cap: Cap::Square,
        offset: 0.0,
    };
    let mut bytes = [7; 4096];
    let mut tape = Tape::new(&mut bytes);
    let onto_tape = stroke_into(
        &path,
        style,
        &[],
        MOST_STEPS,
        &mut tape,
        &mut SeriesHost::new(),
    );
    let mut places = [Command::Close; 256];
    let mut list = RecordList::new(&mut places);
    let into_list = stroke_into(
        &path,
        style,
        &[],
        MOST_STEPS,
        &mut list,
        &mut SeriesHost::new(),
    );
    assert!(rt; onto_tape.is_ok());
    assert!(rt; onto_tape == into_list);
    assert!(rt; list.len() > 20);
    assert_eq!(rt; tape.len(), list.len());
    let mut commands = [Command::Close; 256];
    let mut dashes = [];
    let mut job = Job::new(&mut commands, &mut dashes);
    assert!(rt; JobReader::new(tape.finish()).read(&mut job).is_ok());
    assert!(rt; job.style == Stroke::default());
    assert!(rt; job.commands.as_slice() == list.finish());
}
