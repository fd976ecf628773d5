use arcs::arc_to::{ArcSize, ArcSweep, ArcTo};
use arcs::ellipse::arc_curves;
use arcs::lone_arc::arc;
use maths::series::SeriesHost;
use path::command::Command;
use path::geometry::Point;
use path::refusal::{Reason, Refusal};
use sinks::record_list::RecordList;
use sinks::sink::ReadableSink;

// An arc of almost a whole circle, so of four curves, unless its ends are one point.
fn to(x: f32, rx: f32, ry: f32) -> ArcTo {
    ArcTo {
        from: Point::new(0.0, 0.0),
        rx,
        ry,
        angle: 0.0,
        size: ArcSize::Large,
        sweep: ArcSweep::Positive,
        to: Point::new(x, 0.0),
    }
}

fn refused(reason: Reason, sent: u64) -> Result<u64, Refusal> {
    Err(Refusal {
        reason,
        place: 0,
        sent,
    })
}

// What the call answers, and how many commands a list over four places then holds.
fn drawn(a: ArcTo) -> (Result<u64, Refusal>, usize) {
    let mut places = [Command::Close; 4];
    let mut list = RecordList::new(&mut places);
    let answer = arc(a, &mut list, &mut SeriesHost::new());
    (answer, list.len())
}

// A radius of 0 is asked about first, and so also where the ends are one point.
#[test]
fn radii_of_zero(rt: HostRuntime) {
    let no = refused(Reason::ZeroRadius, 0);
    for x in [8.0, 0.0] {
        assert!(rt; drawn(to(x, 0.0, 5.0)) == (no, 0));
        assert!(rt; drawn(to(x, 5.0, 0.0)) == (no, 0));
        assert!(rt; drawn(to(x, -0.0, 5.0)) == (no, 0));
        assert!(rt; drawn(to(x, 5.0, -0.0)) == (no, 0));
    }
}

// Only 0 is refused: a NaN passes, and a radius below 0 counts without its sign.
#[test]
fn other_radii(rt: HostRuntime) {
    let (answer, held) = drawn(to(8.0, f32::NAN, 5.0));
    assert!(rt; answer == Ok(1));
    assert_eq!(rt; held, 1);
    assert!(rt; drawn(to(0.02, -100.0, 100.0)) == (Ok(4), 4));
    assert!(rt; drawn(to(0.02, 100.0, 100.0)) == (Ok(4), 4));
}

#[test]
fn equal_ends(rt: HostRuntime) {
    assert!(rt; drawn(to(0.0, 5.0, 5.0)) == (Ok(0), 0));
    assert!(rt; drawn(to(0.0, f32::NAN, 5.0)) == (Ok(0), 0));
}

// Two of the four curves fit, and they stay.
#[test]
fn too_few_places(rt: HostRuntime) {
    let a = to(0.02, 100.0, 100.0);
    let few = arc_curves(a, true, &mut SeriesHost::new());
    let mut places = [Command::Close; 2];
    let mut list = RecordList::new(&mut places);
    let answer = arc(a, &mut list, &mut SeriesHost::new());
    assert!(rt; answer == refused(Reason::SinkRefused, 2));
    assert_eq!(rt; list.len(), 2);
    assert!(rt; list.get(0) == few.get(0));
    assert!(rt; list.get(1) == few.get(1));
}
