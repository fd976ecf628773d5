use path::command::Command;
use path::geometry::{Point, Vector};
use sinks::bounding_box::BoundingBox;
use sinks::bounds::Bounds;
use sinks::record_list::RecordList;
use sinks::shifted::Shifted;
use sinks::sink::{ReadableSink, Refused, Sink};

const BY: Vector = Vector { x: 10.0, y: -1.0 };

fn at(x: f32, y: f32) -> Point {
    Point { x, y }
}

// A box that is written out wants a proof that its corners are in order, which the search does not find.
fn corners(b: Option<BoundingBox>) -> Option<(Point, Point)> {
    b.map(|b| (b.low, b.high))
}

// The box lies above the shift, so it has the points as they came; the third command is refused, so
// its point does not count.
#[test]
fn bounds_over_shifted(rt: HostRuntime) {
    let mut places = [Command::Close; 2];
    let list = RecordList::new(&mut places);
    let mut pile = Bounds::new(Shifted::new(list, BY));
    assert!(rt; pile.line_to(at(1.0, 2.0)) == Ok(()));
    assert!(rt; pile.curve_to(at(-3.0, 0.0), at(0.0, 9.0), at(1.0, 1.0)) == Ok(()));
    assert!(rt; pile.move_to(at(99.0, 99.0)) == Err(Refused));
    assert!(rt; corners(pile.bounds()) == Some((at(-3.0, 0.0), at(1.0, 9.0))));
    let list = pile.into_inner().into_inner();
    assert_eq!(rt; list.len(), 2);
    assert!(rt; list.get(0) == Some(Command::LineTo(at(11.0, 1.0))));
    assert!(rt; list.get(1) == Some(Command::CurveTo(at(7.0, -1.0), at(10.0, 8.0), at(11.0, 0.0))));
    assert!(rt; list.get(2) == None);
}

// The box lies below the shift, so it has the moved points.
#[test]
fn shifted_over_bounds(rt: HostRuntime) {
    let mut places = [Command::Close; 2];
    let list = RecordList::new(&mut places);
    let mut pile = Shifted::new(Bounds::new(list), BY);
    assert!(rt; pile.line_to(at(1.0, 2.0)) == Ok(()));
    assert!(rt; pile.close() == Ok(()));
    let below = pile.into_inner();
    assert!(rt; corners(below.bounds()) == Some((at(11.0, 1.0), at(11.0, 1.0))));
    let list = below.into_inner();
    assert!(rt; list.get(0) == Some(Command::LineTo(at(11.0, 1.0))));
    assert!(rt; list.get(1) == Some(Command::Close));
}

// A point with a NaN in either coordinate is passed over, and infinities count.
#[test]
fn box_of_odd_numbers(rt: HostRuntime) {
    let mut places = [Command::Close; 5];
    let mut sink = Bounds::new(RecordList::new(&mut places));
    assert!(rt; sink.close() == Ok(()));
    assert!(rt; sink.move_to(at(f32::NAN, 1.0)) == Ok(()));
    assert!(rt; sink.bounds().is_none());
    assert!(rt; sink.line_to(at(f32::INFINITY, 1.0)) == Ok(()));
    assert!(rt; sink.line_to(at(7.0, f32::NAN)) == Ok(()));
    assert!(rt; sink.line_to(at(f32::NEG_INFINITY, 2.0)) == Ok(()));
    let low = at(f32::NEG_INFINITY, 1.0);
    let high = at(f32::INFINITY, 2.0);
    assert!(rt; corners(sink.bounds()) == Some((low, high)));
}

// Of two zeros the first stays: one divided by it tells its sign.
#[test]
fn box_of_two_zeros(rt: HostRuntime) {
    let mut places = [Command::Close; 2];
    let mut sink = Bounds::new(RecordList::new(&mut places));
    assert!(rt; sink.move_to(at(-0.0, 0.0)) == Ok(()));
    assert!(rt; sink.move_to(at(0.0, -0.0)) == Ok(()));
    assert_eq!(rt;
        sink.bounds().map(|b| (1.0 / b.low.x, 1.0 / b.high.y)),
        Some((f32::NEG_INFINITY, f32::INFINITY))
    );
}

// A full list refuses, and what it handed out is what it took; the places after that are as they were.
#[test]
fn full_list(rt: HostRuntime) {
    let p = at(3.0, 4.0);
    let mut places = [Command::LineTo(p); 3];
    let (front, _) = places.split_at_mut(2);
    let mut list = RecordList::new(front);
    assert!(rt; list.close() == Ok(()));
    assert!(rt; list.move_to(p) == Ok(()));
    assert!(rt; list.close() == Err(Refused));
    assert_eq!(rt; list.len(), 2);
    assert!(rt; list.get(2) == None);
    assert_eq!(rt; list.finish().len(), 2);
    assert!(rt; places.get(2).copied() == Some(Command::LineTo(p)));
}

#[test]
fn no_places(rt: HostRuntime) {
    let mut places = [];
    let mut list = RecordList::new(&mut places);
    assert!(rt; list.close() == Err(Refused));
    assert_eq!(rt; list.len(), 0);
}
