use curves::line::Line;
use dashes::dasher::{DashOp, Dasher, Range};
use dashes::pattern::Pattern;
use dashes::steps::{Spent, Steps};
use path::geometry::Point;
use segments::mark::SegmentId;
use segments::segment::Segment;
use std::alloc::{AllocError, Global};
use storage::storage::Storage;
use storage::storage128::Storage128;

// The expected ranges and steps are the Rust's own, its files built unchanged.

fn line(x: f32, y: f32, to_x: f32, to_y: f32) -> Segment {
    Segment::Line(
        SegmentId::first(),
        Line::new(Point::new(x, y), Point::new(to_x, to_y)),
    )
}

fn straight(len: f32) -> Storage128 {
    let mut storage = Storage128::new();
    let _ = storage.push(line(0.0, 0.0, len, 0.0));
    storage
}

// A square of side 8.
fn square() -> Storage128 {
    let mut storage = Storage128::new();
    let _ = storage.push(line(0.0, 0.0, 8.0, 0.0));
    let _ = storage.push(line(8.0, 0.0, 8.0, 8.0));
    let _ = storage.push(line(8.0, 8.0, 0.0, 8.0));
    let _ = storage.push(line(0.0, 8.0, 0.0, 0.0));
    storage
}

fn range(start: isize, end: isize, t0: f32, t1: f32) -> Range {
    Range { start, end, t0, t1 }
}

// Whether another step is to come.
fn goes_on(op: DashOp) -> bool {
    matches!(op, DashOp::Continue | DashOp::Emit(_))
}

// The ranges of a walk, and its steps.
fn walk(
    heap: Global,
    closed: bool,
    pattern: Pattern,
    storage: &Storage128,
) -> Result<(Vec<Range>, u32), AllocError> {
    let mut steps = Steps::new(20);
    let mut dasher = Dasher::init(closed, pattern);
    for _ in 0..20 {
        if !dasher.seeks() || steps.spend().is_err() {
            break;
        }
        dasher.seek();
    }
    let mut ranges = Vec::new(heap);
    for _ in 0..20 {
        if steps.spend().is_err() {
            break;
        }
        let op = dasher.next(storage);
        if let DashOp::Emit(range) = op {
            ranges.push(range)?;
        }
        if !goes_on(op) {
            break;
        }
    }
    Ok((ranges, steps.taken()))
}

fn walked(
    heap: Global,
    closed: bool,
    lengths: &[f32],
    offset: f32,
    storage: &Storage128,
) -> Result<(Vec<Range>, u32), AllocError> {
    match Pattern::new(lengths, offset) {
        None => Ok((Vec::new(heap), 0)),
        Some(pattern) => walk(heap, closed, pattern, storage),
    }
}

// Over a line 16 long, from offset 0 and from 8, and from -8, where a gap of 0 comes first.
#[test]
fn dashes_along_line(rt: HostRuntime) -> Result<(), AllocError> {
    let expected = [
        range(0, 0, 0.0, 0.25),
        range(0, 0, 0.5, 0.75),
        range(0, 0, 1.0, 1.0),
    ];
    for (offset, steps) in [(0.0, 6), (8.0, 6), (-8.0, 8)] {
        let (ranges, taken) = walked(rt.alloc(), false, &[4.0, 4.0], offset, &straight(16.0))?;
        assert!(rt; ranges.as_slice() == expected.as_slice());
        assert_eq!(rt; taken, steps);
    }
    Ok(())
}

// The last dash of the square goes on as its first one.
#[test]
fn dashes_along_square(rt: HostRuntime) -> Result<(), AllocError> {
    let (ranges, taken) = walked(rt.alloc(), true, &[12.0, 4.0], 0.0, &square())?;
    assert!(rt; ranges.as_slice() == [range(2, 3, 0.0, 0.5), range(-1, 1, 1.0, 0.5)].as_slice());
    assert_eq!(rt; taken, 6);
    Ok(())
}

// The gap of 0 makes one dash of 3 and 4.
#[test]
fn dash_over_empty_gap(rt: HostRuntime) -> Result<(), AllocError> {
    let (ranges, taken) = walked(
        rt.alloc(),
        false,
        &[3.0, 0.0, 4.0, 2.0],
        0.0,
        &straight(16.0),
    )?;
    assert!(rt;
        ranges.as_slice() == [range(0, 0, 0.0, 0.4375), range(0, 0, 0.5625, 1.0)].as_slice()
    );
    assert_eq!(rt; taken, 4);
    Ok(())
}

// A dash of NaN leaves the line's end for no time.
#[test]
fn dash_departs(rt: HostRuntime) -> Result<(), AllocError> {
    let (ranges, taken) = walked(
        rt.alloc(),
        false,
        &[4.0, 4.0, f32::NAN],
        0.0,
        &straight(8.0),
    )?;
    let departs = ranges.get(1).is_some_and(|r| r.departs());
    assert_eq!(rt; (ranges.len(), taken, departs), (2, 4, true));
    Ok(())
}

#[test]
fn patterns(rt: HostRuntime) {
    assert!(rt; Pattern::new(&[2.0], 0.0).is_some());
    assert!(rt; Pattern::new(&[1.0], 0.0).is_some());
    assert!(rt; Pattern::new(&[0.5], 0.0).is_none());
    assert!(rt; Pattern::new(&[0.5, 0.5], 0.0).is_none());
    assert!(rt; Pattern::new(&[2.0, 0.5], 0.0).is_none());
    assert!(rt; Pattern::new(&[2.0, f32::NAN, 2.0, 4.0], 0.0).is_none());
    assert!(rt; Pattern::new(&[f32::NAN, 4.0], 0.0).is_some());
    assert!(rt; Pattern::new(&[f32::NAN], 0.0).is_some());
}

// As many steps as the budget admits.
#[test]
fn steps_are_spent(rt: HostRuntime) {
    let mut steps = Steps::new(2);
    assert!(rt; steps.spend() == Ok(()));
    assert!(rt; steps.spend() == Ok(()));
    assert!(rt; steps.spend() == Err(Spent));
    assert_eq!(rt; steps.taken(), 2);
}
