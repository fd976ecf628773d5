use arcs::arc_to::{ArcSize, ArcSweep, ArcTo};
use arcs::ellipse::arc_curves;
use maths::series::SeriesHost;
use path::command::Command;
use path::geometry::Point;

// Arcs on which the Rust errs against the notes on elliptical arcs; expected is what the notes say.

fn circle(radius: f32, size: ArcSize, sweep: ArcSweep, to: Point) -> ArcTo {
    ArcTo {
        from: Point::new(0.0, 0.0),
        rx: radius,
        ry: radius,
        angle: 0.0,
        size,
        sweep,
        to,
    }
}

// How many curves the arc has, and where the last of them ends.
fn drawn(arc: ArcTo) -> (usize, Point) {
    let few = arc_curves(arc, true, &mut SeriesHost::new());
    let curves = few.as_slice();
    let end = match curves.last() {
        Some(Command::CurveTo(_, _, end)) => *end,
        _ => arc.from,
    };
    (curves.len(), end)
}

fn near(p: Point, q: Point, bound: f32) -> bool {
    p.nearly_eq_by(q, bound)
}

// Where the curve of this number ends.
fn end_of(arc: ArcTo, number: usize) -> Point {
    let few = arc_curves(arc, true, &mut SeriesHost::new());
    match few.get(number) {
        Some(Command::CurveTo(_, _, end)) => end,
        _ => arc.from,
    }
}

// Far more than half a turn, between ends that are close: by the other way round the top is the centre's
// other side.
#[test]
fn large_between_close_ends(rt: HostRuntime) {
    let to = Point::new(0.02, 0.0);
    for (sweep, top) in [(ArcSweep::Positive, -200.0), (ArcSweep::Negative, 200.0)] {
        let arc = circle(100.0, ArcSize::Large, sweep, to);
        assert!(rt; drawn(arc) == (4, to));
        assert!(rt; near(end_of(arc, 1), Point::new(0.01, top), 0.001));
    }
}

#[test]
fn small_and_falling(rt: HostRuntime) {
    let to = Point::new(0.000001, 0.000001);
    assert!(rt; drawn(circle(100.0, ArcSize::Small, ArcSweep::Negative, to)) == (1, to));
}

// An arc beside whose radius the chord is short is about as long as the chord, and ends at its end.
#[test]
fn short_beside_the_radius(rt: HostRuntime) {
    let to = Point::new(1.0, 0.0);
    for radius in [4000.0, 5e9, 1e30] {
        let arc = circle(radius, ArcSize::Small, ArcSweep::Positive, to);
        assert!(rt; drawn(arc) == (1, to));
    }
    let far = ArcTo {
        from: Point::new(10.0, 10.0),
        ..circle(
            100.0,
            ArcSize::Small,
            ArcSweep::Positive,
            Point::new(10.02, 10.0),
        )
    };
    assert!(rt; drawn(far) == (1, Point::new(10.02, 10.0)));
}

// The control points lie at a third and at two thirds of so flat an arc.
#[test]
fn points_between_close_ends(rt: HostRuntime) {
    let to = Point::new(1.0, 0.0);
    let arc = circle(4000.0, ArcSize::Small, ArcSweep::Positive, to);
    let few = arc_curves(arc, true, &mut SeriesHost::new());
    let Some(Command::CurveTo(b, c, _)) = few.get(0) else {
        return assert!(rt; false);
    };
    assert!(rt; near(b, Point::new(0.33333, -0.00004), 0.0001));
    assert!(rt; near(c, Point::new(0.66667, -0.00004), 0.0001));
}

#[test]
fn thin_and_turned(rt: HostRuntime) {
    let to = Point::new(-904.8598, 568.4337);
    let arc = ArcTo {
        from: Point::new(28.150208, 38.967102),
        rx: 987.7565,
        ry: 0.009922631,
        angle: 6.6531067,
        size: ArcSize::Small,
        sweep: ArcSweep::Positive,
        to,
    };
    let (_, end) = drawn(arc);
    assert!(rt; end == to);
}

#[test]
fn a_tiny_circle(rt: HostRuntime) {
    let to = Point::new(1e-12, 0.0);
    let (n, end) = drawn(circle(1e-12, ArcSize::Small, ArcSweep::Positive, to));
    assert_eq!(rt; n, 1);
    assert!(rt; near(end, to, 1e-15));
}

// Radii that are too small grow to half the chord, however small they are.
#[test]
fn too_small_a_radius(rt: HostRuntime) {
    let to = Point::new(8.0, 0.0);
    let (n, end) = drawn(circle(1.0, ArcSize::Small, ArcSweep::Positive, to));
    assert_eq!(rt; n, 2);
    assert!(rt; near(end, to, 0.01));
    let to = Point::new(2.0, 0.0);
    for radius in [1e-20, 5.421e-20, 1e-45] {
        let arc = circle(radius, ArcSize::Small, ArcSweep::Positive, to);
        assert!(rt; drawn(arc) == (2, to));
        assert!(rt; near(end_of(arc, 0), Point::new(1.0, -1.0), 0.000001));
    }
}

// Half a circle over ends whose difference is too large for an f32.
#[test]
fn ends_far_apart(rt: HostRuntime) {
    let to = Point::new(-3e38, 0.0);
    let arc = ArcTo {
        from: Point::new(3e38, 0.0),
        ..circle(5.0, ArcSize::Small, ArcSweep::Positive, to)
    };
    assert!(rt; drawn(arc) == (2, to));
    assert!(rt; near(end_of(arc, 0), Point::new(0.0, 3e38), 1e32));
}

// The start of these curves is far from the arc's start, though they end at its end.
#[test]
fn astray_from_the_start(rt: HostRuntime) {
    let to = Point::new(628997.1, -7.8242864e-12);
    let arc = ArcTo {
        from: Point::new(6.0436971e11, -3.1478396e-28),
        rx: 1.0882717e21,
        ry: 2.3626778e29,
        angle: -0.74206656,
        size: ArcSize::Small,
        sweep: ArcSweep::Positive,
        to,
    };
    assert!(rt; drawn(arc) == (1, to));
}

// A NaN leaves no arc, but a line to the end.
#[test]
fn no_number(rt: HostRuntime) {
    let to = Point::new(1.0, 0.0);
    let arc = circle(f32::NAN, ArcSize::Small, ArcSweep::Positive, to);
    let few = arc_curves(arc, true, &mut SeriesHost::new());
    assert!(rt; few.as_slice() == [Command::CurveTo(arc.from, to, to)].as_slice());
}

#[test]
fn ends_that_are_one_point(rt: HostRuntime) {
    let (n, _) = drawn(circle(
        5.0,
        ArcSize::Large,
        ArcSweep::Positive,
        Point::new(0.0, 0.0),
    ));
    assert_eq!(rt; n, 0);
}

// The arc of a round join of width 4096, at the corner of M 0 0, L 543 -840, L 1086.41 -1679.46: not alone, and
// zeno's but for the host, which stays at its start, 1.31 from its end.
#[test]
fn a_join_that_misses(rt: HostRuntime) {
    let to = Point::new(-1176.2247, -1952.9106);
    let join = ArcTo {
        from: Point::new(-1176.934, -1951.8145),
        ..circle(2048.0, ArcSize::Small, ArcSweep::Positive, to)
    };
    let stays = Point::new(-1176.9338, -1951.8145);
    let few = arc_curves(join, false, &mut SeriesHost::new());
    let Some(Command::CurveTo(_, _, end)) = few.get(0) else {
        return assert!(rt; false);
    };
    assert!(rt; near(end, stays, 0.001));
    assert!(rt; !near(end, to, 1.0));
    assert!(rt; drawn(join) == (1, to));
}
