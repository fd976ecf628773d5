use crate::record::{Noted, PARTS, WHOLE, Way, Wide};
use arcs::arc_to::ArcTo;
use path::command::Command;
use path::geometry::Point;
use std::num::{f32_from_bits_with_nan, f32_to_bits_with_nan, f32_to_f64_with_nan};

/// How the curves of an arc compare with what was noted of it.
#[derive(Clone, Copy)]
pub(crate) struct Compared {
    pub count: Count,
    /// How far the last point lies from the arc's end, in chords; 0 without curves, which are too few.
    pub at_end: f64,
    /// How far a middle or an end of a curve lies from its place at most, beyond what two units in
    /// the last place account for, in sizes of the arc; 0 where no places are noted.
    pub on_way: f64,
}

/// All are counted, so none is an error.
#[derive(Clone, Copy)]
pub(crate) enum Count {
    /// A number is NaN or infinite.
    NotFinite,
    /// Fewer curves than quarters are begun.
    TooFew,
    /// A curve for each quarter begun.
    AsMany,
    /// Up to four.
    More,
    /// Where the arc goes does not fit.
    Unknown,
}

/// The curves against the places.
pub(crate) fn compare(noted: Noted<'_>, curves: &[Command]) -> Compared {
    let ends = [Wide::from(noted.arc.from), Wide::from(noted.arc.to)];
    let [from, to] = ends;
    let chord = from.distance(to);
    let at_end = match curves.last() {
        Some(Command::CurveTo(_, _, end)) => Wide::from(*end).distance(to) / chord,
        _ => 0.0,
    };
    Compared {
        count: count_of(noted, curves),
        at_end,
        on_way: match noted.way {
            Some(way) => worst_on_way(noted.arc, way, curves),
            None => 0.0,
        },
    }
}

fn count_of(noted: Noted<'_>, curves: &[Command]) -> Count {
    if !curves.iter().all(|curve| is_finite(*curve)) {
        return Count::NotFinite;
    }
    match noted.way {
        None => Count::Unknown,
        Some(way) if curves.len() < usize::from(way.fewest) => Count::TooFew,
        Some(way) if curves.len() == usize::from(way.fewest) => Count::AsMany,
        Some(_) => Count::More,
    }
}

fn is_finite(curve: Command) -> bool {
    match curve {
        Command::CurveTo(b, c, d) => [b, c, d].iter().all(|p| p.x.is_finite() && p.y.is_finite()),
        _ => false,
    }
}

fn worst_on_way(arc: ArcTo, way: Way<'_>, curves: &[Command]) -> f64 {
    let step = last_place(arc.from).max(last_place(arc.to));
    let mut from = arc.from;
    let mut worst: f64 = 0.0;
    // Twice as many parts, each curve having a middle and an end.
    let part = WHOLE / curves.len().max(1) / 2;
    for (i, curve) in curves.iter().enumerate() {
        let Command::CurveTo(b, c, d) = *curve else {
            return f64::NAN;
        };
        let middle = part.saturating_mul(i.saturating_mul(2).saturating_add(1));
        let at_middle = halfway(from, b, c, d).off(way, middle);
        let at_end = Wide::from(d).off(way, middle.saturating_add(part));
        worst = larger(worst, larger(at_middle, at_end));
        from = d;
    }
    larger(worst - 2.0 * step, 0.0) / f32_to_f64_with_nan(way.size)
}

// How far apart floats are at the larger part of a point.
fn last_place(p: Point) -> f64 {
    let part = p.x.abs().max(p.y.abs());
    let next = f32_from_bits_with_nan(f32_to_bits_with_nan(part).saturating_add(1));
    f32_to_f64_with_nan(next) - f32_to_f64_with_nan(part)
}

impl From<Point> for Wide {
    fn from(p: Point) -> Wide {
        Wide {
            x: f32_to_f64_with_nan(p.x),
            y: f32_to_f64_with_nan(p.y),
        }
    }
}

impl Wide {
    fn distance(self, other: Wide) -> f64 {
        let (x, y) = (self.x - other.x, self.y - other.y);
        (x * x + y * y).sqrt()
    }

    // How far it lies from the place at a part of an arc; the end is measured by itself.
    fn off(self, way: Way<'_>, part: usize) -> f64 {
        let place = PARTS.iter().position(|noted| *noted == part);
        match place.and_then(|place| way.places.get(place)) {
            Some(place) => self.distance(Wide::from(*place)),
            None => 0.0,
        }
    }
}

// The point of a curve at the time 1/2.
fn halfway(a: Point, b: Point, c: Point, d: Point) -> Wide {
    let [a, b, c, d] = [a, b, c, d].map(Wide::from);
    Wide {
        x: (a.x + 3.0 * (b.x + c.x) + d.x) / 8.0,
        y: (a.y + 3.0 * (b.y + c.y) + d.y) / 8.0,
    }
}

// NaN where one of the two is, which `max` passes over.
fn larger(x: f64, y: f64) -> f64 {
    if x >= y || x != x { x } else { y }
}
