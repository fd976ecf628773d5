ghost use Rattle.std.specs.Prelude.{◌≡◌, ◌≤◌, length};
ghost use Rattle.arcs.specs.Chords.{aside, frame_of, moved, stop, curve_to, half_cosine, short_curves, long_curves, chord_curves};

use crate::arc_to::{ArcSweep, ArcTo};
use crate::centre::{Turned, TurnedArc};
use crate::chord::{HalfChord, HalfTurn, divided, middle};
use crate::few::{Few, few};
use crate::radii::Radii;
use numbers::sqrt;
use path::command::Command;
use path::geometry::{Point, Vector};

/// The plane about an arc's chord: what lies so far along the chord, from its middle towards the
/// arc's start, and so far aside, towards the arc.
#[derive(Clone, Copy, PartialEq)]
pub struct Frame {
    pub turned: Turned,
    /// Directions on the circle that the ellipse becomes.
    pub along: Vector,
    pub aside: Vector,
    /// What the unit of lengths is along the ellipse's axes, multiplied by `by`.
    pub unit: Radii,
    pub by: f32,
}

/// A place where the curves of an arc meet, and which way the arc goes there, along its chord and aside.
#[derive(Clone, Copy, PartialEq)]
pub struct Stop {
    pub point: Point,
    pub way: Vector,
}

impl Stop {
    fn new(point: Point, along: f32, aside: f32) -> Stop
        ensures { result ≡ stop point along aside }
    {
        Stop {
            point,
            way: Vector::new(along, aside),
        }
    }
}

fn aside(sweep: ArcSweep, along: Vector) -> Vector
    ensures { result ≡ aside sweep along }
{
    match sweep {
        ArcSweep::Positive => Vector::new(-along.y, along.x),
        ArcSweep::Negative => Vector::new(along.y, -along.x),
    }
}

fn half_cosine(cosine: f32) -> f32
    ensures { result ≡ half_cosine cosine }
{
    sqrt((1.0 + cosine) / 2.0)
}

impl Frame {
    fn of(turned_arc: TurnedArc, half: HalfChord) -> Frame
        ensures { result ≡ frame_of turned_arc.arc turned_arc.turned half }
    {
        let TurnedArc { arc, turned } = turned_arc;
        let short = half.is_short(arc.size);
        let shrunk = half.radii.scaled(half.long);
        Frame {
            turned,
            along: half.along,
            aside: aside(arc.sweep, half.along),
            unit: if short { shrunk } else { half.radii },
            by: if short { half.way_by } else { half.radii_by },
        }
    }

    // Away from a point, so far along the chord and so far aside.
    fn moved(self, p: Point, v: Vector) -> Point
        ensures { result ≡ moved self p v }
    {
        let on_circle = self.along.mul(v.x).add(self.aside.mul(v.y));
        let on_ellipse = self.turned.turn(self.unit.to_ellipse(on_circle));
        p.add(divided(on_ellipse, self.by))
    }

    fn curve(self, bulge: f32, from: Stop, to: Stop) -> Command
        ensures { result ≡ curve_to self bulge from to }
    {
        Command::CurveTo(
            self.moved(from.point, from.way.mul(bulge)),
            self.moved(to.point, to.way.mul(-bulge)),
            to.point,
        )
    }

    // At most half a turn: one curve for a quarter or less, and else two, which meet at the top.
    fn short_curves(self, arc: ArcTo, half: HalfTurn) -> Few
        ensures { result.items ≡ short_curves arc self half }
    {
        let HalfTurn { sine, cosine } = half;
        let start = Stop::new(arc.from, -cosine, sine);
        let end = Stop::new(arc.to, -cosine, -sine);
        if sine <= cosine {
            return few(&[self.curve(4.0 / 3.0 / (1.0 + cosine), start, end)]);
        }
        let half_cosine = half_cosine(cosine);
        let bulge = 2.0 / 3.0 / (half_cosine * (1.0 + half_cosine));
        let height = sine / (1.0 + cosine);
        let top = self.moved(middle(arc), Vector::new(0.0, height));
        let top = Stop::new(top, -1.0, 0.0);
        few(&[self.curve(bulge, start, top), self.curve(bulge, top, end)])
    }

    // More than half a turn: four curves, which meet at the top and half way to it on both sides.
    fn long_curves(self, arc: ArcTo, half: HalfTurn) -> Few
        ensures { result.items ≡ long_curves arc self half }
    {
        let HalfTurn { sine, cosine } = half;
        let x = half_cosine(cosine);
        let y = sine / (2.0 * x);
        let half_cosine = half_cosine(y);
        let bulge = 2.0 / 3.0 * x / (half_cosine * (1.0 + half_cosine));
        let middle = middle(arc);
        let first = self.moved(middle, Vector::new(x, y + cosine));
        let top = self.moved(middle, Vector::new(0.0, 1.0 + cosine));
        let last = self.moved(middle, Vector::new(-x, y + cosine));
        let start = Stop::new(arc.from, cosine, sine);
        let first = Stop::new(first, -y, x);
        let top = Stop::new(top, -1.0, 0.0);
        let last = Stop::new(last, -y, -x);
        let end = Stop::new(arc.to, cosine, -sine);
        few(&[
            self.curve(bulge, start, first),
            self.curve(bulge, first, top),
            self.curve(bulge, top, last),
            self.curve(bulge, last, end),
        ])
    }
}

// The curves of an arc about its chord.
pub(crate) fn chord_curves(turned_arc: TurnedArc) -> Few
    ensures { result.items ≡ chord_curves turned_arc.arc turned_arc.turned }
{
    let half = HalfChord::of(turned_arc);
    let frame = Frame::of(turned_arc, half);
    if half.is_short(turned_arc.arc.size) {
        frame.short_curves(turned_arc.arc, half.half_turn())
    } else {
        frame.long_curves(turned_arc.arc, half.half_turn())
    }
}
