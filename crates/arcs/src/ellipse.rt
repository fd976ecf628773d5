ghost use Rattle.std.specs.Prelude.{◌≡◌, ◌≤◌, T};
ghost use Rattle.maths.specs.Questions.{all_asked};
ghost use Rattle.arcs.specs.Curves.{placed, curve_between, round_at, round_questions, turned_of, curve_questions, curve_at, no_chord, all_curves, all_questions, ellipse, centred_of, round_curves, round_all_questions, arc_questions, OneToFour};
ghost use Rattle.arcs.specs.Ends.{start_round, curves_of};
ghost use Rattle.arcs.specs.Laws.{CountedAs, NothingAtAPoint, TurnsByFlags, RadiiFit, unsigned, ReachesEnd, FiniteIfEnds};
ghost use Rattle.arcs.specs.Centres.{half_chord};

use crate::arc_to::ArcTo;
use crate::centre::{Centred, Turned, TurnedArc};
use crate::ends::landing;
use crate::few::{Few, few};
use crate::radii::Radii;
use crate::sweep::{Sweep, find_sweep};
use maths::host::MathsHost;
use path::command::Command;
use path::geometry::{Point, Vector};

// An ellipse with what its curves are worked out from.
#[derive(Clone, Copy)]
struct Ellipse {
    centre: Point,
    radii: Radii,
    turned: Turned,
    bulge: f32,
}

impl Ellipse {
    fn new(centred: Centred, turned: Turned, sweep: Sweep) -> Ellipse
        ensures { result ≡ ellipse centred turned sweep }
    {
        Ellipse {
            centre: centred.centre,
            radii: centred.radii,
            turned,
            bulge: sweep.bulge,
        }
    }

    // A point of the plane by its place on the circle of radius 1.
    fn place(self, v: Vector) -> Point
        ensures { result ≡ placed self v }
    {
        self.centre.add(self.turned.turn(self.radii.to_ellipse(v)))
    }

    // The curve between two points of that circle.
    fn curve(self, from: Vector, to: Vector) -> Command
        ensures { result ≡ curve_between self from to }
    {
        let a = self.bulge;
        Command::CurveTo(
            self.place(Vector::new(from.x - from.y * a, from.y + from.x * a)),
            self.place(Vector::new(to.x + to.y * a, to.y - to.x * a)),
            self.place(to),
        )
    }

    // The curve from one angle to another, and where it begins.
    fn first_curve<K: MathsHost>(self, from: f32, to: f32, host: &mut K) -> First
        ensures start { result.start ≡ placed self (round_at (K.acts.functions host.old) from) }
        ensures answer { result.curve ≡ curve_at (K.acts.functions host.old) self from to }
        ensures host { host.new ≡ all_asked K.acts.asked host.old (curve_questions from to) }
    {
        let start = round_at(from, host);
        let end = round_at(to, host);
        First {
            start: self.place(start),
            curve: self.curve(start, end),
        }
    }

    // The curve from one angle to another.
    fn curve_at<K: MathsHost>(self, from: f32, to: f32, host: &mut K) -> Command
        ensures answer { result ≡ curve_at (K.acts.functions host.old) self from to }
        ensures host { host.new ≡ all_asked K.acts.asked host.old (curve_questions from to) }
    {
        let start = round_at(from, host);
        let end = round_at(to, host);
        self.curve(start, end)
    }
}

// A curve, and where it begins.
#[derive(Clone, Copy)]
struct First {
    start: Point,
    curve: Command,
}

// Curves, and where the first of them begins.
#[derive(Clone, Copy)]
struct Round {
    start: Point,
    curves: Few,
}

// The point of the circle of radius 1 at an angle.
fn round_at<K: MathsHost>(t: f32, host: &mut K) -> Vector
    ensures answer { result ≡ round_at (K.acts.functions host.old) t }
    ensures host { host.new ≡ all_asked K.acts.asked host.old (round_questions t) }
{
    let sine = host.sin(t);
    let cosine = host.cos(t);
    Vector::new(cosine, sine)
}

fn turned<K: MathsHost>(angle: f32, host: &mut K) -> Turned
    ensures answer { result ≡ turned_of (K.acts.functions host.old) angle }
    ensures host { host.new ≡ all_asked K.acts.asked host.old (round_questions angle) }
{
    let Vector { x, y } = round_at(angle, host);
    Turned { sine: y, cosine: x }
}

fn has_no_chord(half: Vector) -> bool
    ensures { result ≡ no_chord half }
{
    half == Vector::new(0.0, 0.0)
}

// So many curves, each as far round as the others.
#[tactic(auto, using(crate::proofs::Round::no_curves, crate::proofs::Round::no_questions))]
#[inline(always)]
fn curves_from<K: MathsHost>(ellipse: Ellipse, sweep: Sweep, host: &mut K) -> Round
    requires { (1 ≤ sweep.count) × (sweep.count ≤ 4) }
    ensures start { result.start ≡ placed ellipse (round_at (K.acts.functions host.old) sweep.start) }
    ensures answer { result.curves.items ≡ all_curves sweep.count (K.acts.functions host.old) ellipse sweep.start sweep.each }
    ensures host { host.new ≡ all_asked K.acts.asked host.old (all_questions sweep.count sweep.start sweep.each) }
{
    let mut angle = sweep.start + sweep.each;
    let First { start, curve } = ellipse.first_curve(sweep.start, angle, host);
    let mut curves = few(&[curve]);
    for i in 1..sweep.count {
        let next = angle + sweep.each;
        let _ = curves.push(ellipse.curve_at(angle, next, host));
        angle = next;
    }
    Round { start, curves }
}

#[tactic(auto, using(crate::proofs::Round::sweep_few))]
#[inline(always)]
fn curves_round<K: MathsHost>(turned_arc: TurnedArc, centred: Centred, host: &mut K) -> Round
    ensures start { result.start ≡ start_round (K.acts.functions host.old) turned_arc.arc turned_arc.turned centred }
    ensures answer { result.curves.items ≡ round_curves (K.acts.functions host.old) turned_arc.arc turned_arc.turned centred }
    ensures host { host.new ≡ all_asked K.acts.asked host.old (round_all_questions (K.acts.functions host.old) turned_arc.arc centred) }
{
    let sweep = find_sweep(turned_arc.arc, centred, host);
    curves_from(Ellipse::new(centred, turned_arc.turned, sweep), sweep, host)
}

// The curves of an arc, without what is true of them all.
#[tactic(auto, unfolding(crate::specs::Curves::arc_questions))]
#[inline(always)]
fn curves_of<K: MathsHost>(arc: ArcTo, alone: bool, host: &mut K) -> Few
    ensures answer { result.items ≡ curves_of (K.acts.functions host.old) alone arc }
    ensures host { host.new ≡ all_asked K.acts.asked host.old (arc_questions (K.acts.functions host.old) alone arc) }
{
    let turned_arc = TurnedArc {
        arc,
        turned: turned(arc.angle, host),
    };
    let half = turned_arc.half_chord();
    if has_no_chord(half) {
        return few(&[]);
    }
    let centred = turned_arc.find_centre(half, alone);
    let Round { start, curves } = curves_round(turned_arc, centred, host);
    landing(turned_arc, half, alone, start, curves)
}

/// The curves of an arc, one to four, or none where its ends are one point.
///
/// An arc that is `alone` reaches its end: lengths are brought near 1 before their fourth powers are
/// formed, and where the curves by the centre do not land at both ends, since a number left f32's
/// range or the chord is short beside the radii, those about the chord stand in. The arcs of
/// strokes are not alone: they are the Rust's.
#[inline(always)]
pub fn arc_curves<K: MathsHost>(arc: ArcTo, alone: bool, host: &mut K) -> Few
    ensures answer { result.items ≡ curves_of (K.acts.functions host.old) alone arc }
    ensures host { host.new ≡ all_asked K.acts.asked host.old (arc_questions (K.acts.functions host.old) alone arc) }
    ensures few { OneToFour (no_chord (half_chord arc (turned_of (K.acts.functions host.old) arc.angle))) result.items }
    ensures needed { CountedAs (K.acts.functions host.old) alone arc result.items }
    ensures point { NothingAtAPoint (K.acts.functions host.old) arc result.items }
    ensures turns { TurnsByFlags (K.acts.functions host.old) alone arc }
    ensures grow { RadiiFit (K.acts.functions host.old) alone arc }
    ensures unsigned { result.items ≡ curves_of (K.acts.functions host.old) alone (unsigned arc) }
    ensures reaches { T alone → ReachesEnd arc result.items }
    ensures finite { T alone → FiniteIfEnds arc result.items }
{
    curves_of(arc, alone, host)
}
