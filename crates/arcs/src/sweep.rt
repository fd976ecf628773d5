ghost use Rattle.std.specs.Prelude.{◌≡◌};
ghost use Rattle.maths.specs.declared.host.Function.TheVariants.{ArcCosine};
ghost use Rattle.maths.specs.Questions.{all_asked};
ghost use Rattle.arcs.specs.Sweeps.{cosine_between, sign_between, vec_angle, signed_angle, turn_by, turned_by, ratio_of, curves_needed, count_of, bulge_of, bulge_questions, sweep_of, sweep_questions};

use crate::arc_to::{ArcSize, ArcSweep, ArcTo};
use crate::centre::{Centred, larger};
use maths::host::MathsHost;
use numbers::{ceil, clamp};
use path::geometry::Vector;

// A whole turn, and a quarter of it.
const TAU: f32 = 6.2831855;

const QUARTER: f32 = 1.5707964;

// How far the control points of a quarter circle lie from its ends.
const QUARTER_BULGE: f32 = 0.551915024494;

/// The angles of an arc: where it begins, how far each curve turns, how far the control points of a
/// curve lie from its ends on a circle of radius 1, and how many curves there are.
#[derive(Clone, Copy, PartialEq)]
pub struct Sweep {
    pub start: f32,
    pub each: f32,
    pub bulge: f32,
    pub count: usize,
}

fn cosine_between(u: Vector, v: Vector) -> f32
    ensures { result ≡ cosine_between u v }
{
    clamp(u.dot(v), -1.0, 1.0)
}

fn sign_between(u: Vector, v: Vector) -> f32
    ensures { result ≡ sign_between u v }
{
    if u.x * v.y - u.y * v.x < 0.0 {
        -1.0
    } else {
        1.0
    }
}

// The angle from one vector to another by the shorter way round: its size, and 1 where it grows or
// -1 where it falls.
#[derive(Clone, Copy)]
struct Angle {
    sign: f32,
    size: f32,
}

fn vec_angle<K: MathsHost>(u: Vector, v: Vector, host: &mut K) -> Angle
    ensures answer { result ≡ vec_angle (K.acts.functions host.old) u v }
    ensures host { host.new ≡ K.acts.asked host.old ArcCosine (cosine_between u v) }
{
    let size = host.acos(cosine_between(u, v));
    Angle {
        sign: sign_between(u, v),
        size,
    }
}

impl Angle {
    fn signed(self) -> f32
        ensures { result ≡ signed_angle self }
    {
        self.sign * self.size
    }

    // How far an arc turns. For a small arc with growing angles it is the angle itself, and a whole
    // turn more where that is negative; for the others the flags tell, and not the sign of an
    // angle that was rounded.
    fn turn_by(self, size: ArcSize, sweep: ArcSweep) -> f32
        ensures { result ≡ turn_by size sweep self.sign self.size }
    {
        match (size, sweep) {
            (ArcSize::Small, ArcSweep::Positive) => not_negative(self.signed()),
            (ArcSize::Small, ArcSweep::Negative) => -self.size,
            (ArcSize::Large, ArcSweep::Positive) => TAU - self.size,
            (ArcSize::Large, ArcSweep::Negative) => self.size - TAU,
        }
    }
}

fn not_negative(angle: f32) -> f32
    ensures { result ≡ turned_by angle }
{
    if angle < 0.0 { angle + TAU } else { angle }
}

fn ratio(turn: f32) -> f32
    ensures { result ≡ ratio_of turn }
{
    let ratio = turn.abs() / QUARTER;
    if (1.0 - ratio).abs() < 0.0000001 {
        1.0
    } else {
        ratio
    }
}

// One for each quarter begun, and at least one.
fn curves_needed(turn: f32) -> f32
    ensures { result ≡ curves_needed turn }
{
    larger(ceil(ratio(turn)), 1.0)
}

// By comparisons and not by a conversion, so that it is one to four whatever a host answers.
fn count_of(needed: f32) -> usize
    ensures { result ≡ count_of needed }
{
    if needed <= 1.0 {
        1
    } else if needed <= 2.0 {
        2
    } else if needed <= 3.0 {
        3
    } else {
        4
    }
}

fn bulge<K: MathsHost>(each: f32, host: &mut K) -> f32
    ensures answer { result ≡ bulge_of (K.acts.functions host.old) each }
    ensures host { host.new ≡ all_asked K.acts.asked host.old (bulge_questions each) }
{
    if each == QUARTER {
        QUARTER_BULGE
    } else if each == -QUARTER {
        -QUARTER_BULGE
    } else {
        4.0 / 3.0 * host.tan(each / 4.0)
    }
}

pub(crate) fn find_sweep<K: MathsHost>(arc: ArcTo, centred: Centred, host: &mut K) -> Sweep
    ensures answer { result ≡ sweep_of (K.acts.functions host.old) arc centred }
    ensures host { host.new ≡ all_asked K.acts.asked host.old (sweep_questions (K.acts.functions host.old) arc centred) }
{
    let start = vec_angle(Vector::new(1.0, 0.0), centred.start, host).signed();
    let turn = vec_angle(centred.start, centred.end, host).turn_by(arc.size, arc.sweep);
    let needed = curves_needed(turn);
    let each = turn / needed;
    Sweep {
        start,
        each,
        bulge: bulge(each, host),
        count: count_of(needed),
    }
}
