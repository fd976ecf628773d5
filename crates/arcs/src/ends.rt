ghost use Rattle.std.specs.Prelude.{◌≡◌};
ghost use Rattle.arcs.specs.Ends.{point_finite, command_finite, all_finite, end_of, nearness, no_sliver, lands, finite_or_straight, landing};

use crate::arc_to::ArcTo;
use crate::centre::{Chord, TurnedArc};
use crate::chord::{half_way, larger_part};
use crate::few::{Few, few};
use crate::frame::chord_curves;
use crate::radii::Radii;
use path::command::Command;
use path::geometry::{Point, Vector};

// The part of half the chord within which curves land at an end.
const NEARNESS: f32 = 0.00390625;

// The part of an arc's largest length below which a radius is no more squared.
const SLIVER: f32 = 9.094947e-13;

fn point_finite(p: Point) -> bool
    ensures { result ≡ point_finite p }
{
    p.x.is_finite() && p.y.is_finite()
}

fn command_finite(command: Command) -> bool
    ensures { result ≡ command_finite command }
{
    match command {
        Command::MoveTo(p) | Command::LineTo(p) => point_finite(p),
        Command::CurveTo(b, c, p) => point_finite(b) && point_finite(c) && point_finite(p),
        Command::QuadTo(b, p) => point_finite(b) && point_finite(p),
        Command::Close => true,
    }
}

fn all_finite(commands: &[Command]) -> bool
    ensures { result ≡ all_finite commands.now }
{
    commands.iter().all(|c| command_finite(*c))
}

// Where curves from a point end.
fn end_of(from: Point, curves: &[Command]) -> Point
    ensures { result ≡ end_of from curves.now }
{
    match curves.last() {
        Some(Command::CurveTo(_, _, end)) => *end,
        _ => from,
    }
}

fn nearness(arc: ArcTo) -> f32
    ensures { result ≡ nearness arc }
{
    larger_part(half_way(arc)) * NEARNESS
}

// Whether curves begin and end near the ends of an arc, and are finite. `half` is half of its chord
// along the axes.
fn lands(arc: ArcTo, half: Vector, start: Point, curves: &[Command]) -> bool
    ensures { result ≡ lands arc half start curves.now }
{
    let near = nearness(arc);
    no_sliver(half, Radii::of(arc))
        && start.nearly_eq_by(arc.from, near)
        && end_of(arc.from, curves).nearly_eq_by(arc.to, near)
        && all_finite(curves)
}

/// The curves by the centre, which begin at the start, where they land or the arc is not alone; and else those
/// about the chord.
#[inline(always)]
pub(crate) fn landing(
    turned_arc: TurnedArc,
    half: Vector,
    alone: bool,
    start: Point,
    curves: Few,
) -> Few
    ensures { result.items ≡ landing turned_arc.arc turned_arc.turned half alone start curves.items }
{
    if !alone || lands(turned_arc.arc, half, start, curves.as_slice()) {
        curves
    } else {
        finite_or_straight(turned_arc.arc, chord_curves(turned_arc))
    }
}

// Whether no radius is so small beside the others and the chord that its square is lost.
fn no_sliver(half: Vector, radii: Radii) -> bool
    ensures { result ≡ no_sliver half radii }
{
    let least = Chord { half, radii }.largest() * SLIVER;
    least <= radii.x && least <= radii.y
}

fn finite_or_straight(arc: ArcTo, curves: Few) -> Few
    ensures { result.items ≡ finite_or_straight arc curves.items }
{
    if all_finite(curves.as_slice()) {
        curves
    } else {
        few(&[Command::CurveTo(arc.from, arc.to, arc.to)])
    }
}
