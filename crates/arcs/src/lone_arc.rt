ghost use Rattle.std.specs.Prelude.{◌≡◌, true};
ghost use Rattle.maths.specs.Questions.{all_asked};
ghost use Rattle.arcs.specs.Centres.{half_chord};
ghost use Rattle.arcs.specs.Curves.{no_chord, turned_of, arc_questions};
ghost use Rattle.arcs.specs.Ends.{curves_of};
ghost use Rattle.arcs.specs.LoneArcs.{zero_radius, refused, drawn, sent_answer, arc_answer, arc_sink, arc_host, Few, Joined, ReachesIfDrawn, SentFinite};
ghost use Rattle.path.specs.declared.refusal.Reason.TheVariants.{ZeroRadius};

use crate::arc_to::ArcTo;
use crate::ellipse::arc_curves;
use crate::sending::send_all;
use maths::host::MathsHost;
use path::refusal::{Reason, Refusal};
use sinks::sink::Sink;

// A NaN is no 0.
fn has_zero_radius(arc: ArcTo) -> bool
    ensures { result ≡ zero_radius arc }
{
    arc.rx == 0.0 || arc.ry == 0.0
}

fn no_ellipse() -> Refusal
    ensures { result ≡ refused ZeroRadius 0 }
{
    Refusal {
        reason: Reason::ZeroRadius,
        place: 0,
        sent: 0,
    }
}

// All is asked of the host before the first curve is sent.
fn draw<S: Sink, K: MathsHost>(arc: ArcTo, sink: &mut S, host: &mut K) -> Result<u64, Refusal>
    ensures answer { result ≡ sent_answer (drawn S.acts (K.acts.functions host.old) arc sink.old) }
    ensures sink { sink.new ≡ (drawn S.acts (K.acts.functions host.old) arc sink.old).sink }
    ensures host { host.new ≡ all_asked K.acts.asked host.old (arc_questions (K.acts.functions host.old) true arc) }
    ensures few { Few (no_chord (half_chord arc (turned_of (K.acts.functions host.old) arc.angle))) result }
    ensures joined { Joined (S.acts.meaning sink.old) result (curves_of (K.acts.functions host.old) true arc) (S.acts.meaning sink.new) }
    ensures reaches { ReachesIfDrawn arc result (curves_of (K.acts.functions host.old) true arc) }
    ensures finite { SentFinite arc result (curves_of (K.acts.functions host.old) true arc) }
{
    let curves = arc_curves(arc, true, host);
    send_all(curves.as_slice(), sink)
}

/// Draws an arc, as the notes on SVG 1.1's elliptical arc commands (F.6.5 and F.6.6) work it out, and
/// answers how many curves the sink took: one to four, none where the ends are one point. An arc that
/// sends anything ends at its end, to the bit or within 1/256 of half its chord.
///
/// An arc with a radius of 0 is refused before anything is asked or sent. Where the sink refuses a
/// curve the arc is refused, and the curves before it stay in the sink.
#[tactic(auto, using(crate::proofs::Sends::joined_none, crate::proofs::Sends::finite_none, crate::proofs::Sends::reaches_none))]
pub fn arc<S: Sink, K: MathsHost>(arc: ArcTo, sink: &mut S, host: &mut K) -> Result<u64, Refusal>
    ensures answer { result ≡ arc_answer S.acts (K.acts.functions host.old) arc sink.old }
    ensures sink { sink.new ≡ arc_sink S.acts (K.acts.functions host.old) arc sink.old }
    ensures host { host.new ≡ arc_host K.acts (K.acts.functions host.old) arc host.old }
    ensures few { Few (no_chord (half_chord arc (turned_of (K.acts.functions host.old) arc.angle))) result }
    ensures joined { Joined (S.acts.meaning sink.old) result (curves_of (K.acts.functions host.old) true arc) (S.acts.meaning sink.new) }
    ensures reaches { ReachesIfDrawn arc result (curves_of (K.acts.functions host.old) true arc) }
    ensures finite { SentFinite arc result (curves_of (K.acts.functions host.old) true arc) }
{
    if has_zero_radius(arc) {
        return Err(no_ellipse());
    }
    draw(arc, sink, host)
}
