ghost use Rattle.std.specs.Prelude.{◌≡◌};
ghost use Rattle.maths.specs.Questions.{all_asked};
ghost use Rattle.pen.specs.Joins.{half_circle, round_commands, round_questions};

use crate::corner::Turn;
use arcs::arc_to::{ArcSize, ArcSweep, ArcTo};
use arcs::ellipse::arc_curves;
use arcs::few::Few;
use maths::host::MathsHost;

// The arc of a round join or cap.
fn half_circle(radius: f32, turn: Turn) -> ArcTo
    ensures { result ≡ half_circle radius turn }
{
    ArcTo {
        from: turn.from,
        rx: radius,
        ry: radius,
        angle: 0.0,
        size: ArcSize::Small,
        sweep: ArcSweep::Positive,
        to: turn.to,
    }
}

#[inline(always)]
pub(crate) fn round<K: MathsHost>(radius: f32, turn: Turn, host: &mut K) -> Few
    ensures answer { result.items ≡ round_commands (K.acts.functions host.old) radius turn }
    ensures host { host.new ≡ all_asked K.acts.asked host.old (round_questions (K.acts.functions host.old) radius turn) }
{
    arc_curves(half_circle(radius, turn), false, host)
}
