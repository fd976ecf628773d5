ghost use Rattle.std.specs.Prelude.{◌≡◌};
ghost use Rattle.maths.specs.Questions.{all_asked};
ghost use Rattle.pen.specs.Caps.{square_cap, cap_commands, cap_questions, CapLeadsTo};

use crate::corner::Turn;
use crate::round::round;
use arcs::few::{Few, few};
use maths::host::MathsHost;
use path::command::Command;
use path::geometry::Vector;
use path::style::Cap;

fn square(radius: f32, turn: Turn) -> Few
    ensures { result.items ≡ square_cap radius turn }
{
    let normal = turn.from_normal;
    let out = Vector::new(-normal.y, normal.x).mul(radius);
    few(&[
        Command::LineTo(turn.from.add(out)),
        Command::LineTo(turn.to.add(out)),
        Command::LineTo(turn.to),
    ])
}

/// The commands of a cap, from one side of a stroke across to the other. If it is not round it ends
/// where that side begins.
pub fn cap_commands<K: MathsHost>(shape: Cap, radius: f32, turn: Turn, host: &mut K) -> Few
    ensures answer { result.items ≡ cap_commands (K.acts.functions host.old) shape radius turn }
    ensures host { host.new ≡ all_asked K.acts.asked host.old (cap_questions (K.acts.functions host.old) shape radius turn) }
    ensures leads { CapLeadsTo turn.to shape result.items }
{
    match shape {
        Cap::Butt => few(&[Command::LineTo(turn.to)]),
        Cap::Square => square(radius, turn),
        Cap::Round => round(radius, turn, host),
    }
}
