ghost use Rattle.std.specs.Prelude.{◌≡◌, true};
ghost use Rattle.maths.specs.Questions.{all_asked};
ghost use Rattle.pen.specs.Joins.{join_commands, join_questions, shaped, shaped_questions, split_corner, LeadsTo};
ghost use Rattle.pen.specs.Corners.{corner_of};

pub use crate::corner::Turn;
use crate::corner::{Corner, is_clockwise, miter_point};
use crate::nib::Nib;
use crate::round::round;
use arcs::few::{Few, few};
use maths::host::MathsHost;
use path::command::Command;

/// The commands of a join, by what shapes its corner: with a nib, which a whole stroke shares, at a turn.
/// If it is not round it ends where the next side begins.
#[inline(always)]
pub fn join<K: MathsHost>(nib: Nib, turn: Turn, host: &mut K) -> Few
    ensures answer { result.items ≡ join_commands (K.acts.functions host.old) nib turn }
    ensures host { host.new ≡ all_asked K.acts.asked host.old (join_questions (K.acts.functions host.old) nib turn) }
    ensures leads { LeadsTo turn.to (corner_of nib turn) result.items }
{
    shape(Corner::between(nib, turn), nib, turn, host)
}

/// The commands between two pieces of one curve: round where the stroke turns to this side.
#[inline(always)]
pub fn split_join<K: MathsHost>(nib: Nib, turn: Turn, host: &mut K) -> Few
    ensures answer { result.items ≡ shaped (K.acts.functions host.old) (split_corner turn) nib turn }
    ensures host { host.new ≡ all_asked K.acts.asked host.old (shaped_questions (K.acts.functions host.old) (split_corner turn) nib turn) }
    ensures leads { LeadsTo turn.to (split_corner turn) result.items }
{
    shape(split_corner(turn), nib, turn, host)
}

fn split_corner(turn: Turn) -> Corner
    ensures { result ≡ split_corner turn }
{
    if turn.from.nearly_eq(turn.to) {
        Corner::Meet
    } else if is_clockwise(turn.from_normal, turn.to_normal) {
        Corner::Round
    } else {
        Corner::Inner
    }
}

#[inline(always)]
fn shape<K: MathsHost>(corner: Corner, nib: Nib, turn: Turn, host: &mut K) -> Few
    ensures answer { result.items ≡ shaped (K.acts.functions host.old) corner nib turn }
    ensures host { host.new ≡ all_asked K.acts.asked host.old (shaped_questions (K.acts.functions host.old) corner nib turn) }
{
    let to = Command::LineTo(turn.to);
    match corner {
        Corner::Meet => few(&[]),
        Corner::Inner => few(&[Command::LineTo(turn.pivot), to]),
        Corner::Round => round(nib.radius, turn, host),
        Corner::Miter => {
            let tip = miter_point(nib, turn);
            few(&[Command::LineTo(tip), to])
        }
        Corner::Bevel | Corner::NegativeDot | Corner::PastLimit => few(&[to]),
    }
}
