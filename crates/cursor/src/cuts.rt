ghost use Rattle.std.specs.Prelude.{◌≡◌, ◌+◌, ◌^◌, ◌≤◌, ◌++◌, length};
ghost use Rattle.maths.specs.Questions.{all_asked};
ghost use Rattle.curves.specs.Bends.{bends, bend_questions};
ghost use Rattle.curves.specs.Curves.{two_legs_near, merge_epsilon};
ghost use Rattle.lists.specs.Fixed.{grown};
ghost use Rattle.cursor.specs.Cuts.{inside, between, cuts, between_cuts, halved, all_halved, cut_up, cut_questions, CutsRise};

use crate::pieces::{Pieces, none};
use curves::bend::max_curvature;
use curves::curve::{Curve, MERGE_EPSILON};
use curves::roots::Roots;
use lists::fixed::FixedList;
use maths::host::MathsHost;

/// The curve cut where it bends most, strictly inside: one to four pieces.
#[tactic(auto, using(crate::proofs::Few::between_cuts_few))]
pub fn split_at_max_curvature<K: MathsHost>(curve: Curve, host: &mut K) -> FixedList<Curve, 4>
    ensures answer { result.items ≡ between_cuts (K.acts.functions host.old) curve }
    ensures host { host.new ≡ all_asked K.acts.asked host.old (bend_questions (K.acts.functions host.old) curve) }
    ensures few { (1 ≤ length result.items) × (length result.items ≤ 4) }
    ensures rising { CutsRise (bends (K.acts.functions host.old) curve) }
{
    cut_at(curve, max_curvature(curve, host))
}

fn is_inside(t: f32) -> bool
    ensures { result ≡ inside t }
{
    0.0 < t && t < 1.0
}

fn cut_at(curve: Curve, roots: Roots) -> FixedList<Curve, 4>
    ensures answer { result.items ≡ between curve (cuts roots) }
    ensures some { 1 ≤ length result.items }
{
    let mut pieces = FixedList::new(curve);
    let mut last = 0.0;
    for t in roots.as_slice() {
        if is_inside(*t) {
            add(&mut pieces, curve.slice(last, *t));
            last = *t;
        }
    }
    let rest = if pieces.len() == 0 {
        curve
    } else {
        curve.slice(last, 1.0)
    };
    add(&mut pieces, rest);
    pieces
}

// One curve more; the caller sees that there is a place.
fn add<const N: usize>(pieces: &mut FixedList<Curve, N>, curve: Curve)
    requires { 1 ≤ length pieces.old.spare }
    ensures { pieces.new ≡ grown pieces.old curve }
{
    let _ = pieces.push(curve);
}

// The curve, or its two halves where it needs a split, halved likewise as many times as are left.
fn halve(pieces: &mut Pieces, curve: Curve, times: u8)
    requires { 2 ^ times ≤ length pieces.old.spare }
    ensures more { pieces.new.items ≡ pieces.old.items ++ halved times curve }
    ensures room { length pieces.old.spare ≤ length pieces.new.spare + 2 ^ times }
{
    if times > 0 && curve.needs_split() {
        let (first, second) = curve.split(0.5);
        halve(pieces, first, times - 1);
        halve(pieces, second, times - 1);
    } else {
        add(pieces, curve);
    }
}

fn halve_all(splits: FixedList<Curve, 4>) -> Pieces
    ensures { result.items ≡ all_halved splits.items }
{
    let mut pieces = none();
    for curve in splits.as_slice() {
        halve(&mut pieces, *curve, 2);
    }
    pieces
}

/// The pieces of a curve: cut where it bends most, each piece halved at most twice; a curve with two
/// short legs is left whole, and the host is not asked. There are one to 16 pieces.
pub fn split_curve<K: MathsHost>(curve: Curve, host: &mut K) -> Pieces
    ensures answer { result.items ≡ cut_up (K.acts.functions host.old) curve }
    ensures host { host.new ≡ all_asked K.acts.asked host.old (cut_questions (K.acts.functions host.old) curve) }
    ensures few { (1 ≤ length result.items) × (length result.items ≤ 16) }
{
    if curve.is_line(MERGE_EPSILON) {
        return FixedList::filled(curve, &[curve]);
    }
    halve_all(split_at_max_curvature(curve, host))
}
