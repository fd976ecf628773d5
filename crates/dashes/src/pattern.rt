ghost use Rattle.std.specs.Prelude.{◌≡◌, ◌<◌, ◌≤◌, IsTrue, fold, not, false, length};
ghost use Rattle.numbers.specs.Arithmetic.{◌⊕◌, zero};
ghost use Rattle.dashes.specs.Patterns.{some, negative, full, with_gap, gap_sum, has_gap, is_empty_gap, empty_gap, odd_number, accepted, total, offset_within, room_between, following, length_at, empty_after, joined_over};

use crate::remainder::remainder;

/// The lengths of dashes and gaps in turn, as a stroke can be cut by them. A pattern exists only with 1
/// to 32 lengths, none below 0, and with room: one length alone is not below 1, and of several one in a
/// gap's place is at least 1. So a dash that is joined over gaps of 0 comes to a gap that is not.
#[derive(Clone, Copy)]
pub struct Pattern<'a> {
    lengths: &'a [f32],
    offset: f32,
    empty_gaps: bool,
    ghost number: { (0 < length lengths.now) × (length lengths.now ≤ 32) },
    ghost none_negative: { IsTrue (not (some negative lengths.now)) },
    ghost room: { IsTrue (room_between lengths.now) },
    ghost told: { empty_gaps ≡ empty_gap (odd_number lengths.now) false lengths.now },
}

// A dash or a gap, and the place of the length after it.
#[derive(Clone, Copy)]
pub(crate) struct Taken {
    pub(crate) len: f32,
    pub(crate) next: usize,
}

fn has_negative(lengths: &[f32]) -> bool
    ensures { result ≡ some negative lengths.now }
{
    for x in lengths {
        if *x < 0.0 {
            return true;
        }
    }
    false
}

fn has_full(lengths: &[f32]) -> bool
    ensures { result ≡ some full lengths.now }
{
    for x in lengths {
        if !(*x < 1.0) {
            return true;
        }
    }
    false
}

// The sum with a length, where that is a gap of at least 1.
fn with_gap(sum: f32, is_gap: bool, x: f32) -> f32
    ensures { result ≡ with_gap sum is_gap x }
{
    if is_gap && !(x < 1.0) { sum + x } else { sum }
}

fn gap_sum(lengths: &[f32]) -> f32
    ensures { result ≡ gap_sum false zero lengths.now }
{
    let mut sum = 0.0;
    let mut is_gap = false;
    for x in lengths {
        sum = with_gap(sum, is_gap, *x);
        is_gap = !is_gap;
    }
    sum
}

fn has_gap(lengths: &[f32]) -> bool
    ensures { result ≡ has_gap lengths.now }
{
    lengths.len() == 1 || gap_sum(lengths) > 0.0
}

fn is_odd(lengths: &[f32]) -> bool
    ensures { result ≡ odd_number lengths.now }
{
    lengths.len() % 2 == 1
}

fn is_empty_gap(odd: bool, is_gap: bool, x: f32) -> bool
    ensures { result ≡ is_empty_gap odd is_gap x }
{
    (is_gap || odd) && x == 0.0
}

fn has_empty_gap(lengths: &[f32]) -> bool
    ensures { result ≡ empty_gap (odd_number lengths.now) false lengths.now }
{
    let odd = is_odd(lengths);
    let mut is_gap = false;
    for x in lengths {
        if is_empty_gap(odd, is_gap, *x) {
            return true;
        }
        is_gap = !is_gap;
    }
    false
}

fn is_accepted(lengths: &[f32]) -> bool
    ensures { result ≡ accepted lengths.now }
{
    lengths.len() <= 32 && !has_negative(lengths) && has_full(lengths) && has_gap(lengths)
}

fn sum(lengths: &[f32]) -> f32
    ensures { result ≡ fold (λ sum x. sum ⊕ x) zero lengths.now }
{
    let mut sum = 0.0;
    for x in lengths {
        sum += *x;
    }
    sum
}

fn total(lengths: &[f32]) -> f32
    ensures { result ≡ total lengths.now }
{
    if is_odd(lengths) {
        sum(lengths) * 2.0
    } else {
        sum(lengths)
    }
}

fn offset_within(lengths: &[f32], offset: f32) -> f32
    ensures { result ≡ offset_within lengths.now offset }
{
    if offset == 0.0 {
        return 0.0;
    }
    let total = total(lengths);
    if offset < 0.0 {
        total - remainder(offset.abs(), total)
    } else {
        remainder(offset, total)
    }
}

impl<'a> Pattern<'a> {
    ghost use Rattle.std.specs.Prelude.{option_map, true, IfSome};
    ghost use Rattle.dashes.specs.Patterns.{pattern_of, taken_at, JoinsAll, IsDashPlace, IsWhole};
    ghost use Rattle.dashes.specs.PatternValues.{values, taken};

    /// The pattern of some lengths, begun at an offset; none where the lengths are no pattern. Dashes of
    /// a pattern are joined over gaps of 0 as far as such gaps go.
    pub fn new(dashes: &'a [f32], offset: f32) -> Option<Pattern<'a>>
        ensures pattern { option_map values result ≡ pattern_of dashes.now offset }
        ensures joins { IfSome result (λ p. JoinsAll p.lengths.now) }
    {
        if !is_accepted(dashes) {
            return None;
        }
        Some(Pattern {
            lengths: dashes,
            offset: offset_within(dashes, offset),
            empty_gaps: has_empty_gap(dashes),
        })
    }

    pub(crate) fn offset(&self) -> f32
        ensures { result ≡ self.now.offset }
    {
        self.offset
    }

    // The place after a place, and after the last one the first.
    fn following(&self, i: usize) -> usize
        ensures { result ≡ following self.now.lengths.now i }
    {
        (i % self.lengths.len() + 1) % self.lengths.len()
    }

    fn length_at(&self, i: usize) -> f32
        ensures { result ≡ length_at self.now.lengths.now i }
    {
        self.lengths[i % self.lengths.len()]
    }

    fn is_empty_after(&self, i: usize) -> bool
        ensures { result ≡ empty_after self.now.lengths.now i }
    {
        self.length_at(self.following(i)) == 0.0
    }

    // The dash at a place, gone on over each gap of 0 that comes.
    #[tactic(auto, using(crate::proofs::Joining::joins, crate::proofs::Joining::stops, crate::proofs::Joining::runs_out))]
    fn joined(&self, i: usize) -> Taken
        ensures { taken result ≡ joined_over (length self.now.lengths.now) (empty_after self.now.lengths.now i) self.now.lengths.now i (length_at self.now.lengths.now i) }
    {
        let mut at = i;
        let mut len = self.length_at(i);
        for _ in 0..self.lengths.len() {
            if !self.is_empty_after(at) {
                break;
            }
            at = self.following(self.following(at));
            len += self.length_at(at);
        }
        Taken {
            len,
            next: self.following(at),
        }
    }

    // The dash or gap at a place. A dash that was taken at a dash's place goes on over every gap of 0.
    pub(crate) fn take(&self, on: bool, i: usize) -> Taken
        ensures value { taken result ≡ taken_at (values self.now) on i }
        ensures whole { on ≡ true → IsDashPlace self.now.lengths.now i → IsWhole self.now.lengths.now (taken result) }
    {
        if on && self.empty_gaps {
            self.joined(i)
        } else {
            Taken {
                len: self.length_at(i),
                next: self.following(i),
            }
        }
    }
}
