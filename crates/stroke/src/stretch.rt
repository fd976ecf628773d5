ghost use Rattle.std.specs.Prelude.{◌≡◌, ◌+◌, ◌^◌, ◌<◌, ◌≤◌, ◌==◌, ◌++◌, length, take, drop, if◌then◌else◌, neg_ℤ, pos, ◌≤ℤ◌, ◌<ℤ◌};
ghost use Rattle.std.specs.List.{slice_get};
ghost use Rattle.numbers.specs.Arithmetic.{zero, one};
ghost use Rattle.segments.specs.Pieces.{segment_slice};
ghost use Rattle.stroke.specs.Ranges.{twice_place, sliced, stretch, pieces as dash_pieces};

use crate::row::Row;
use segments::segment::Segment;
use storage::storage::Storage;

/// The pieces of a dash: so many places of the run written twice, the first from a time on and the last
/// up to a time.
#[derive(Drop)]
pub(crate) struct Stretch<'b, B: Storage> {
    storage: &'b B,
    from: usize,
    count: usize,
    t0: f32,
    t1: f32,
    ghost within: { from + count ≤ length (B.acts.held storage.now) + length (B.acts.held storage.now) },
    ghost few: { from + count < 2 ^ 64 },
}

// Of a place on a run of so many segments, counted from the run's end where it is below 0, the place in
// the run written twice.
pub(crate) fn twice_place(len: usize, place: isize) -> usize
    requires low { neg_ℤ (pos len) ≤ℤ place }
    requires high { place <ℤ pos len }
    requires few { len < 2 ^ 63 }
    ensures { result ≡ twice_place len place }
{
    if place < 0 {
        len - place.unsigned_abs()
    } else {
        len + place as usize
    }
}

/// The segment at a place of the run written twice.
#[tactic(auto, using(crate::proofs::Stretches::twice_first, crate::proofs::Stretches::twice_again))]
pub(crate) fn twice_at<B: Storage>(storage: &B, place: usize) -> Option<Segment>
    ensures { result ≡ slice_get (B.acts.held storage.now ++ B.acts.held storage.now) place }
{
    let len = storage.len();
    if place < len {
        return storage.get(place);
    }
    storage.get(place - len)
}

impl<'b, B: Storage> Stretch<'b, B> {
    /// From a time in one place to a time in another. A dash that begins at the end of its first segment
    /// has nothing of it.
    #[tactic(auto, using(crate::proofs::Stretches::begun))]
    pub(crate) fn new(storage: &'b B, from: usize, to: usize, t0: f32, t1: f32) -> Stretch<'b, B>
        requires order { from ≤ to }
        requires within { to < length (B.acts.held storage.now) + length (B.acts.held storage.now) }
        requires few { to + 1 < 2 ^ 64 }
        ensures { ⟦<Stretch<'b, B> as Row>⟧.pieces result
            ≡ dash_pieces t0 t1 (stretch (B.acts.held storage.now) from to) }
    {
        if t0 >= 1.0 {
            return Stretch {
                storage,
                from: from + 1,
                count: to - from,
                t0: 0.0,
                t1,
            };
        }
        Stretch {
            storage,
            from,
            count: to - from + 1,
            t0,
            t1,
        }
    }

    // The piece of a segment at a place.
    fn piece(&self, segment: Segment, k: usize) -> Segment
        requires { k < self.now.count }
        ensures { result
            ≡ segment_slice segment (if k == 0 then self.now.t0 else zero)
            (if self.now.count == k + 1 then self.now.t1 else one) }
    {
        let t0 = if k == 0 { self.t0 } else { 0.0 };
        let t1 = if self.count == k + 1 { self.t1 } else { 1.0 };
        segment.slice(t0, t1)
    }
}

impl<'b, B: Storage> Row for Stretch<'b, B> {
    ghost pieces = { λ r. sliced r.t0 r.t1 (take r.count (drop r.from (B.acts.held r.storage.now ++ B.acts.held r.storage.now))) };

    #[tactic(auto, using(crate::proofs::Stretches::length_taken))]
    fn len(&self) -> usize {
        self.count
    }

    #[tactic(auto, using(crate::proofs::Stretches::gotten))]
    fn get(&self, k: usize) -> Option<Segment> {
        if k >= self.count {
            return None;
        }
        let segment = twice_at(self.storage, self.from + k)?;
        Some(self.piece(segment, k))
    }
}
