ghost use Rattle.std.specs.Prelude.{◌≡◌, [], ◌∷◌, ◌++◌, length};
ghost use Rattle.std.specs.List.{slice_get};
ghost use Rattle.segments.specs.declared.segment.Segment.{Segment};
ghost use Rattle.storage.specs.Meaning.{StorageActs, HasRoom, push_answer, after};

use lists::lent::Full;
use segments::segment::Segment;

/// A storage holds segments. It means those that it holds, in order, and how many it can hold.
/// Cleared, it holds none; a segment added stands at the end; neither alters how many it can hold. A
/// segment is refused exactly where it holds as many as it can, and it is unaltered then.
pub trait Storage {
    ghost acts: { StorageActs Self };

    /// The empty storage again, with as many places.
    fn clear(&mut self)
        ensures { self.new ≡ acts.cleared self.old };

    /// One segment more at the end.
    fn push(&mut self, segment: Segment) -> Result<(), Full>
        ensures answer { result ≡ push_answer (acts.held self.old) (acts.capacity self.old) }
        ensures after { self.new ≡ after acts self.old segment };

    fn len(&self) -> usize
        ensures { result ≡ length (acts.held self.now) };

    /// The segment at a place, none past the end.
    fn get(&self, i: usize) -> Option<Segment>
        ensures { result ≡ slice_get (acts.held self.now) i };

    ghost empties: { (s : Self) → acts.held (acts.cleared s) ≡ [] };

    ghost same_cleared: { (s : Self) → acts.capacity (acts.cleared s) ≡ acts.capacity s };

    ghost grows: { (s : Self) (x : Segment) → HasRoom acts s → acts.held (acts.pushed s x) ≡ acts.held s ++ (x ∷ []) };

    ghost same_pushed: { (s : Self) (x : Segment) → HasRoom acts s → acts.capacity (acts.pushed s x) ≡ acts.capacity s };
}
