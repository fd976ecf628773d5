ghost use Rattle.std.specs.Prelude.{◌≡◌, List, length};
ghost use Rattle.std.specs.List.{slice_get};
ghost use Rattle.segments.specs.declared.segment.Segment.{Segment};

use segments::segment::Segment;
use storage::storage::Storage;

/// A row of segments that an outline goes round, told by place.
pub(crate) trait Row {
    ghost pieces: { Self → List Segment };

    fn len(&self) -> usize
        ensures { result ≡ length (pieces self.now) };

    /// The segment at a place, none past the end.
    fn get(&self, i: usize) -> Option<Segment>
        ensures { result ≡ slice_get (pieces self.now) i };
}

/// All the segments of a run.
#[derive(Drop)]
pub(crate) struct Run<'b, B> {
    pub(crate) storage: &'b B,
}

impl<'b, B: Storage> Row for Run<'b, B> {
    ghost pieces = { λ r. B.acts.held r.storage.now };

    fn len(&self) -> usize {
        self.storage.len()
    }

    fn get(&self, i: usize) -> Option<Segment> {
        self.storage.get(i)
    }
}
