ghost use Rattle.std.specs.Prelude.{◌≡◌, ◌<◌};
ghost use Rattle.segments.specs.Marks.{marked, after};

/// The mark that all segments of one command share, so that a stroke can tell a corner of the path
/// from a cut within a curve. Marks go from 0 to 254 and then from 0 again; 255 is no segment's mark.
#[derive(Clone, Copy, PartialEq, Eq)]
pub struct SegmentId {
    mark: u8,
}

const FIRST: u8 = 0;

const LAST: u8 = 254;

// A mark and not an option: marks are eight bits by rule, and this one is no segment's.
const NONE: u8 = 255;

impl SegmentId {
    /// The mark before the first command.
    pub fn first() -> SegmentId
        ensures { result ≡ marked 0 }
    {
        SegmentId { mark: FIRST }
    }

    /// The mark of no segment.
    pub fn none() -> SegmentId
        ensures { result ≡ marked 255 }
    {
        SegmentId { mark: NONE }
    }

    /// The mark that follows; it is never that of no segment.
    pub fn next(self) -> SegmentId
        ensures value { result ≡ after self }
        ensures issued { result.mark < 255 }
    {
        if self.mark >= LAST {
            SegmentId::first()
        } else {
            SegmentId {
                mark: self.mark + 1,
            }
        }
    }
}

impl From<SegmentId> for u8 {
    ghost from_gives = { λ id n. n ≡ id.mark };

    fn from(id: SegmentId) -> u8 {
        id.mark
    }
}
