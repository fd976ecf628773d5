ghost use Rattle.std.specs.Prelude.{◌≡◌, ◌<◌, length};
ghost use Rattle.dashes.specs.Spans.{reach};

use segments::segment::Segment;
use storage::storage::Storage;

// How far a dash comes: whether it ends on the run, the segment it comes to, and the distance and the
// time on that.
#[derive(Clone, Copy)]
pub(crate) struct Reach {
    pub(crate) arrived: bool,
    pub(crate) at: usize,
    pub(crate) along: f32,
    pub(crate) time: f32,
}

// The reach of a dash of a length that begins on a segment at a distance along it.
pub(crate) fn find_reach<B: Storage>(storage: &B, start: usize, along: f32, len: f32) -> Reach
    ensures { result ≡ reach (B.acts.held storage.now) start along len }
{
    let mut goal = len + along;
    let mut last = Reach {
        arrived: false,
        at: start,
        along: 0.0,
        time: 0.0,
    };
    for i in start..storage.len() {
        if let Some(segment) = storage.get(i) {
            let to = segment.time(goal, 1.0);
            goal -= to.distance;
            last = Reach {
                arrived: goal <= 0.0,
                at: i,
                along: to.distance,
                time: to.time,
            };
            if last.arrived {
                return last;
            }
        }
    }
    last
}
