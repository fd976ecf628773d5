ghost use Rattle.std.specs.Prelude.{◌≡◌, ◌^◌, ◌<◌, Ok, length};
ghost use Rattle.dashes.specs.Walks.{Within};
ghost use Rattle.stroke.specs.Events.{draw};
ghost use Rattle.stroke.specs.Outlines.{outline};
ghost use Rattle.stroke.specs.Outliners.{stage};
ghost use Rattle.stroke.specs.Ranges.{dash_of};

use crate::caps::is_lone_dot;
use crate::outliner::Outliner;
use crate::row::Row;
use crate::stretch::{Stretch, twice_at, twice_place};
use dashes::dasher::Range;
use maths::host::MathsHost;
use sinks::sink::{Refused, Sink};
use storage::storage::Storage;

impl<'a, S: Sink, K: MathsHost> Outliner<'a, S, K> {
    // The outline of a run, which is closed or open: nothing where it has no segments.
    #[tactic(auto, using(crate::proofs::Drawn::draw_by_nib))]
    pub(crate) fn stroke_segments<R: Row>(&mut self, row: &R, closed: bool) -> Result<(), Refused>
        ensures { stage K.acts self.new result
            ≡ draw S.acts K.acts (outline closed (R.pieces row.now))
            (stage K.acts self.old (Ok tt)) }
    {
        if is_lone_dot(row, self.nib) {
            self.lone_dot(row)
        } else if closed {
            self.stroke_closed(row)
        } else {
            self.stroke_capped(row, false)
        }
    }

    // The outline of a dash of the run that a storage holds.
    pub(crate) fn dash_segments<B: Storage>(
        &mut self,
        storage: &B,
        range: Range,
    ) -> Result<(), Refused>
        requires within { Within (length (B.acts.held storage.now)) range }
        requires few { length (B.acts.held storage.now) < 2 ^ 63 }
        ensures { stage K.acts self.new result
            ≡ draw S.acts K.acts (dash_of (B.acts.held storage.now) range)
            (stage K.acts self.old (Ok tt)) }
    {
        let len = storage.len();
        let from = twice_place(len, range.start);
        let to = twice_place(len, range.end);
        if range.is_dot() {
            return match twice_at(storage, from) {
                Some(segment) => self.dash_dot(segment, range.t0),
                None => Ok(()),
            };
        }
        let stretch = Stretch::new(storage, from, to, range.t0, range.t1);
        self.stroke_capped(&stretch, true)
    }
}
