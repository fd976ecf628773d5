ghost use Rattle.std.specs.Prelude.{◌≡◌};
ghost use Rattle.maths.specs.Questions.{all_asked};
ghost use Rattle.cursor.specs.Cursors.{state, fresh};
ghost use Rattle.cursor.specs.Machines.{turn, mark_read, gives, moved, lined, cut_to, curved, curve_questions, closed, piece, ended};

use crate::cuts::split_curve;
use crate::pieces::{Pieces, none};
use crate::subpath::Subpath;
use curves::curve::{Curve, MERGE_EPSILON};
use curves::line::Line;
use maths::host::MathsHost;
use path::geometry::Point;
use segments::mark::SegmentId;
use segments::segment::{Segment, to_segment};

// What a cursor is between two things that it gives, but for its place among the commands: the
// subpath, whether an end is to come, whether curves are cut, the pieces of a curve with the place
// of the next one, and the last mark. It has no model: a copy has to give the fields back, and the
// pieces to come do not give back those before them. A place stands beside the pieces since an
// iterator over them would borrow from the machine itself. The end to come is a flag, since by rule
// pieces, end and next command are matched together.
#[derive(Clone, Copy)]
pub(crate) struct Machine {
    pub(crate) subpath: Subpath,
    pub(crate) close: bool,
    split: bool,
    pub(crate) pieces: Pieces,
    pub(crate) piece: usize,
    id: SegmentId,
}

impl Machine {
    // Before the first command.
    pub(crate) fn new(split: bool) -> Machine
        ensures { state result ≡ fresh split }
    {
        Machine {
            subpath: Subpath::begin(Point::new(0.0, 0.0)),
            close: false,
            split,
            pieces: none(),
            piece: 0,
            id: SegmentId::first(),
        }
    }

    // The mark of the segments of a command that is read.
    fn mark(&self) -> SegmentId
        ensures { result ≡ mark_read (state self.now) }
    {
        if self.split { self.id.next() } else { self.id }
    }

    // Gives something or nothing, with the subpath as told. With splitting each command takes a mark,
    // else each thing given.
    fn give(&mut self, segment: Option<Segment>, subpath: Subpath) -> Option<Segment>
        ensures { turn result (state self.new) ≡ gives (state self.old) segment subpath }
    {
        if self.split || segment.is_some() {
            self.id = self.id.next();
        }
        self.subpath = subpath;
        segment
    }

    pub(crate) fn move_to(&mut self, to: Point) -> Option<Segment>
        ensures { turn result (state self.new) ≡ moved (state self.old) to }
    {
        let gave = !self.subpath.last_was_end;
        self.give(gave.then_some(Segment::End(false)), Subpath::begin(to))
    }

    pub(crate) fn line_to(&mut self, to: Point) -> Option<Segment>
        ensures { turn result (state self.new) ≡ lined (state self.old) to }
    {
        let from = self.subpath.prev;
        if from.nearly_eq_by(to, MERGE_EPSILON) {
            return self.give(None, self.subpath);
        }
        let segment = Segment::Line(self.mark(), Line::new(from, to));
        self.give(Some(segment), self.subpath.draw(to))
    }

    pub(crate) fn close(&mut self) -> Option<Segment>
        ensures { turn result (state self.new) ≡ closed (state self.old) }
    {
        let subpath = self.subpath;
        if !subpath.needs_line() {
            return self.give(Some(Segment::End(true)), subpath.give_end());
        }
        let line = Segment::Line(self.mark(), Line::new(subpath.prev, subpath.start));
        self.close = true;
        self.give(Some(line), subpath.turn_back())
    }

    // The end that follows a closing line.
    pub(crate) fn end(&mut self) -> Option<Segment>
        ensures { turn result (state self.new) ≡ ended (state self.old) }
    {
        self.close = false;
        self.subpath = self.subpath.stop();
        Some(Segment::End(true))
    }

    pub(crate) fn curve_to<K: MathsHost>(
        &mut self,
        curve: Curve,
        to: Point,
        host: &mut K,
    ) -> Option<Segment>
        ensures machine { turn result (state self.new) ≡ curved (K.acts.functions host.old) (state self.old) curve to }
        ensures host { host.new ≡ all_asked K.acts.asked host.old (curve_questions (K.acts.functions host.old) (state self.old) curve) }
    {
        if self.split {
            let pieces = split_curve(curve, host);
            self.first_piece(pieces, to)
        } else {
            let segment = Segment::Curve(self.mark(), curve);
            self.give(Some(segment), self.subpath.draw(to))
        }
    }

    // Where the first piece gives a segment, it ends at the command's point; the others come later.
    fn first_piece(&mut self, pieces: Pieces, to: Point) -> Option<Segment>
        ensures { turn result (state self.new) ≡ cut_to (state self.old) to pieces.items }
    {
        let mark = self.mark();
        let segment = pieces.get(0).and_then(|first| to_segment(first, mark));
        self.pieces = pieces;
        self.piece = 1;
        self.give(segment, self.subpath.draw_given(segment, to))
    }

    // A later piece ends at its own end.
    pub(crate) fn later_piece(&mut self, curve: Curve) -> Option<Segment>
        ensures { turn result (state self.new) ≡ piece (state self.old) curve (state self.old).pending }
    {
        let segment = to_segment(curve, self.id);
        self.subpath = self.subpath.draw_given(segment, curve.d);
        segment
    }
}
