ghost use Rattle.std.specs.Prelude.{◌≡◌, Ok, IfOk, drop, true};
ghost use Rattle.stroke.specs.Events.{draw};
ghost use Rattle.stroke.specs.Outlines.{begin_events, cross_events, finish_events, turn_events, same_mark, between, one_onward, side, other_side, sides, other_sides_on, last_side, first_and_last, there, back, capped_outline, closed_outline};
ghost use Rattle.stroke.specs.Outliners.{stage, sink_answer};

use crate::outliner::{Outliner, turn_between};
use crate::row::Row;
use maths::host::MathsHost;
use path::command::Command;
use pen::nib::Nib;
use pen::offset::OffsetSegment;
use segments::segment::Segment;
use sinks::sink::{Refused, Sink};

#[inline(always)]
pub(crate) fn side(nib: Nib, segment: Segment) -> OffsetSegment
    ensures { result ≡ side nib segment }
{
    OffsetSegment::new(segment, nib.radius)
}

#[inline(always)]
fn other_side(nib: Nib, segment: Segment) -> OffsetSegment
    ensures { result ≡ other_side nib segment }
{
    OffsetSegment::new(segment.reverse(), nib.radius)
}

// Whether two sides have one mark: pieces of one command have, and so have those of commands that lie
// 255 apart.
fn same_mark(o: OffsetSegment, p: OffsetSegment) -> bool
    ensures { result ≡ same_mark o p }
{
    p.id == o.id
}

// The first segment of a row and the last, none where it has no segments.
fn first_and_last<R: Row>(row: &R) -> Option<(Segment, Segment)>
    ensures { result ≡ first_and_last (R.pieces row.now) }
{
    let first = row.get(0)?;
    let last = row.get(row.len() - 1)?;
    Some((first, last))
}

// Compiled in place by hints: a side is 80 bytes, and each call would copy it.
impl<'a, S: Sink, K: MathsHost> Outliner<'a, S, K> {
    // The join between two sides: where they may split, those of one mark get the split join.
    #[inline(always)]
    fn join_sides(&mut self, o: OffsetSegment, p: OffsetSegment, split: bool) -> Result<(), Refused>
        ensures { stage K.acts self.new result
            ≡ draw S.acts K.acts (between split o p) (stage K.acts self.old (Ok tt)) }
    {
        if split && same_mark(o, p) {
            self.split_join(o, p)
        } else {
            self.join(o, p)
        }
    }

    // A join and the side after it.
    #[tactic(auto, using(crate::proofs::Drawn::drawing), unfolding(crate::specs::Outlines::one_onward))]
    #[inline(always)]
    fn go_on(&mut self, o: OffsetSegment, p: OffsetSegment, split: bool) -> Result<(), Refused>
        ensures { stage K.acts self.new result
            ≡ draw S.acts K.acts (one_onward split o p) (stage K.acts self.old (Ok tt)) }
    {
        self.join_sides(o, p, split)?;
        self.emit(p.segment)
    }

    // The sides from a place of the row on, each joined to the one before it; answers the last one. A
    // row answers by place, so the walks count places.
    #[tactic(auto, using(crate::proofs::Walking::walked))]
    fn walk_there<R: Row>(
        &mut self,
        row: &R,
        before: OffsetSegment,
        start: usize,
        split: bool,
    ) -> Result<OffsetSegment, Refused>
        ensures last { IfOk result
            (λ o. o ≡ last_side before (sides self.new.nib (drop start (R.pieces row.now)))) }
        ensures drew { stage K.acts self.new (sink_answer result)
            ≡ draw S.acts K.acts (there split before start (R.pieces row.now))
            (stage K.acts self.old (Ok tt)) }
    {
        let mut last = before;
        for i in start..row.len() {
            if let Some(segment) = row.get(i) {
                let next = side(self.nib, segment);
                self.go_on(last, next, split)?;
                last = next;
            }
        }
        Ok(last)
    }

    // The other sides after the first of them, from the segment before the last back to the first one;
    // answers the last one drawn. One walk for both ways would take the order and the side as
    // parameters, and their clauses with them.
    #[tactic(auto, using(crate::proofs::Walking::walked))]
    fn walk_back<R: Row>(
        &mut self,
        row: &R,
        before: OffsetSegment,
    ) -> Result<OffsetSegment, Refused>
        ensures last { IfOk result
            (λ o. o ≡ last_side before (other_sides_on self.new.nib (R.pieces row.now))) }
        ensures drew { stage K.acts self.new (sink_answer result)
            ≡ draw S.acts K.acts (back before (R.pieces row.now)) (stage K.acts self.old (Ok tt)) }
    {
        let mut last = before;
        for i in (0..row.len().saturating_sub(1)).rev() {
            if let Some(segment) = row.get(i) {
                let next = other_side(self.nib, segment);
                self.go_on(last, next, true)?;
                last = next;
            }
        }
        Ok(last)
    }

    // The move to the start of a ring with caps, and its first side.
    #[tactic(auto, using(crate::proofs::Drawn::drawing))]
    fn begin(&mut self, o: OffsetSegment) -> Result<(), Refused>
        ensures { stage K.acts self.new result
            ≡ draw S.acts K.acts (begin_events o) (stage K.acts self.old (Ok tt)) }
    {
        self.send(Command::MoveTo(o.start))?;
        self.emit(o.segment)
    }

    // Across its end, and the first of the other sides.
    #[tactic(auto, using(crate::proofs::Drawn::drawing))]
    fn cross_end(&mut self, o: OffsetSegment, p: OffsetSegment) -> Result<(), Refused>
        ensures { stage K.acts self.new result
            ≡ draw S.acts K.acts (cross_events o p) (stage K.acts self.old (Ok tt)) }
    {
        self.cap_end(turn_between(o, p))?;
        self.emit(p.segment)
    }

    // Across its start, and the close.
    #[tactic(auto, using(crate::proofs::Drawn::drawing))]
    fn finish(&mut self, o: OffsetSegment, p: OffsetSegment) -> Result<(), Refused>
        ensures { stage K.acts self.new result
            ≡ draw S.acts K.acts (finish_events o p) (stage K.acts self.old (Ok tt)) }
    {
        self.cap_start(turn_between(o, p))?;
        self.send(Command::Close)
    }

    // In a closed ring over to the end of the last other side, and the first of them.
    #[tactic(auto, using(crate::proofs::Drawn::drawing))]
    fn turn(&mut self, o: OffsetSegment, p: OffsetSegment) -> Result<(), Refused>
        ensures { stage K.acts self.new result
            ≡ draw S.acts K.acts (turn_events o p) (stage K.acts self.old (Ok tt)) }
    {
        self.send(Command::LineTo(o.end))?;
        self.go_on(o, p, false)
    }

    // The outline of a row with caps: there, across the end, back, and across the start. Where it
    // splits, as that of a dash, sides of one mark get the split join on the way there too.
    pub(crate) fn stroke_capped<R: Row>(&mut self, row: &R, split: bool) -> Result<(), Refused>
        ensures { stage K.acts self.new result
            ≡ draw S.acts K.acts (capped_outline split (R.pieces row.now))
            (stage K.acts self.old (Ok tt)) }
    {
        let Some((first, last)) = first_and_last(row) else {
            return Ok(());
        };
        let start = side(self.nib, first);
        let turned = other_side(self.nib, last);
        self.begin(start)?;
        let end = self.walk_there(row, start, 1, split)?;
        self.cross_end(end, turned)?;
        let back = self.walk_back(row, turned)?;
        self.finish(back, start)
    }

    // The outline of a closed row: from the end of its last side all the way round, then over to the
    // end of the last other side and all the way back.
    pub(crate) fn stroke_closed<R: Row>(&mut self, row: &R) -> Result<(), Refused>
        ensures { stage K.acts self.new result
            ≡ draw S.acts K.acts (closed_outline (R.pieces row.now))
            (stage K.acts self.old (Ok tt)) }
    {
        let Some((first, last)) = first_and_last(row) else {
            return Ok(());
        };
        let end = side(self.nib, last);
        let turned = other_side(self.nib, last);
        let back = other_side(self.nib, first);
        self.send(Command::MoveTo(end.end))?;
        self.walk_there(row, end, 0, false)?;
        self.turn(back, turned)?;
        self.walk_back(row, turned)?;
        self.send(Command::Close)
    }
}
