ghost use Rattle.std.specs.Prelude.{◌≡◌, cond, is_some};
ghost use Rattle.cursor.specs.Subpaths.{begun, drawn, turned_back, returned, stopped, needs_line};

use curves::curve::MERGE_EPSILON;
use path::geometry::Point;
use segments::segment::Segment;

// How far a subpath has come: where it began, where its last segment ended, how many segments it
// has (0 again after an end that no line led to), and whether the last thing given was an end: a flag,
// since both kinds of subpath have all the rest.
#[derive(Clone, Copy)]
pub(crate) struct Subpath {
    pub(crate) start: Point,
    pub(crate) prev: Point,
    pub(crate) count: u32,
    pub(crate) last_was_end: bool,
}

impl Subpath {
    // At the start of a subpath.
    pub(crate) fn begin(start: Point) -> Subpath
        ensures { result ≡ begun start }
    {
        Subpath {
            start,
            prev: start,
            count: 0,
            last_was_end: true,
        }
    }

    // With one segment more, which ends at a point. The count stays at the greatest `u32`.
    pub(crate) fn draw(self, to: Point) -> Subpath
        ensures { result ≡ drawn self to }
    {
        Subpath {
            prev: to,
            count: self.count.saturating_add(1),
            last_was_end: false,
            ..self
        }
    }

    // With one segment more where something is given.
    pub(crate) fn draw_given(self, given: Option<Segment>, to: Point) -> Subpath
        ensures { result ≡ cond (is_some given) (drawn self to) self }
    {
        if given.is_some() { self.draw(to) } else { self }
    }

    // Whether a close has to draw a line: nothing was drawn, or the start is not near.
    pub(crate) fn needs_line(self) -> bool
        ensures { result ≡ needs_line self }
    {
        self.count == 0 || !self.prev.nearly_eq_by(self.start, MERGE_EPSILON)
    }

    // Back at the start by a closing line, which is not counted.
    pub(crate) fn turn_back(self) -> Subpath
        ensures { result ≡ turned_back self }
    {
        Subpath {
            prev: self.start,
            ..self
        }
    }

    // Back at the start without a line.
    pub(crate) fn give_end(self) -> Subpath
        ensures { result ≡ returned self }
    {
        Subpath::begin(self.start)
    }

    // After the end that follows a closing line.
    pub(crate) fn stop(self) -> Subpath
        ensures { result ≡ stopped self }
    {
        Subpath {
            last_was_end: true,
            ..self
        }
    }
}
