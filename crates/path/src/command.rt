use crate::geometry::Point;

/// One step of a drawing, with the points that it names.
#[derive(Clone, Copy, PartialEq)]
pub enum Command {
    /// Begins a new subpath at the point.
    MoveTo(Point),
    /// A straight line from the previous point to this one.
    LineTo(Point),
    /// A cubic curve from the previous point, with two control points, to the last one.
    CurveTo(Point, Point, Point),
    /// A quadratic curve from the previous point, with one control point, to the last one.
    QuadTo(Point, Point),
    /// A straight line back to the start of the subpath.
    Close,
}
