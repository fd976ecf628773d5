use path::geometry::Point;

/// Which of the two arcs between the ends: the one below half a turn, or the other.
#[derive(Clone, Copy, PartialEq, Eq, PartialOrd, Ord)]
pub enum ArcSize {
    Small,
    Large,
}

/// Which way the arc goes: with angles that fall, or that grow.
#[derive(Clone, Copy, PartialEq, Eq, PartialOrd, Ord)]
pub enum ArcSweep {
    Negative,
    Positive,
}

/// An arc by its ends: from a point to another on an ellipse with these radii, turned by an angle.
#[derive(Clone, Copy, PartialEq)]
pub struct ArcTo {
    pub from: Point,
    pub rx: f32,
    pub ry: f32,
    pub angle: f32,
    pub size: ArcSize,
    pub sweep: ArcSweep,
    pub to: Point,
}
