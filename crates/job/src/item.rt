use path::command::Command;
use path::style::{Cap, Join};

/// One item of a job: what a letter and the operands after it say.
#[derive(Clone, Copy, PartialEq)]
pub enum Item {
    /// The stroke's width.
    Width(f32),
    /// How segments are joined.
    Join(Join),
    /// The ratio up to which a join is a miter.
    MiterLimit(f32),
    /// The shape at the beginning of a stroke.
    StartCap(Cap),
    /// The shape at the end of a stroke.
    EndCap(Cap),
    /// Where in the dashes the stroke begins.
    Offset(f32),
    /// The length of one more dash or gap.
    Dash(f32),
    /// One more command of the path.
    Path(Command),
}
