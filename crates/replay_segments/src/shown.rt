ghost use Rattle.std.specs.Prelude.{Some};
ghost use Rattle.replay_segments.specs.Text.{segment_text};

use lines::bits::PointBits;
use segments::segment::Segment;
use std::fmt;

/// The printed line of a segment.
#[derive(Clone, Copy)]
pub(crate) struct Shown(pub Segment);

impl fmt::Display for Shown {
    ghost output = { λ s. Some (segment_text s.0) };

    fn fmt<W: fmt::Write>(&self, f: &mut fmt::Formatter<W>) -> fmt::Result {
        match self.0 {
            Segment::Line(id, line) => {
                write!(
                    f,
                    "L {} {} {}",
                    u8::from(id),
                    PointBits(line.a),
                    PointBits(line.b)
                )
            }
            Segment::Curve(id, curve) => write!(
                f,
                "C {} {} {} {} {}",
                u8::from(id),
                PointBits(curve.a),
                PointBits(curve.b),
                PointBits(curve.c),
                PointBits(curve.d)
            ),
            Segment::End(closed) => write!(f, "E {}", u8::from(closed)),
        }
    }
}
