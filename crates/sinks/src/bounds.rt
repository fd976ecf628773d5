ghost use Rattle.std.specs.Prelude.{◌≡◌, List, None, IfSome};
ghost use Rattle.path.specs.declared.geometry.Vector.{Vector};
ghost use Rattle.sinks.specs.Boxes.{spreads, points};
ghost use Rattle.sinks.specs.Corners.{InOrder};

use crate::bounding_box::{BoundingBox, widen};
use crate::sink::{Refused, Sink};
use path::command::Command;

/// A layer over any sink: it hands every command on, and keeps the box around the points of those
/// taken, as they came. A point with a NaN is passed over.
#[derive(Drop)]
pub struct Bounds<S> {
    inner: S,
    bounds: Option<BoundingBox>,
}

impl<S: Sink> Bounds<S> {
    /// A layer that has seen no point.
    pub fn new(inner: S) -> Bounds<S>
        ensures { result ≡ record { inner = inner; bounds = None } }
    {
        Bounds {
            inner,
            bounds: None,
        }
    }

    /// The box, none where no point was taken that is a number.
    pub fn bounds(&self) -> Option<BoundingBox>
        ensures value { result ≡ self.now.bounds }
        ensures seen { (ps : List Vector)
            → self.now.bounds ≡ spreads None ps → result ≡ spreads None ps }
        ensures ordered { IfSome result InOrder }
    {
        let bounds = self.bounds;
        if let Some(bounds) = bounds {
            bounds.is_in_order();
        }
        bounds
    }

    /// Ends the layer, and hands out the sink below.
    pub fn into_inner(self) -> S
        ensures { result ≡ self.inner }
    {
        let Bounds { inner, bounds: _ } = self;
        inner
    }
}

impl<S: Sink> Sink for Bounds<S> {
    ghost acts = { record {
      meaning = λ s. S.acts.meaning s.inner;
      took = λ s c. record { inner = S.acts.took s.inner c; bounds = spreads s.bounds (points c) };
    } };

    ghost kept = { λ s c. S.kept s.inner c };

    ghost grows = { λ s c fits. S.grows s.inner c fits };

    fn send(&mut self, c: Command) -> Result<(), Refused> {
        self.inner.send(c)?;
        self.bounds = widen_all(self.bounds, c);
        Ok(())
    }
}

fn widen_all(bounds: Option<BoundingBox>, c: Command) -> Option<BoundingBox>
    ensures { result ≡ spreads bounds (points c) }
{
    match c {
        Command::MoveTo(p) | Command::LineTo(p) => widen(bounds, p),
        Command::CurveTo(a, b, p) => widen(widen(widen(bounds, a), b), p),
        Command::QuadTo(a, p) => widen(widen(bounds, a), p),
        Command::Close => bounds,
    }
}
