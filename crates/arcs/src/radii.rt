ghost use Rattle.std.specs.Prelude.{◌≡◌};
ghost use Rattle.arcs.specs.Centres.{radii_of, scaled_radii, divided_radii, grown, to_circle, to_ellipse};

use crate::arc_to::ArcTo;
use numbers::sqrt;
use path::geometry::Vector;

/// The radii of an ellipse, along its axes.
#[derive(Clone, Copy, PartialEq)]
pub struct Radii {
    pub x: f32,
    pub y: f32,
}

impl Radii {
    // Those of an arc, without their signs.
    pub(crate) fn of(arc: ArcTo) -> Radii
        ensures { result ≡ radii_of arc }
    {
        Radii {
            x: arc.rx.abs(),
            y: arc.ry.abs(),
        }
    }

    pub(crate) fn scaled(self, k: f32) -> Radii
        ensures { result ≡ scaled_radii self k }
    {
        Radii {
            x: self.x * k,
            y: self.y * k,
        }
    }

    pub(crate) fn divided(self, k: f32) -> Radii
        ensures { result ≡ divided_radii self k }
    {
        Radii {
            x: self.x / k,
            y: self.y / k,
        }
    }

    // Radii that are too small for the ends of an arc grow until they fit.
    pub(crate) fn grown(self, lambda: f32) -> Radii
        ensures { result ≡ grown self lambda }
    {
        if lambda > 1.0 {
            self.scaled(sqrt(lambda))
        } else {
            self
        }
    }

    // From a place along the axes of the ellipse to one on the circle of radius 1.
    pub(crate) fn to_circle(self, v: Vector) -> Vector
        ensures { result ≡ to_circle self v }
    {
        Vector::new(v.x / self.x, v.y / self.y)
    }

    // And back.
    pub(crate) fn to_ellipse(self, v: Vector) -> Vector
        ensures { result ≡ to_ellipse self v }
    {
        Vector::new(v.x * self.x, v.y * self.y)
    }
}
