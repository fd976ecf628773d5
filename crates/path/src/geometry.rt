ghost use Rattle.std.specs.Prelude.{◌≡◌};
ghost use Rattle.path.specs.Vectors.{vector, sum, difference, multiple, dot_product, length_of, normalized, near, near_by, normal_of};

use numbers::sqrt;

/// A vector of the plane, in f32.
#[derive(Clone, Copy, PartialEq)]
pub struct Vector {
    pub x: f32,
    pub y: f32,
}

/// A point of the plane.
pub type Point = Vector;

impl Vector {
    pub fn new(x: f32, y: f32) -> Vector
        ensures { result ≡ vector x y }
    {
        Vector { x, y }
    }

    pub fn length(self) -> f32
        ensures { result ≡ length_of self }
    {
        sqrt(self.x * self.x + self.y * self.y)
    }

    pub fn dot(self, other: Vector) -> f32
        ensures { result ≡ dot_product self other }
    {
        self.x * other.x + self.y * other.y
    }

    /// The vector of length 1 in this direction; zero for a vector of length 0.
    pub fn normalize(self) -> Vector
        ensures { result ≡ normalized self }
    {
        let length = self.length();
        if length == 0.0 {
            return Vector::new(0.0, 0.0);
        }
        let inverse = 1.0 / length;
        Vector::new(self.x * inverse, self.y * inverse)
    }

    /// Whether both differences are below the smallest step from 1 up.
    pub fn nearly_eq(self, other: Vector) -> bool
        ensures { result ≡ near self other }
    {
        self.nearly_eq_by(other, f32::EPSILON)
    }

    pub fn nearly_eq_by(self, other: Vector, epsilon: f32) -> bool
        ensures { result ≡ near_by self other epsilon }
    {
        (self.x - other.x).abs() < epsilon && (self.y - other.y).abs() < epsilon
    }

    pub fn add(self, other: Vector) -> Vector
        ensures { result ≡ sum self other }
    {
        Vector::new(self.x + other.x, self.y + other.y)
    }

    pub fn sub(self, other: Vector) -> Vector
        ensures { result ≡ difference self other }
    {
        Vector::new(self.x - other.x, self.y - other.y)
    }

    pub fn mul(self, factor: f32) -> Vector
        ensures { result ≡ multiple self factor }
    {
        Vector::new(self.x * factor, self.y * factor)
    }
}

/// The unit normal of the line from start to end, on its right-hand side where y points up.
pub fn normal(start: Vector, end: Vector) -> Vector
    ensures { result ≡ normal_of start end }
{
    Vector::new(end.y - start.y, -(end.x - start.x)).normalize()
}
