ghost use Rattle.std.specs.Prelude.{◌≡◌};
ghost use Rattle.sinks.specs.Shifts.{moved_point, moved, shifted};
ghost use Rattle.sinks.specs.ShiftLaws.{kind_moved, shifted_takes, shifted_joined};
ghost use Rattle.std.proofs.Common.{ap, ◌∙◌};

use crate::sink::{Refused, Sink};
use path::command::Command;
use path::geometry::{Point, Vector};

/// A layer over any sink: every point is moved by one vector before it is handed on.
#[derive(Drop)]
pub struct Shifted<S> {
    inner: S,
    by: Vector,
}

impl<S: Sink> Shifted<S> {
    pub fn new(inner: S, by: Vector) -> Shifted<S>
        ensures { result ≡ record { inner = inner; by = by } }
    {
        Shifted { inner, by }
    }

    /// Ends the layer, and hands out the sink below. Each layer takes its own struct apart.
    pub fn into_inner(self) -> S
        ensures { result ≡ self.inner }
    {
        let Shifted { inner, by: _ } = self;
        inner
    }
}

fn shift_point(by: Vector, p: Point) -> Point
    ensures { result ≡ moved_point by p }
{
    p.add(by)
}

fn shift(by: Vector, c: Command) -> Command
    ensures { result ≡ moved by c }
{
    match c {
        Command::MoveTo(p) => Command::MoveTo(shift_point(by, p)),
        Command::LineTo(p) => Command::LineTo(shift_point(by, p)),
        Command::CurveTo(a, b, p) => {
            Command::CurveTo(shift_point(by, a), shift_point(by, b), shift_point(by, p))
        }
        Command::QuadTo(a, p) => Command::QuadTo(shift_point(by, a), shift_point(by, p)),
        Command::Close => Command::Close,
    }
}

impl<S: Sink> Sink for Shifted<S> {
    ghost acts = { record {
      meaning = λ s. shifted s.by (S.acts.meaning s.inner);
      took = λ s c. record { inner = S.acts.took s.inner (moved s.by c); by = s.by };
    } };

    ghost kept = { λ s c. S.kept s.inner (moved s.by c) ∙ kind_moved s.by c };

    ghost grows = { λ s c fits.
        ap (shifted s.by) (S.grows s.inner (moved s.by c) (shifted_takes s.by (S.acts.meaning s.inner) c fits))
        ∙ shifted_joined s.by (S.acts.meaning s.inner) c };

    fn send(&mut self, c: Command) -> Result<(), Refused> {
        self.inner.send(shift(self.by, c))
    }
}
