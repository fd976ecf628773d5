ghost use Rattle.std.specs.Prelude.{◌≡◌, T};
ghost use Rattle.std.specs.Float.Ieee.{le};
ghost use Rattle.pen.specs.Nibs.{least_width, least_radius, width_drawn, radius_of, inverse_limit, nib_of};

use crate::nib::Nib;
use crate::pen::Pen;
use path::style::Stroke;

// Widths below this, and NaN, count as this.
const LEAST_WIDTH: f32 = 0.01;

impl Pen {
    pub fn new(style: Stroke) -> Pen
        ensures { result.nib ≡ nib_of style }
    {
        let nib = Nib {
            radius: radius(style.width),
            join: style.join,
            inv_miter_limit: inverse_limit(style.miter_limit),
            start_cap: style.start_cap,
            end_cap: style.end_cap,
        };
        Pen { nib }
    }

    pub fn nib(self) -> Nib
        ensures value { result ≡ self.nib }
        ensures least { T (le least_radius result.radius) }
    {
        self.nib
    }
}

// By a comparison: `max` leaves open which of two equal numbers it answers, which a proof would have
// to rule out.
#[tactic(auto, using(crate::proofs::Widths::least_is_number))]
fn width_drawn(width: f32) -> f32
    ensures value { result ≡ width_drawn width }
    ensures least { T (le least_width result) }
{
    if LEAST_WIDTH <= width {
        width
    } else {
        LEAST_WIDTH
    }
}

#[tactic(auto, using(crate::proofs::Halves::half_least))]
fn radius(width: f32) -> f32
    ensures value { result ≡ radius_of width }
    ensures least { T (le least_radius result) }
{
    width_drawn(width) * 0.5
}

fn inverse_limit(limit: f32) -> f32
    ensures { result ≡ inverse_limit limit }
{
    if limit >= 1.0 { 1.0 / limit } else { 1.0 }
}
