ghost use Rattle.std.specs.Prelude.{◌≡◌};
ghost use Rattle.replay_maths.specs.Figures.{reach, limit, in_reach, no_figures, one_more, counted, with_row, replayed, over, row_asked};

use crate::steps;
use maths::host::{Function, MathsHost};
use maths::table::Row;
use std::num::f32_from_bits_with_nan;

/// How far answers lie from what was expected.
#[derive(Clone, Copy, PartialEq, Eq)]
pub struct Figures {
    pub rows: u64,
    /// How many answers are equal bit for bit.
    pub equal: u64,
    /// The most units in the last place between an answer and what was expected.
    pub steps: u64,
    /// The largest difference within the stated range, in units of 2^-40, rounded up.
    pub apart: u64,
    /// Whether each difference within the stated range keeps to the stated limit.
    pub kept: bool,
}

impl Figures {
    /// The figures of no answer.
    pub fn new() -> Figures
        ensures { result ≡ no_figures }
    {
        Figures {
            rows: 0,
            equal: 0,
            steps: 0,
            apart: 0,
            kept: true,
        }
    }

    /// With one answer more, to the argument `x`.
    pub fn counted(self, f: Function, x: f32, expected: f32, answer: f32) -> Figures
        ensures { result ≡ counted self f x expected answer }
    {
        let stated = in_reach(f, x);
        Figures {
            rows: one_more(self.rows, true),
            equal: one_more(self.equal, steps::same(expected, answer)),
            steps: self.steps.max(steps::steps(expected, answer)),
            apart: if stated {
                self.apart.max(steps::apart(expected, answer))
            } else {
                self.apart
            },
            kept: self.kept & (!stated | steps::close(expected, answer, limit(f))),
        }
    }
}

/// How far the stated range of a function goes, both ways.
pub fn reach(f: Function) -> f32
    ensures { result ≡ reach f }
{
    match f {
        Function::Sine | Function::Cosine => 8.0,
        Function::ArcCosine | Function::Tangent | Function::Power => 1.0,
    }
}

/// How far an answer may lie from Rust's within the stated range: 2^-16, 2^-12 or 2^-20.
pub fn limit(f: Function) -> f64
    ensures { result ≡ limit f }
{
    match f {
        Function::Sine | Function::Cosine => 0.0000152587890625,
        Function::ArcCosine | Function::Tangent => 0.000244140625,
        Function::Power => 0.00000095367431640625,
    }
}

fn in_reach(f: Function, x: f32) -> bool
    ensures { result ≡ in_reach f x }
{
    x.abs() <= reach(f)
}

/// A count with one more where `counts` holds; it stops at the greatest `u64`.
pub fn one_more(n: u64, counts: bool) -> u64
    ensures { result ≡ one_more n counts }
{
    if counts { n.saturating_add(1) } else { n }
}

/// The figures of a host's answers to the rows of one function.
pub fn replayed<K: MathsHost>(host: &mut K, f: Function, rows: &[Row]) -> Figures
    ensures value { result ≡ replayed (K.acts.functions host.old) f rows.now no_figures }
    ensures host { host.new ≡ over (row_asked K.acts.asked f) rows.now host.old }
{
    let mut figures = Figures::new();
    for row in rows {
        figures = with_row(host, f, *row, figures);
    }
    figures
}

// That the functions stay is said for the next row; the law says it of one question at a time.
fn with_row<K: MathsHost>(host: &mut K, f: Function, row: Row, figures: Figures) -> Figures
    ensures value { result ≡ with_row (K.acts.functions host.old) f row figures }
    ensures host { host.new ≡ row_asked K.acts.asked f row host.old }
    ensures same { K.acts.functions host.new ≡ K.acts.functions host.old }
{
    if row.function != u8::from(f) {
        return figures;
    }
    let x = f32_from_bits_with_nan(row.argument);
    let expected = f32_from_bits_with_nan(row.answer);
    figures.counted(f, x, expected, host.ask(f, x))
}
