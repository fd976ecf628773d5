ghost use Rattle.std.specs.Prelude.{◌≡◌, map, refl};
ghost use Rattle.std.specs.List.{find};
ghost use Rattle.maths.specs.declared.host.Function.TheVariants.{ArcCosine};
ghost use Rattle.maths.specs.Functions.{apply};
ghost use Rattle.maths.specs.ByteRows.{row_at, rows_in};
ghost use Rattle.maths.specs.declared.table.Rows.TheVariants.{Listed, Spelled};
ghost use Rattle.maths.specs.Tables.{matches, lawful, answer_of, answered, rows_of, by_rows, tabled};
ghost use Rattle.maths.specs.Angles.{looked_up_angle, restricted_angle};
ghost use Rattle.maths.specs.Narrow.{again};

use crate::byte_rows::row;
use crate::host::{Function, MathsHost, in_range, not_a_number};
use std::num::{f32_from_bits_with_nan, f32_to_bits_with_nan};

/// One answer: a function's number, the bits of its argument, and the bits of what it answers.
#[derive(Clone, Copy, PartialEq, Eq)]
pub struct Row {
    // Any byte: a row is what nine bytes say, and one of no function answers nothing.
    pub function: u8,
    pub argument: u32,
    pub answer: u32,
}

impl Row {
    /// Whether it is of the function and argument. All NaN arguments match each other; 0 and -0 do not.
    pub fn matches(self, f: Function, x: f32) -> bool
        ensures { result ≡ matches self f x }
    {
        let argument = f32_from_bits_with_nan(self.argument);
        (self.function == u8::from(f)) & (f32_to_bits_with_nan(argument) == f32_to_bits_with_nan(x))
    }

    // Its answer, for the function that was asked.
    fn lawful_answer(self, f: Function) -> f32
        ensures { result ≡ answer_of self f }
    {
        lawful(f, f32_from_bits_with_nan(self.answer))
    }
}

// A slice that is searched: the library has no heap for a map.
#[derive(Clone, Copy)]
enum Rows<'a> {
    Listed(&'a [Row]),
    // Nine bytes each; a last piece of less than nine is left out.
    Spelled(&'a [u8]),
}

/// A host that answers by the first row that matches. It answers NaN where none does, and where
/// that row has an arc cosine out of its range.
#[derive(Clone, Copy)]
pub struct TableHost<'a> {
    rows: Rows<'a>,
}

impl<'a> TableHost<'a> {
    pub fn new(rows: &'a [Row]) -> TableHost<'a>
        ensures { result ≡ record { rows = Listed rows.entry } }
    {
        TableHost {
            rows: Rows::Listed(rows),
        }
    }

    /// By rows of nine bytes, which are read where they lie; a last piece of less than nine is left out.
    pub fn from_bytes(bytes: &'a [u8]) -> TableHost<'a>
        ensures { result ≡ record { rows = Spelled bytes.entry } }
    {
        TableHost {
            rows: Rows::Spelled(bytes),
        }
    }
}

impl<'a> MathsHost for TableHost<'a> {
    ghost acts = { record { functions = λ s. tabled (rows_of s.rows); asked = λ s _ _. s } };

    ghost same = { λ s f x. refl };

    ghost ranged = { λ s x. restricted_angle (by_rows (rows_of s.rows)) x (looked_up_angle (rows_of s.rows) x) };

    ghost narrow = { λ s. again (by_rows (rows_of s.rows)) };

    #[tactic(auto, using(crate::proofs::Alike::asked_within))]
    fn ask(&mut self, f: Function, x: f32) -> f32 {
        looked_up(self.rows, f, x)
    }
}

fn looked_up(rows: Rows<'_>, f: Function, x: f32) -> f32
    ensures { result ≡ apply (by_rows (rows_of rows.entry)) f x }
{
    answered(f, first_match(rows, f, x))
}

/// What a row that was found answers, NaN where none was and where its arc cosine is out of range.
pub fn answered(f: Function, found: Option<Row>) -> f32
    ensures { result ≡ answered f found }
{
    found.map_or(not_a_number(), |row| row.lawful_answer(f))
}

fn first_match(rows: Rows<'_>, f: Function, x: f32) -> Option<Row>
    ensures { result ≡ find (λ r. matches r f x) (rows_of rows.entry) }
{
    match rows {
        Rows::Listed(rows) => first_listed(rows, f, x),
        Rows::Spelled(bytes) => first_spelled(bytes, f, x),
    }
}

fn first_listed(rows: &[Row], f: Function, x: f32) -> Option<Row>
    ensures { result ≡ find (λ r. matches r f x) rows.now }
{
    rows.iter().copied().find(|row| row.matches(f, x))
}

#[tactic(auto, using(crate::proofs::Chunks::rows_of_chunks), unfolding(crate::specs::ByteRows::rows_in))]
fn first_spelled(bytes: &[u8], f: Function, x: f32) -> Option<Row>
    ensures { result ≡ find (λ r. matches r f x) (rows_in bytes.now) }
{
    let (pieces, _) = bytes.as_chunks();
    first_of(pieces, f, x)
}

fn first_of(pieces: &[[u8; 9]], f: Function, x: f32) -> Option<Row>
    ensures { result ≡ find (λ r. matches r f x) (map (λ p. row_at p 0) pieces.now) }
{
    pieces
        .iter()
        .copied()
        .map(row)
        .find(|row| row.matches(f, x))
}

// An arc cosine out of its range is NaN.
fn lawful(f: Function, y: f32) -> f32
    ensures { result ≡ lawful f y }
{
    match f {
        Function::ArcCosine => angle(y),
        _ => y,
    }
}

fn angle(y: f32) -> f32
    ensures { result ≡ lawful ArcCosine y }
{
    if in_range(y) { y } else { not_a_number() }
}
