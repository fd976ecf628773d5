ghost use Rattle.std.specs.Prelude.{◌≡◌, ◌+◌, length, IfSome};
ghost use Rattle.std.specs.Iterator.{at_most};

use lists::counted::counted;
use maths::byte_rows::ROW_BYTES;

/// A drawing: whether its curves are cut, and the bytes of its rows and of its path.
#[derive(Clone, Copy)]
pub(crate) struct Drawing<'a> {
    pub split: bool,
    pub rows: &'a [u8],
    pub path: &'a [u8],
}

/// What is no drawing: it begins with neither 0 nor 1, or is cut short.
#[derive(Clone, Copy, PartialEq, Eq)]
pub(crate) struct Damaged;

/// The drawings that the bytes hold, one after the other; nothing is read after a damaged one.
#[derive(Drop)]
pub(crate) struct Drawings<'a> {
    bytes: &'a [u8],
}

impl<'a> Drawings<'a> {
    pub(crate) fn new(bytes: &'a [u8]) -> Drawings<'a>
        ensures { result ≡ record { bytes = bytes.entry } }
    {
        Drawings { bytes }
    }
}

impl<'a> Iterator for Drawings<'a> {
    type Item = Result<Drawing<'a>, Damaged>;

    ghost remaining = { λ s. at_most (length s.bytes.now) };

    fn next(&mut self) -> Option<Result<Drawing<'a>, Damaged>> {
        if self.bytes.is_empty() {
            return None;
        }
        let Some((drawing, rest)) = first_drawing(self.bytes) else {
            self.bytes = &[];
            return Some(Err(Damaged));
        };
        self.bytes = rest;
        Some(Ok(drawing))
    }
}

// The drawing that the bytes begin with, and the bytes after it; none where it is damaged.
// Besides its rows and its path it takes nine bytes.
fn first_drawing(bytes: &[u8]) -> Option<(Drawing<'_>, &[u8])>
    ensures { IfSome result (λ p. 9 + length p.0.rows.now + length p.0.path.now + length p.1.now ≡ length bytes.now) }
{
    let (split, bytes) = bytes.split_first()?;
    let split = match *split {
        0 => false,
        1 => true,
        _ => return None,
    };
    let (rows, bytes) = counted(bytes, ROW_BYTES)?;
    let (path, bytes) = counted(bytes, 1)?;
    Some((Drawing { split, rows, path }, bytes))
}
