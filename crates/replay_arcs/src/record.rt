ghost use Rattle.std.specs.Prelude.{◌≤◌, length, IfSome};
ghost use Rattle.std.specs.Iterator.{at_most};

use arcs::arc_to::{ArcSize, ArcSweep, ArcTo};
use job::float::float_of;
use lists::counted::counted;
use maths::byte_rows::ROW_BYTES;
use path::geometry::Point;
use std::num::f64_from_bits_with_nan;

/// A point in f64.
#[derive(Clone, Copy)]
pub(crate) struct Wide {
    pub x: f64,
    pub y: f64,
}

/// The two numbers of a place, as they are written.
pub(crate) type PlaceBytes = [[u8; 8]; 2];

/// The number of bytes of a place.
const PLACE_BYTES: usize = 16;

/// The parts of an arc at which its places are noted, in 24ths of its turn: where one to four equal curves have
/// their middles and their ends.
pub(crate) const PARTS: [usize; 11] = [3, 4, 6, 8, 9, 12, 15, 16, 18, 20, 21];

/// The whole turn in such parts.
pub(crate) const WHOLE: usize = 24;

/// An arc with the answers of a maths host.
#[derive(Clone, Copy)]
pub(crate) struct Asked<'a> {
    pub alone: bool,
    pub arc: ArcTo,
    pub rows: &'a [u8],
}

/// An arc, and where it should go unless that does not fit.
#[derive(Clone, Copy)]
pub(crate) struct Noted<'a> {
    // A number and no enum: kinds have no names, in the file or elsewhere.
    pub kind: u8,
    pub arc: ArcTo,
    pub way: Option<Way<'a>>,
}

/// The fewest curves of an arc, how far it goes from its start, and its places at some parts of its turn.
#[derive(Clone, Copy)]
pub(crate) struct Way<'a> {
    pub fewest: u8,
    pub size: f32,
    pub places: &'a [PlaceBytes],
}

#[derive(Clone, Copy)]
pub(crate) enum Record<'a> {
    Asked(Asked<'a>),
    Noted(Noted<'a>),
}

/// The bytes are no record.
#[derive(Clone, Copy)]
pub(crate) struct Damaged;

/// The records that some bytes hold; after a damaged one there is none.
#[derive(Clone, Copy)]
pub(crate) struct Records<'a> {
    left: &'a [u8],
}

impl<'a> Records<'a> {
    pub(crate) fn new(bytes: &'a [u8]) -> Records<'a> {
        Records { left: bytes }
    }
}

impl<'a> Iterator for Records<'a> {
    type Item = Result<Record<'a>, Damaged>;

    ghost remaining = { λ s. at_most (length s.left.now) };

    fn next(&mut self) -> Option<Result<Record<'a>, Damaged>> {
        let (letter, bytes) = self.left.split_first()?;
        match Record::lettered(*letter, bytes) {
            Some((record, left)) => {
                self.left = left;
                Some(Ok(record))
            }
            None => {
                self.left = &[];
                Some(Err(Damaged))
            }
        }
    }
}

/// What bytes can begin with.
trait FromBytes<'a>: Sized {
    /// The value that the bytes begin with, and the bytes after it; none where it is damaged.
    fn first(bytes: &'a [u8]) -> Option<(Self, &'a [u8])>
        ensures { IfSome result (λ p. length p.1.now ≤ length bytes.now) };
}

impl<'a> Record<'a> {
    // The record that begins with the letter, and the bytes after it: what a `FromBytes` says, of bytes
    // and a letter.
    fn lettered(letter: u8, bytes: &'a [u8]) -> Option<(Record<'a>, &'a [u8])>
        ensures { IfSome result (λ p. length p.1.now ≤ length bytes.now) }
    {
        match letter {
            b'A' => {
                let (asked, bytes) = Asked::first(bytes)?;
                Some((Record::Asked(asked), bytes))
            }
            b'B' => {
                let (noted, bytes) = Noted::first(bytes)?;
                Some((Record::Noted(noted), bytes))
            }
            _ => None,
        }
    }
}

impl<'a> FromBytes<'a> for Asked<'a> {
    fn first(bytes: &'a [u8]) -> Option<(Asked<'a>, &'a [u8])> {
        let (alone, bytes) = bool::first(bytes)?;
        let (arc, bytes) = ArcTo::first(bytes)?;
        let (rows, bytes) = counted(bytes, ROW_BYTES)?;
        Some((Asked { alone, arc, rows }, bytes))
    }
}

impl<'a> FromBytes<'a> for Noted<'a> {
    fn first(bytes: &'a [u8]) -> Option<(Noted<'a>, &'a [u8])> {
        let (kind, bytes) = bytes.split_first()?;
        let (arc, bytes) = ArcTo::first(bytes)?;
        let (way, bytes) = FromBytes::first(bytes)?;
        let noted = Noted {
            kind: *kind,
            arc,
            way,
        };
        Some((noted, bytes))
    }
}

impl<'a> FromBytes<'a> for Way<'a> {
    fn first(bytes: &'a [u8]) -> Option<(Way<'a>, &'a [u8])> {
        let (fewest, bytes) = bytes.split_first()?;
        let (size, bytes) = f32::first(bytes)?;
        let (places, bytes) = FromBytes::first(bytes)?;
        let way = Way {
            fewest: *fewest,
            size,
            places,
        };
        Some((way, bytes))
    }
}

// A flag that says whether there is a value, and the value.
impl<'a, T: FromBytes<'a>> FromBytes<'a> for Option<T> {
    fn first(bytes: &'a [u8]) -> Option<(Option<T>, &'a [u8])> {
        let (given, bytes) = bool::first(bytes)?;
        if given {
            let (value, bytes) = T::first(bytes)?;
            Some((Some(value), bytes))
        } else {
            Some((None, bytes))
        }
    }
}

// The places at all parts.
impl<'a> FromBytes<'a> for &'a [PlaceBytes] {
    fn first(bytes: &'a [u8]) -> Option<(&'a [PlaceBytes], &'a [u8])> {
        let (places, bytes) = bytes.split_at_checked(PARTS.len() * PLACE_BYTES)?;
        let (numbers, _) = places.as_chunks::<8>();
        let (places, _) = numbers.as_chunks::<2>();
        Some((places, bytes))
    }
}

impl<'a> FromBytes<'a> for ArcTo {
    fn first(bytes: &'a [u8]) -> Option<(ArcTo, &'a [u8])> {
        let (from, bytes) = Point::first(bytes)?;
        let (rx, bytes) = f32::first(bytes)?;
        let (ry, bytes) = f32::first(bytes)?;
        let (angle, bytes) = f32::first(bytes)?;
        let (to, bytes) = Point::first(bytes)?;
        let (size, bytes) = ArcSize::first(bytes)?;
        let (sweep, bytes) = ArcSweep::first(bytes)?;
        let arc = ArcTo {
            from,
            rx,
            ry,
            angle,
            size,
            sweep,
            to,
        };
        Some((arc, bytes))
    }
}

// A flag that chooses between two values: what a `FromBytes` says, of bytes and the two.
fn chosen<T: Copy>(bytes: &[u8], unset: T, set: T) -> Option<(T, &[u8])>
    ensures { IfSome result (λ p. length p.1.now ≤ length bytes.now) }
{
    let (flag, bytes) = bool::first(bytes)?;
    Some((if flag { set } else { unset }, bytes))
}

impl<'a> FromBytes<'a> for ArcSize {
    fn first(bytes: &'a [u8]) -> Option<(ArcSize, &'a [u8])> {
        chosen(bytes, ArcSize::Small, ArcSize::Large)
    }
}

impl<'a> FromBytes<'a> for ArcSweep {
    fn first(bytes: &'a [u8]) -> Option<(ArcSweep, &'a [u8])> {
        chosen(bytes, ArcSweep::Negative, ArcSweep::Positive)
    }
}

impl<'a> FromBytes<'a> for Point {
    fn first(bytes: &'a [u8]) -> Option<(Point, &'a [u8])> {
        let (x, bytes) = f32::first(bytes)?;
        let (y, bytes) = f32::first(bytes)?;
        Some((Point::new(x, y), bytes))
    }
}

impl<'a> FromBytes<'a> for f32 {
    fn first(bytes: &'a [u8]) -> Option<(f32, &'a [u8])> {
        let (bits, bytes) = bytes.split_first_chunk::<4>()?;
        Some((number(*bits), bytes))
    }
}

impl<'a> FromBytes<'a> for bool {
    fn first(bytes: &'a [u8]) -> Option<(bool, &'a [u8])> {
        let (flag, bytes) = bytes.split_first()?;
        match *flag {
            0 => Some((false, bytes)),
            1 => Some((true, bytes)),
            _ => None,
        }
    }
}

impl From<PlaceBytes> for Wide {
    fn from(bytes: PlaceBytes) -> Wide {
        let [x, y] = bytes.map(|bytes| f64_from_bits_with_nan(u64::from_be_bytes(bytes)));
        Wide { x, y }
    }
}

fn number(bytes: [u8; 4]) -> f32 {
    float_of(u32::from_be_bytes(bytes))
}
