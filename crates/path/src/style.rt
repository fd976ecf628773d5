ghost use Rattle.std.specs.Prelude.{◌≡◌};
ghost use Rattle.path.specs.Styles.{plain, join_number, cap_number, joins, caps, shape_at};

/// How two segments of a stroke are connected.
#[derive(Clone, Copy, PartialEq, Eq)]
pub enum Join {
    /// A straight line.
    Bevel = 0,
    /// Both sides go on to where they meet.
    Miter = 1,
    /// An arc.
    Round = 2,
}

impl From<Join> for u8 {
    ghost from_gives = { λ join n. n ≡ join_number join };

    fn from(join: Join) -> u8 {
        join as u8
    }
}

// `TryFrom` asks for an impl for each type; a table of both would be a list to index.
impl TryFrom<u8> for Join {
    type Error = UnknownShape;

    ghost try_from_gives = { λ n r. r ≡ shape_at joins n };

    fn try_from(number: u8) -> Result<Join, UnknownShape> {
        match number {
            0 => Ok(Join::Bevel),
            1 => Ok(Join::Miter),
            2 => Ok(Join::Round),
            _ => Err(UnknownShape(number)),
        }
    }
}

/// The shape at the beginning or the end of a stroke.
#[derive(Clone, Copy, PartialEq, Eq)]
pub enum Cap {
    /// Flat, at the end itself.
    Butt = 0,
    /// A square, half the width beyond the end.
    Square = 1,
    /// Half a circle about the end.
    Round = 2,
}

impl From<Cap> for u8 {
    ghost from_gives = { λ shape n. n ≡ cap_number shape };

    fn from(shape: Cap) -> u8 {
        shape as u8
    }
}

impl TryFrom<u8> for Cap {
    type Error = UnknownShape;

    ghost try_from_gives = { λ n r. r ≡ shape_at caps n };

    fn try_from(number: u8) -> Result<Cap, UnknownShape> {
        match number {
            0 => Ok(Cap::Butt),
            1 => Ok(Cap::Square),
            2 => Ok(Cap::Round),
            _ => Err(UnknownShape(number)),
        }
    }
}

/// A number that tells no join or cap.
#[derive(Clone, Copy, PartialEq, Eq)]
pub struct UnknownShape(pub u8);

/// How a path is stroked. Its dashes are passed beside it.
#[derive(Clone, Copy, PartialEq)]
pub struct Stroke {
    pub width: f32,
    pub join: Join,
    /// Past this ratio of a miter's length to the width it is drawn as a bevel.
    pub miter_limit: f32,
    pub start_cap: Cap,
    pub end_cap: Cap,
    /// Where in the dashes the stroke begins.
    pub offset: f32,
}

// Written out, since the values are not the defaults of their types.
impl Default for Stroke {
    ghost is_default = { λ s. s ≡ plain };

    fn default() -> Stroke {
        Stroke {
            width: 1.0,
            join: Join::Miter,
            miter_limit: 4.0,
            start_cap: Cap::Butt,
            end_cap: Cap::Butt,
            offset: 0.0,
        }
    }
}
