ghost use Rattle.std.specs.Prelude.{◌≡◌, ◌+◌, ◌≤◌, length, Some};
ghost use Rattle.maths.specs.ByteRows.{word_at};
ghost use Rattle.stroke_lines.specs.Settings.{values_of, setting_of, setting_after};
ghost use Rattle.stroke_lines.specs.Messages.{message};

use std::fmt;

const MOST_SEGMENTS: usize = 70_000;

const MOST_PLACES: usize = 1_048_576;

const MOST_ROWS: usize = 65_536;

const HEADER_BYTES: usize = 16;

const ROW_BYTES: usize = 9;

const MOST_JOB_BYTES: usize = 131_072;

/// What a replay is told: how many segments the storage can hold, how many places the record list has,
/// the step budget, the rows of the table host, nine bytes each, and the job's bytes.
#[derive(Clone, Copy)]
pub struct Setting<'a> {
    pub segments: usize,
    pub places: usize,
    pub budget: u32,
    pub rows: &'a [u8],
    pub job: &'a [u8],
}

/// Why some bytes tell no replay.
#[derive(Clone, Copy, PartialEq, Eq)]
pub enum Unfit {
    ShortHeader,
    TooManySegments,
    TooManyPlaces,
    TooManyRows,
    ShortRows,
    LongJob,
}

impl fmt::Display for Unfit {
    ghost output = { λ why. Some (message why) };

    fn fmt<W: fmt::Write>(&self, out: &mut fmt::Formatter<W>) -> fmt::Result {
        out.write_str(match self {
            Unfit::ShortHeader => "! the four numbers are cut short",
            Unfit::TooManySegments => "! more than 70000 segments",
            Unfit::TooManyPlaces => "! more than 1048576 places",
            Unfit::TooManyRows => "! more than 65536 rows",
            Unfit::ShortRows => "! the rows are cut short",
            Unfit::LongJob => "! the job is longer than 131072 bytes",
        })
    }
}

impl<'a> Setting<'a> {
    /// The setting that the bytes tell: four numbers of 32 bits, high byte first, the rows, and the job.
    pub fn read(bytes: &'a [u8]) -> Result<Setting<'a>, Unfit>
        ensures { values_of result ≡ setting_of bytes.now }
    {
        if bytes.len() < HEADER_BYTES {
            return Err(Unfit::ShortHeader);
        }
        let segments = word_at(bytes, 0) as usize;
        let places = word_at(bytes, 4) as usize;
        let budget = word_at(bytes, 8);
        let rows = word_at(bytes, 12) as usize;
        let rest = &bytes[HEADER_BYTES..];
        setting_after(segments, places, budget, rows, rest)
    }
}

// The number of 32 bits at a place, high byte first.
fn word_at(bytes: &[u8], i: usize) -> u32
    requires { i + 4 ≤ length bytes.now }
    ensures { result ≡ word_at bytes.now i }
{
    u32::from_be_bytes([bytes[i], bytes[i + 1], bytes[i + 2], bytes[i + 3]])
}

#[tactic(auto, unfolding(crate::specs::Settings::setting_after))]
fn setting_after(
    segments: usize,
    places: usize,
    budget: u32,
    rows: usize,
    bytes: &[u8],
) -> Result<Setting<'_>, Unfit>
    ensures { values_of result ≡ setting_after segments places budget rows bytes.now }
{
    if segments > MOST_SEGMENTS {
        return Err(Unfit::TooManySegments);
    }
    if places > MOST_PLACES {
        return Err(Unfit::TooManyPlaces);
    }
    if rows > MOST_ROWS {
        return Err(Unfit::TooManyRows);
    }
    let Some((rows, job)) = bytes.split_at_checked(ROW_BYTES * rows) else {
        return Err(Unfit::ShortRows);
    };
    if job.len() > MOST_JOB_BYTES {
        return Err(Unfit::LongJob);
    }
    Ok(Setting {
        segments,
        places,
        budget,
        rows,
        job,
    })
}
