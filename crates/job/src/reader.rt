ghost use Rattle.std.specs.Prelude.{◌≡◌};
ghost use Rattle.job.specs.Readers.{start};

mod items;
mod jobs;

/// Reads a job's bytes, which the caller lends, from a place on; by rule a reader is these two.
#[derive(Drop)]
pub struct JobReader<'a> {
    bytes: &'a [u8],
    place: usize,
}

impl<'a> JobReader<'a> {
    /// A reader at the first byte.
    pub fn new(bytes: &'a [u8]) -> JobReader<'a>
        ensures { result ≡ start bytes.entry }
    {
        JobReader { bytes, place: 0 }
    }

    /// The offset of the next letter.
    pub fn place(&self) -> usize
        ensures { result ≡ self.now.place }
    {
        self.place
    }
}
