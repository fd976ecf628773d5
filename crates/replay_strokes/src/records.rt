ghost use Rattle.std.specs.Prelude.{◌≡◌, length};
ghost use Rattle.std.specs.Iterator.{at_most};

use lists::counted::counted;

/// The records that the bytes hold, each after its length in four bytes; what is cut short is left out.
#[derive(Drop)]
pub(crate) struct Records<'a> {
    bytes: &'a [u8],
}

impl<'a> Records<'a> {
    pub(crate) fn new(bytes: &'a [u8]) -> Records<'a>
        ensures { result ≡ record { bytes = bytes.entry } }
    {
        Records { bytes }
    }
}

impl<'a> Iterator for Records<'a> {
    type Item = &'a [u8];

    ghost remaining = { λ s. at_most (length s.bytes.now) };

    fn next(&mut self) -> Option<&'a [u8]> {
        let (record, rest) = counted(self.bytes, 1)?;
        self.bytes = rest;
        Some(record)
    }
}
