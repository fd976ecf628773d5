use lines::listing::listing;
use std::alloc::Global;
use std::io;
use std::io::{ErrorKind, Read, Write};
use std::test::Fail;

// Gives its bytes one by one, each after a read that a signal broke off; after them it is at its end, or
// fails.
#[derive(Drop)]
struct Dripping<'a> {
    bytes: &'a [u8],
    broken_off: bool,
    fails: bool,
}

impl Read for Dripping<'_> {
    fn read(&mut self, places: &mut [u8]) -> io::Result<usize> {
        self.broken_off = !self.broken_off;
        if self.broken_off {
            return Err(io::Error::from(ErrorKind::Interrupted));
        }
        let Some((first, rest)) = self.bytes.split_first() else {
            if self.fails {
                return Err(io::Error::from(ErrorKind::Other));
            }
            return Ok(0);
        };
        if places.is_empty() {
            return Ok(0);
        }
        places[0] = *first;
        self.bytes = rest;
        Ok(1)
    }
}

// Takes three bytes of a write at most, and so many in all; it fails then.
#[derive(Drop)]
struct Narrow {
    taken: Vec<u8>,
    most: usize,
}

impl Write for Narrow {
    fn write(&mut self, bytes: &[u8]) -> io::Result<usize> {
        let room = self.most.saturating_sub(self.taken.len());
        let count = bytes.len().min(room).min(3);
        if count == 0 {
            return Err(io::Error::from(ErrorKind::Other));
        }
        self.taken.extend_from_slice(&bytes[..count])?;
        Ok(count)
    }

    fn flush(&mut self) -> io::Result<()> {
        Ok(())
    }
}

const JOB: &[u8] = b"W\x40\x00\x00\x00J\x00ZZ";

const TEXT: &[u8] = b"W 40000000\nJ 0\nI 40800000\nS 0\nE 0\nO 00000000\nZ\nZ\n= 2 0\n";

// Whether it failed, and what was written.
fn listed(heap: Global, fails: bool, most: usize) -> (bool, Vec<u8>) {
    let mut reader = Dripping {
        bytes: JOB,
        broken_off: false,
        fails,
    };
    let mut writer = Narrow {
        taken: Vec::new(heap),
        most,
    };
    let failed = listing(&mut reader, &mut writer).is_err();
    (failed, writer.taken)
}

// A reader that fails leaves nothing written, and a writer that fails a front of the text.
#[test]
fn failures(rt: HostRuntime) -> Result<(), Fail> {
    let (failed, taken) = listed(rt.alloc(), true, 1000);
    assert!(rt; failed);
    assert_eq!(rt; taken.len(), 0);
    for most in 0..TEXT.len() + 2 {
        let (failed, taken) = listed(rt.alloc(), false, most);
        let all = TEXT.len() <= most;
        assert_eq!(rt; failed, !all);
        assert_eq!(rt; taken.as_slice(), &TEXT[..most.min(TEXT.len())]);
    }
    Ok(())
}
