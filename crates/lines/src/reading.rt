ghost use Rattle.std.specs.Prelude.{◌≡◌, ◌<◌, drop, length, take, IfOk, IfSome, OnOk, Some};
ghost use Rattle.std.specs.Io.KnownBytes.{Consumes, IsAtEnd};
ghost use Rattle.std.specs.Io.{ReadsAtMost};
ghost use Rattle.lines.specs.Streams.{Begins};

use std::alloc::Global;
use std::io;
use std::io::{ErrorKind, Read};

/// Reads into the places until they are full or the reader is at its end, and answers how many bytes
/// there are. What the reader has after them it keeps.
pub fn read_front<R: Read>(reader: &mut R, places: &mut [u8]) -> io::Result<usize>
    ensures fits { ReadsAtMost result places.new }
    ensures bytes { IfOk result (λ n. IfSome (R.remaining reader.old) (λ xs.
        take n places.new ≡ take (length places.old) xs)) }
    ensures left { OnOk result (IfSome (R.remaining reader.old) (λ xs.
        R.remaining reader.new ≡ Some (drop (length places.old) xs))) }
{
    filled(reader, places)
}

/// Reads likewise into new memory, so many bytes at most.
pub fn read_up_to<R: Read>(heap: Global, reader: &mut R, most: usize) -> io::Result<Vec<u8>>
    ensures bytes { IfOk result (λ v. IfSome (R.remaining reader.old) (λ xs.
        v.items ≡ take most xs)) }
    ensures left { OnOk result (IfSome (R.remaining reader.old) (λ xs.
        R.remaining reader.new ≡ Some (drop most xs))) }
{
    let mut bytes = vec![in heap; 0; most]?;
    let count = read_front(reader, &mut bytes)?;
    bytes.truncate(count);
    Ok(bytes)
}

fn filled<R: Read>(reader: &mut R, places: &mut [u8]) -> io::Result<usize>
    ensures fits { ReadsAtMost result places.new }
    ensures bytes { IfOk result (λ n.
        Begins (R.remaining reader.old) (R.remaining reader.new) (length places.old)
        (take n places.new)) }
{
    let mut count = 0;
    for _ in 0..places.len() {
        let more = read_some(reader, &mut places[count..])?;
        if more == 0 {
            return Ok(count);
        }
        count += more;
    }
    Ok(count)
}

// One read, again where a signal broke it off. The tries are counted, so that they end.
fn read_some<R: Read>(reader: &mut R, places: &mut [u8]) -> io::Result<usize>
    ensures fits { ReadsAtMost result places.new }
    ensures bytes { IfOk result (λ n.
        Consumes (R.remaining reader.old) (R.remaining reader.new) (take n places.new)) }
    ensures end { IfOk result (λ n. n ≡ 0 → 0 < length places.old →
        IsAtEnd (R.remaining reader.new)) }
{
    for _ in 0..u64::MAX {
        match reader.read(places) {
            Err(e) if e.kind() == ErrorKind::Interrupted => {}
            answer => return answer,
        }
    }
    Err(io::Error::from(ErrorKind::TimedOut))
}
