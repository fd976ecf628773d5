ghost use Rattle.std.specs.Prelude.{MatchOption};
ghost use Rattle.lists.specs.Counted.{CutShort, Counted};

/// The parts of a size that follow their count of four bytes, high byte first, and the bytes after them;
/// none where they are cut short.
pub fn counted(bytes: &[u8], size: usize) -> Option<(&[u8], &[u8])>
    ensures { MatchOption result (CutShort bytes.now size) (λ p. Counted bytes.now size p.0.now p.1.now) }
{
    let (count, bytes) = bytes.split_first_chunk()?;
    let count = u32::from_be_bytes(*count) as usize;
    bytes.split_at_checked(count.checked_mul(size)?)
}
