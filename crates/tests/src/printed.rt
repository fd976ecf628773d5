use std::alloc::{AllocError, Global};

// What was printed, with a stroke in place of each line break.
pub(crate) fn slashed(heap: Global, printed: &[u8]) -> Result<String, AllocError> {
    let mut text = String::new(heap);
    for byte in printed {
        text.push(if *byte == b'\n' {
            '/'
        } else {
            char::from(*byte)
        })?;
    }
    Ok(text)
}
