ghost use Rattle.std.specs.Prelude.{◌≡◌};
ghost use Rattle.stroke_export.specs.Answers.{told};

use path::refusal::Refusal;
use stroke::tally::Tally;

/// What a call answers, in numbers.
#[repr(C)]
#[derive(Clone, Copy, PartialEq, Eq)]
pub struct Answer {
    /// How many bytes were written.
    pub length: u64,
    /// How many commands were written.
    pub sent: u64,
    /// Where a refused call stopped; 0 for one that was accepted.
    pub place: u64,
    /// How many dash steps were taken; 0 for a refused call.
    pub steps: u32,
    /// The refusal's number, 0 for none.
    pub refusal: u32,
}

// A length, and a stroke's answer.
pub(crate) fn told(length: usize, answer: Result<Tally, Refusal>) -> Answer
    ensures { result ≡ told length answer }
{
    let length = length as u64;
    match answer {
        Ok(Tally { sent, steps }) => Answer {
            length,
            sent,
            place: 0,
            steps,
            refusal: 0,
        },
        Err(refusal) => Answer {
            length,
            sent: refusal.sent,
            place: refusal.place as u64,
            steps: 0,
            refusal: u32::from(u8::from(refusal.reason)),
        },
    }
}
