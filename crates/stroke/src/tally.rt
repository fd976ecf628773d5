/// What a stroke answers: how many commands its sink took, and how many dash steps were taken.
#[derive(Clone, Copy, PartialEq, Eq)]
pub struct Tally {
    pub sent: u64,
    pub steps: u32,
}
