use path::style::{Cap, Join};

/// The values that a stroke is drawn with: half its width, its join, how long a miter may be at
/// most (1 over the ratio of its length to the width), and its caps.
#[derive(Clone, Copy, PartialEq)]
pub struct Nib {
    pub radius: f32,
    pub join: Join,
    pub inv_miter_limit: f32,
    pub start_cap: Cap,
    pub end_cap: Cap,
}
