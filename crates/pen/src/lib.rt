//! What a stroke is drawn with: the pen, the offset of a segment, the shape of a corner, and the commands of
//! joins and caps.
#![tactic(auto)]

pub mod caps;
pub mod corner;
pub mod joins;
pub mod nib;
pub mod offset;
pub mod pen;
mod round;
