//! Strokes: the outline of a run, drawn into any sink with any maths host.
#![tactic(auto)]

pub mod calls;
mod caps;
mod counted;
pub mod limits;
mod outline;
mod outliner;
mod ring;
mod row;
mod stretch;
mod stroker;
pub mod tally;
