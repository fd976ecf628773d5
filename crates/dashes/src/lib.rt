//! Dashes: which lengths make a pattern, and the walk of a pattern along a run. Nothing is drawn here.
#![tactic(auto)]

pub mod dasher;
pub mod pattern;
mod remainder;
pub mod steps;
