//! The types that a drawing and a stroke are made of.
#![tactic(auto)]

pub mod command;
pub mod geometry;
pub mod refusal;
pub mod style;
