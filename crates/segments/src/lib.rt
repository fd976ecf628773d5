//! Segments of a path: lines, curves and ends, with the mark by which pieces of one command are known.
#![tactic(auto)]

pub mod mark;
pub mod segment;
