//! Lines and cubic curves: their arithmetic, step by step in f32, and the times at which a curve bends most.
#![tactic(auto)]

pub mod bend;
pub mod curve;
pub mod line;
pub mod roots;
