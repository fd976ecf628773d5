//! What the programs print: a line for each item of a job, and a line that says how it ended. How they
//! read and write.
#![tactic(auto)]

pub mod bits;
pub mod line;
pub mod listing;
pub mod printing;
pub mod program;
pub mod reading;
pub mod writing;
