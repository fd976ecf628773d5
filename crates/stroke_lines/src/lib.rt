//! What the programs `outline` and `replay` print: a job's stroke, line by line.
#![tactic(auto)]

pub mod drawn;
pub mod outline;
pub mod replay;
pub mod setting;
