//! The five real functions that drawing asks for, as an interface, and two hosts that answer them:
//! one works them out, the other reads them from a table.
#![tactic(auto)]

pub mod byte_rows;
pub mod host;
pub mod series;
pub mod table;
