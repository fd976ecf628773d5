//! The cursor over a path: commands in, segments and ends out, one at a time. Before it, a curve cut into
//! pieces that one offset curve can follow.
#![tactic(auto)]

pub mod cuts;
pub mod pieces;
mod subpath;
pub mod walk;
