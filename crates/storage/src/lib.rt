//! Where the segments of a run are held while a stroke is drawn: the interface, and two that meet it.
#![tactic(auto)]

pub mod lent_storage;
pub mod storage;
pub mod storage128;
