//! Where commands go: the interface of a sink, a list that keeps them, and two layers over any sink.
#![tactic(auto)]

pub mod bounding_box;
pub mod bounds;
pub mod record_list;
pub mod shifted;
pub mod sink;
