//! Lists of elements that can be copied: one in places that the caller lends, one in places of its own.
//! And the parts that follow their count in bytes.
#![tactic(auto)]

pub mod counted;
pub mod fixed;
pub mod lent;
