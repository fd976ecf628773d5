//! Jobs: what one is made of and how it is spelled in bytes, its reader, and two sinks that write its bytes.
#![tactic(auto)]

pub mod byte_sink;
pub mod float;
mod history;
pub mod item;
pub mod letter;
mod operands;
pub mod reader;
pub mod tape;
pub mod whole;
pub mod writer;
