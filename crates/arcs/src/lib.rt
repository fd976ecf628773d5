//! Arcs of ellipses as cubic curves, as the notes on SVG 1.1's elliptical arc commands (F.6.5 and F.6.6) work
//! them out, and an arc by itself, sent into a sink.
#![tactic(auto)]

pub mod arc_to;
pub mod centre;
pub mod chord;
pub mod ellipse;
mod ends;
pub mod few;
pub mod frame;
pub mod lone_arc;
pub mod radii;
mod sending;
pub mod sweep;
