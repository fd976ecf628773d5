//! What the maths hosts answer on examples.
#![tactic(auto)]

#[cfg(test)]
mod byte_rows;
#[cfg(test)]
mod series;
#[cfg(test)]
mod table;
