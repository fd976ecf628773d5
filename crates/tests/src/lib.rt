//! What the crates do on examples.
#![tactic(auto)]

#[cfg(test)]
mod bezier;
#[cfg(test)]
mod containers;
#[cfg(test)]
mod dash_walks;
#[cfg(test)]
mod ellipses;
#[cfg(test)]
mod jobs;
#[cfg(test)]
mod listings;
#[cfg(test)]
mod lone_arcs;
#[cfg(test)]
mod piles;
#[cfg(test)]
mod printed;
#[cfg(test)]
mod roots;
#[cfg(test)]
mod storages;
#[cfg(test)]
mod streams;
#[cfg(test)]
mod strokes;
#[cfg(test)]
mod tapes;
#[cfg(test)]
mod vectors;
