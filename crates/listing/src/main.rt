//! Prints what a job holds: its style, its dashes, its path, and how many of each.
#![tactic(auto)]

use lines::listing::listing;
use std::io;

fn main(rt: HostRuntime) -> io::Result<()> {
    listing(&mut rt.stdin(), &mut rt.stdout())
}
