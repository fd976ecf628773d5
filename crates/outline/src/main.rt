//! Strokes a job and prints the outline, command by command, and what was counted.
#![tactic(auto)]

use std::io;
use stroke_lines::outline::outline;

fn main(rt: HostRuntime) -> io::Result<()> {
    outline(&mut rt.stdin(), &mut rt.stdout())
}
