//! Strokes a job by the answers of another machine's maths, and prints the outline.
#![tactic(auto)]

use std::io;
use stroke_lines::replay::replay;

fn main(rt: HostRuntime) -> io::Result<()> {
    replay(rt.alloc(), &mut rt.stdin(), &mut rt.stdout())
}
