//! Replays Rust's own answers, from standard input, through the series host, and prints for each
//! function how many answers are equal and how far the others lie.
#![tactic(auto)]

use crate::figures::{Figures, limit, reach, replayed};
use maths::byte_rows::decoded;
use maths::host::Function;
use maths::series::SeriesHost;
use std::io;
use std::io::Read;

mod figures;
mod steps;

fn main(rt: HostRuntime) -> io::Result<()> {
    let mut bytes = Vec::new(rt.alloc());
    rt.stdin().read_to_end(&mut bytes)?;
    let rows = decoded(rt.alloc(), &bytes)?;
    let mut host = SeriesHost::new();
    for f in Function::all() {
        let figures = replayed(&mut host, f, &rows);
        print_figures(&rt, f, figures)?;
    }
    Ok(())
}

fn print_figures(rt: &HostRuntime, f: Function, figures: Figures) -> io::Result<()> {
    let Figures {
        rows,
        equal,
        steps,
        apart,
        kept,
    } = figures;
    let kept = if kept { "kept" } else { "broken" };
    println!(rt; "{f}: {rows} rows, {equal} equal, worst {steps} in the last place")?;
    println!(rt;
        "  to {}: worst {apart}/2^40, limit {} {kept}",
        reach(f),
        limit(f)
    )
}
