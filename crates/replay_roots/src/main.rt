//! Roots and ceilings of a table. A line of the input is a step and a bit pattern, and the line that
//! is written for it is the answer's pattern. The input, and the answers to compare with, are made
//! by tools/root_table.rs with the machine's own root and ceiling.
#![tactic(auto)]

use std::num::{f32_from_bits_with_nan, f32_to_bits_with_nan};

// A match, since the name is a word of the input: a table of functions by name would be searched.
fn step(name: &str, x: f32) -> f32 {
    match name {
        "sqrt" => numbers::sqrt(x),
        "ceil" => numbers::ceil(x),
        _ => x,
    }
}

// None at a line that is no step with a pattern.
fn answer(line: &str) -> Option<u32> {
    let (name, pattern) = line.split_once(' ')?;
    let bits = pattern.parse::<u32>().ok()?;
    Some(f32_to_bits_with_nan(step(name, f32_from_bits_with_nan(bits))))
}

fn main(rt: HostRuntime) -> anyhow::Result<()> {
    for line in rt.lines(rt.alloc()) {
        match answer(line?.as_str()) {
            Some(bits) => println!(rt; "{bits}")?,
            None => println!(rt; "no step")?,
        }
    }
    Ok(())
}
