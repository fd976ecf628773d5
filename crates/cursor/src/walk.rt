use crate::walk::machine::Machine;

mod machine;
mod next;

/// A cursor over the commands of a path, which are passed at each call, as is the maths host. It
/// gives lines, curves and ends; with `split` set, curves are cut into pieces first.
#[derive(Clone, Copy)]
pub struct Segments {
    machine: Machine,
    place: usize,
}
