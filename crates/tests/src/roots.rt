use curves::bend::max_curvature;
use curves::curve::Curve;
use curves::roots::Roots;
use job::float::bits_of;
use maths::host::Function;
use maths::series::SeriesHost;
use maths::table::{Row, TableHost};
use path::geometry::Point;

// The rows are the questions that the Rust asked at these curves, with the answers that it had. The
// expected roots are its own, but where a comment says otherwise.

fn row(f: Function, argument: u32, answer: u32) -> Row {
    Row {
        function: u8::from(f),
        argument,
        answer,
    }
}

// The roots by their bits, and how many there are. A place past them is 0, which `max_curvature` ensures
// and nobody can read: here it counts as 0.
fn bits(r: Roots) -> ([u32; 3], usize) {
    ([0, 1, 2].map(|i| r.get(i).map_or(0, bits_of)), r.len())
}

fn at(x: f32, y: f32) -> Point {
    Point::new(x, y)
}

#[test]
fn three_roots(rt: HostRuntime) {
    let curve = Curve::new(at(0.0, 0.0), at(-5.0, -1.0), at(-8.0, 5.0), at(-9.0, 9.0));
    let rows = [
        row(Function::ArcCosine, 0, 0x3FC9_0FDB),
        row(Function::Cosine, 0x3F06_0A92, 0x3F5D_B3D7),
        row(Function::Cosine, 0x4027_8D37, 0xBF5D_B3D9),
        row(Function::Cosine, 0xBFC9_0FDB, 0xB33B_BD2E),
    ];
    let found = max_curvature(curve, &mut TableHost::new(&rows));
    assert_eq!(rt; bits(found), ([0x3E18_D1F4, 0x3F47_1C72, 0x3F80_0000], 3));
}

// The first two roots are equal, so the third is lost with the second.
#[test]
fn equal_roots(rt: HostRuntime) {
    let curve = Curve::new(at(0.0, 0.0), at(7.0, 9.0), at(11.0, 15.0), at(6.0, 15.0));
    let rows = [
        row(Function::ArcCosine, 0, 0x3FC9_0FDB),
        row(Function::Cosine, 0x3F06_0A92, 0x3F5D_B3D7),
        row(Function::Cosine, 0x4027_8D37, 0xBF5D_B3D9),
        row(Function::Cosine, 0xBFC9_0FDB, 0xB33B_BD2E),
    ];
    let found = max_curvature(curve, &mut TableHost::new(&rows));
    assert_eq!(rt; bits(found), ([0, 0, 0], 1));
}

#[test]
fn roots_of_a_loop(rt: HostRuntime) {
    let curve = Curve::new(at(0.1, -0.2), at(10.0, 7.0), at(-3.0, 5.0), at(0.3, 0.4));
    let rows = [
        row(Function::ArcCosine, 0x3F18_82CD, 0x3F6E_BF07),
        row(Function::Cosine, 0x3E9F_2A05, 0x3F73_BAC4),
        row(Function::Cosine, 0x4019_EFD3, 0xBF3D_AE21),
        row(Function::Cosine, 0xBFE4_4AA3, 0xBE58_3299),
    ];
    let found = max_curvature(curve, &mut TableHost::new(&rows));
    assert_eq!(rt; bits(found), ([0x3EB0_1B9F, 0x3F2A_2B93, 0x3F4F_9274], 3));
}

// No row answers the first cosine, so the first root is NaN: it swaps with nothing. The order is that
// of the rule, and not the Rust's.
#[test]
fn nan_among_three(rt: HostRuntime) {
    let curve = Curve::new(at(0.0, 0.0), at(-5.0, -1.0), at(-8.0, 5.0), at(-9.0, 9.0));
    let rows = [
        row(Function::ArcCosine, 0, 0x3FC9_0FDB),
        row(Function::Cosine, 0x4027_8D37, 0xBF5D_B3D9),
        row(Function::Cosine, 0xBFC9_0FDB, 0xB33B_BD2E),
    ];
    let found = max_curvature(curve, &mut TableHost::new(&rows));
    assert_eq!(rt; bits(found), ([0x7FC0_0000, 0x3F47_1C72, 0x3F80_0000], 3));
}

// A curve that stays at one point has a NaN for its one root.
#[test]
fn root_of_a_point(rt: HostRuntime) {
    let p = at(5.0, 5.0);
    let found = max_curvature(Curve::new(p, p, p, p), &mut SeriesHost::new());
    assert_eq!(rt; bits(found), ([0x7FC0_0000, 0, 0], 1));
}
