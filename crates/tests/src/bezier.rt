use curves::curve::Curve;
use curves::line::{Line, SegmentTime};
use job::float::bits_of;
use path::geometry::Point;

// The expected bits are the Rust's own answers, its files built unchanged.

fn at(x: f32, y: f32) -> Point {
    Point::new(x, y)
}

fn bump() -> Curve {
    Curve::new(at(0.0, 0.0), at(1.0, 2.0), at(3.0, 3.5), at(4.0, 0.25))
}

fn loop_back() -> Curve {
    Curve::new(at(0.1, -0.2), at(10.0, 7.0), at(-3.0, 5.0), at(0.3, 0.4))
}

fn bits(p: Point) -> [u32; 2] {
    [bits_of(p.x), bits_of(p.y)]
}

fn curve_bits(k: Curve) -> [[u32; 2]; 4] {
    [bits(k.a), bits(k.b), bits(k.c), bits(k.d)]
}

fn time_bits(t: SegmentTime) -> [u32; 2] {
    [bits_of(t.distance), bits_of(t.time)]
}

#[test]
fn lines(rt: HostRuntime) {
    let line = Line::new(at(1.0, 2.0), at(4.0, 6.0));
    assert_eq!(rt; bits_of(line.length()), 0x40A0_0000);
    let part = line.slice(0.25, 0.1);
    assert_eq!(rt;
        [bits(part.a), bits(part.b)],
        [[0x3FE0_0000, 0x4040_0000], [0x3FA6_6666, 0x4019_999A]]
    );
    assert_eq!(rt; time_bits(line.time(2.5)), [0x4020_0000, 0x3F00_0000]);
    assert_eq!(rt; time_bits(line.time(7.0)), [0x40A0_0000, 0x3F80_0000]);
    assert_eq!(rt; bits(line.reverse().a), bits(at(4.0, 6.0)));
}

#[test]
fn lengths_of_curves(rt: HostRuntime) {
    assert_eq!(rt; bits_of(bump().length()), 0x40C5_7C11);
    assert_eq!(rt; bits_of(loop_back().length()), 0x4156_BD05);
}

#[test]
fn slices(rt: HostRuntime) {
    assert_eq!(rt;
        curve_bits(bump().slice(0.25, 0.7)),
        [
            [0x3F68_0000, 0x3FAB_8000],
            [0x3FC3_3332, 0x4000_8000],
            [0x400F_AE14, 0x4017_0000],
            [0x4038_9374, 0x4000_76C9],
        ]
    );
    assert_eq!(rt;
        curve_bits(loop_back().slice(0.25, 0.7)),
        [
            [0x4076_0001, 0x4065_0000],
            [0x4087_F5C1, 0x409D_E147],
            [0x4000_1063, 0x4098_5604],
            [0x3F2C_2F86, 0x406A_3A2A],
        ]
    );
}

#[test]
fn quadratic_and_points(rt: HostRuntime) {
    assert_eq!(rt;
        curve_bits(Curve::from_quadratic(at(1.0, 2.0), at(4.0, 8.0), at(7.0, -1.0))),
        [
            [0x3F80_0000, 0x4000_0000],
            [0x4040_0000, 0x40C0_0000],
            [0x40A0_0000, 0x40A0_0000],
            [0x40E0_0000, 0xBF80_0000],
        ]
    );
    assert_eq!(rt; bits(bump().evaluate(0.3)), [0x3F8E_D917, 0x3FC6_6E97]);
    assert_eq!(rt; bits(loop_back().evaluate(0.3)), [0x4078_AA64, 0x407E_594A]);
}

#[test]
fn times(rt: HostRuntime) {
    assert_eq!(rt;
        time_bits(bump().time(0.5, 0.25)),
        [0x3F00_0000, 0x3D9E_4394]
    );
    assert_eq!(rt;
        time_bits(bump().time(2.0, 0.25)),
        [0x4000_0000, 0x3EA2_3421]
    );
    assert_eq!(rt;
        time_bits(bump().time(100.0, 0.25)),
        [0x40BF_6ABA, 0x3F80_0000]
    );
    assert_eq!(rt;
        time_bits(loop_back().time(2.0, 0.25)),
        [0x4000_0000, 0x3D7C_A167]
    );
    assert_eq!(rt;
        time_bits(loop_back().time(100.0, 0.25)),
        [0x4151_97C2, 0x3F80_0000]
    );
}

#[test]
fn legs(rt: HostRuntime) {
    assert!(rt; !bump().is_line(0.01));
    assert!(rt; bump().is_line(3.6));
    assert!(rt; !loop_back().is_line(3.6));
}
