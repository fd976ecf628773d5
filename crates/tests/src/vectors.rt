use job::float::{bits_of, float_of};
use path::geometry::{Vector, normal};

fn bits(v: Vector) -> (u32, u32) {
    (bits_of(v.x), bits_of(v.y))
}

fn of(x: u32, y: u32) -> Vector {
    Vector::new(float_of(x), float_of(y))
}

// The lengths and normals that the Rust has, by their bits.
#[test]
fn lengths(rt: HostRuntime) {
    assert_eq!(rt; bits_of(Vector::new(3.0, 4.0).length()), 0x40A0_0000);
    assert_eq!(rt; bits_of(Vector::new(0.1, 0.2).length()), 0x3E64_F92F);
    assert_eq!(rt; bits_of(Vector::new(1e30, 1e30).length()), 0x7F80_0000);
}

#[test]
fn normals(rt: HostRuntime) {
    let zero = Vector::new(0.0, 0.0);
    assert_eq!(rt; bits(normal(zero, Vector::new(8.0, 0.0))), (0, 0xBF80_0000));
    assert_eq!(rt;
        bits(normal(Vector::new(1.0, 2.0), Vector::new(4.0, 6.0))),
        (0x3F4C_CCCD, 0xBF19_999A)
    );
    assert_eq!(rt;
        bits(normal(Vector::new(0.1, 0.2), Vector::new(-0.7, 1e-3))),
        (0xBE77_2FEE, 0x3F78_6DEB)
    );
    assert_eq!(rt; bits(normal(zero, zero)), (0, 0));
    assert_eq!(rt;
        bits(normal(Vector::new(1e20, 0.0), Vector::new(-1e20, 1e19))),
        (0, 0)
    );
}

// A difference of exactly the bound is not near, and NaN is near nothing.
#[test]
fn nearness(rt: HostRuntime) {
    let one = of(0x3F80_0000, 0);
    assert!(rt; !one.nearly_eq(of(0x3F80_0001, 0)));
    assert!(rt; one.nearly_eq(of(0x3F7F_FFFF, 0)));
    assert!(rt; !one.nearly_eq_by(Vector::new(1.5, 0.0), 0.5));
    assert!(rt; one.nearly_eq_by(Vector::new(1.25, 0.25), 0.5));
    assert!(rt; !one.nearly_eq(Vector::new(1.0, f32::NAN)));
}
