use maths::host::{Function, MathsHost};
use maths::series::SeriesHost;
use std::num::{f32_from_bits_with_nan, f32_to_bits_with_nan};

const NAN: u32 = 0x7fc0_0000;

const ZERO: u32 = 0;

const MINUS_ZERO: u32 = 0x8000_0000;

const ONE: u32 = 0x3f80_0000;

const MINUS_ONE: u32 = 0xbf80_0000;

const INFINITY: u32 = 0x7f80_0000;

const MINUS_INFINITY: u32 = 0xff80_0000;

fn asked(f: Function, argument: u32) -> u32 {
    let mut host = SeriesHost::new();
    f32_to_bits_with_nan(host.ask(f, f32_from_bits_with_nan(argument)))
}

#[test]
fn zeros(rt: HostRuntime) {
    assert_eq!(rt; asked(Function::Sine, ZERO), ZERO);
    assert_eq!(rt; asked(Function::Sine, MINUS_ZERO), MINUS_ZERO);
    assert_eq!(rt; asked(Function::Cosine, ZERO), ONE);
    assert_eq!(rt; asked(Function::Cosine, MINUS_ZERO), ONE);
    assert_eq!(rt; asked(Function::ArcCosine, ZERO), 0x3fc9_0fdb);
    assert_eq!(rt; asked(Function::Tangent, ZERO), ZERO);
    assert_eq!(rt; asked(Function::Tangent, MINUS_ZERO), MINUS_ZERO);
    assert_eq!(rt; asked(Function::Power, ZERO), ZERO);
    assert_eq!(rt; asked(Function::Power, MINUS_ZERO), ZERO);
}

#[test]
fn infinities(rt: HostRuntime) {
    for f in [
        Function::Sine,
        Function::Cosine,
        Function::ArcCosine,
        Function::Tangent,
    ] {
        assert_eq!(rt; asked(f, INFINITY), NAN);
        assert_eq!(rt; asked(f, MINUS_INFINITY), NAN);
    }
    assert_eq!(rt; asked(Function::Power, INFINITY), INFINITY);
    assert_eq!(rt; asked(Function::Power, MINUS_INFINITY), INFINITY);
}

#[test]
fn not_a_number(rt: HostRuntime) {
    for f in Function::all() {
        assert_eq!(rt; asked(f, NAN), NAN);
        assert_eq!(rt; asked(f, 0xff80_0001), NAN);
    }
}

#[test]
fn ends_of_arc_cosine(rt: HostRuntime) {
    assert_eq!(rt; asked(Function::ArcCosine, ONE), ZERO);
    assert_eq!(rt; asked(Function::ArcCosine, MINUS_ONE), 0x4049_0fdb);
    assert_eq!(rt; asked(Function::ArcCosine, 0x3f80_0001), NAN);
    assert_eq!(rt; asked(Function::ArcCosine, 0xbf80_0001), NAN);
    assert_eq!(rt; asked(Function::ArcCosine, 0x7f7f_ffff), NAN);
}

#[test]
fn powers(rt: HostRuntime) {
    assert_eq!(rt; asked(Function::Power, ONE), ONE);
    assert_eq!(rt; asked(Function::Power, MINUS_ONE), NAN);
    assert_eq!(rt; asked(Function::Power, 0x8000_0001), NAN);
    assert_eq!(rt; asked(Function::Power, 0x0000_0001), 0x26a1_452d);
}

// The largest number, by Rust's own answers: whole turns leave it exactly.
#[test]
fn large_angles(rt: HostRuntime) {
    assert_eq!(rt; asked(Function::Sine, 0x7f7f_ffff), 0xbf05_99b3);
    assert_eq!(rt; asked(Function::Cosine, 0x7f7f_ffff), 0x3f5a_5f96);
}
