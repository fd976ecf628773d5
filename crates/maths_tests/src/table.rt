use maths::host::{Function, MathsHost};
use maths::table::{Row, TableHost};
use std::num::{f32_from_bits_with_nan, f32_to_bits_with_nan};

const NAN: u32 = 0x7fc0_0000;

const ONE: u32 = 0x3f80_0000;

const TWO: u32 = 0x4000_0000;

fn row(function: u8, argument: u32, answer: u32) -> Row {
    Row {
        function,
        argument,
        answer,
    }
}

// What a table answers, by bits.
fn asked(rows: &[Row], f: Function, argument: u32) -> u32 {
    let mut host = TableHost::new(rows);
    f32_to_bits_with_nan(host.ask(f, f32_from_bits_with_nan(argument)))
}

#[test]
fn first_row_answers(rt: HostRuntime) {
    let rows = [row(1, TWO, 7), row(1, ONE, 8), row(1, ONE, 9)];
    assert_eq!(rt; asked(&rows, Function::Sine, ONE), 8);
    assert_eq!(rt; asked(&rows, Function::Sine, TWO), 7);
    assert_eq!(rt; asked(&rows, Function::Sine, 3), NAN);
    assert_eq!(rt; asked(&rows, Function::Cosine, ONE), NAN);
    assert_eq!(rt; asked(&[], Function::Sine, ONE), NAN);
}

#[test]
fn functions_by_number(rt: HostRuntime) {
    let rows = [
        row(1, ONE, 11),
        row(2, ONE, 12),
        row(3, ONE, 13),
        row(4, ONE, 14),
        row(5, ONE, 15),
    ];
    let mut host = TableHost::new(&rows);
    assert_eq!(rt; f32_to_bits_with_nan(host.sin(1.0)), 11);
    assert_eq!(rt; f32_to_bits_with_nan(host.cos(1.0)), 12);
    assert_eq!(rt; f32_to_bits_with_nan(host.acos(1.0)), 13);
    assert_eq!(rt; f32_to_bits_with_nan(host.tan(1.0)), 14);
    assert_eq!(rt; f32_to_bits_with_nan(host.powf_third(1.0)), 15);
}

#[test]
fn other_numbers_match_nothing(rt: HostRuntime) {
    let rows = [row(0, ONE, 7), row(6, ONE, 8), row(255, ONE, 9)];
    for f in Function::all() {
        assert_eq!(rt; asked(&rows, f, ONE), NAN);
    }
}

#[test]
fn nan_arguments_match_each_other(rt: HostRuntime) {
    let rows = [row(4, 0xff80_0001, 7)];
    assert_eq!(rt; asked(&rows, Function::Tangent, 0x7f80_0001), 7);
    assert_eq!(rt; asked(&rows, Function::Tangent, 0xffff_ffff), 7);
    assert_eq!(rt; asked(&rows, Function::Tangent, 0x7f80_0000), NAN);
    assert_eq!(rt;
        asked(&[row(5, 0x7fff_ffff, 7)], Function::Power, 0xffc0_0000),
        7
    );
    assert_eq!(rt;
        asked(&[row(5, ONE, 0xff80_0001)], Function::Power, ONE),
        NAN
    );
}

#[test]
fn zeros_differ(rt: HostRuntime) {
    let rows = [row(2, 0x8000_0000, 7), row(2, 0, 8)];
    assert_eq!(rt; asked(&rows, Function::Cosine, 0), 8);
    assert_eq!(rt; asked(&rows, Function::Cosine, 0x8000_0000), 7);
    assert_eq!(rt; asked(&[row(2, 0, 8)], Function::Cosine, 0x8000_0000), NAN);
}

// An arc cosine out of its range is NaN, and no later row answers in its place.
#[test]
fn lawless_arc_cosines(rt: HostRuntime) {
    let first = [row(3, ONE, 0xbf80_0000), row(3, ONE, ONE)];
    assert_eq!(rt; asked(&first, Function::ArcCosine, ONE), NAN);
    let second = [row(3, ONE, ONE), row(3, ONE, 0xbf80_0000)];
    assert_eq!(rt; asked(&second, Function::ArcCosine, ONE), ONE);
    let ends = [
        row(3, 1, 0x4049_0fdb),
        row(3, 2, 0x4049_0fdc),
        row(3, 3, 0),
        row(3, 4, 0x8000_0001),
    ];
    assert_eq!(rt; asked(&ends, Function::ArcCosine, 1), 0x4049_0fdb);
    assert_eq!(rt; asked(&ends, Function::ArcCosine, 2), NAN);
    assert_eq!(rt; asked(&ends, Function::ArcCosine, 3), 0);
    assert_eq!(rt; asked(&ends, Function::ArcCosine, 4), NAN);
    assert_eq!(rt;
        asked(&[row(3, ONE, 0x7f80_0000)], Function::ArcCosine, ONE),
        NAN
    );
    assert_eq!(rt;
        asked(&[row(1, ONE, 0xbf80_0000)], Function::Sine, ONE),
        0xbf80_0000
    );
}
