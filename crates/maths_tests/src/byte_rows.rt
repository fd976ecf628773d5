use maths::host::{Function, MathsHost};
use maths::table::TableHost;
use std::num::{f32_from_bits_with_nan, f32_to_bits_with_nan};

const NAN: u32 = 0x7fc0_0000;

const ONE: u32 = 0x3f80_0000;

const TWO: u32 = 0x4000_0000;

// What a table of bytes answers, by bits.
fn asked(bytes: &[u8], f: Function, argument: u32) -> u32 {
    let mut host = TableHost::from_bytes(bytes);
    f32_to_bits_with_nan(host.ask(f, f32_from_bits_with_nan(argument)))
}

#[test]
fn first_row_answers(rt: HostRuntime) {
    let rows = b"\x01\x40\0\0\0\0\0\0\x07\x01\x3f\x80\0\0\0\0\0\x08\x01\x3f\x80\0\0\0\0\0\x09";
    assert_eq!(rt; asked(rows, Function::Sine, ONE), 8);
    assert_eq!(rt; asked(rows, Function::Sine, TWO), 7);
    assert_eq!(rt; asked(rows, Function::Sine, 3), NAN);
    assert_eq!(rt; asked(rows, Function::Cosine, ONE), NAN);
    assert_eq!(rt; asked(b"", Function::Sine, ONE), NAN);
}

// A piece of eight bytes is no row.
#[test]
fn last_piece_is_left_out(rt: HostRuntime) {
    assert_eq!(rt;
        asked(b"\x04\x3f\x80\0\0\x12\x34\x56\x78", Function::Tangent, ONE),
        0x1234_5678
    );
    assert_eq!(rt;
        asked(b"\x04\x3f\x80\0\0\x12\x34\x56", Function::Tangent, ONE),
        NAN
    );
}

// 3.1415927 and the number after it.
#[test]
fn arc_cosines_are_angles(rt: HostRuntime) {
    assert_eq!(rt;
        asked(
            b"\x03\x3f\x80\0\0\x40\x49\x0f\xdb",
            Function::ArcCosine,
            ONE
        ),
        0x4049_0fdb
    );
    assert_eq!(rt;
        asked(
            b"\x03\x3f\x80\0\0\x40\x49\x0f\xdc",
            Function::ArcCosine,
            ONE
        ),
        NAN
    );
}
