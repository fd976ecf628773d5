use crate::printed::slashed;
use lines::listing::listing;
use std::alloc::Global;
use std::io;
use std::test::Fail;

fn text(heap: Global, mut bytes: &[u8]) -> io::Result<String> {
    let mut printed = Vec::new(heap);
    listing(&mut bytes, &mut printed)?;
    Ok(slashed(heap, &printed)?)
}

#[test]
fn empty_job(rt: HostRuntime) -> Result<(), Fail> {
    let text = text(rt.alloc(), b"")?;
    assert_eq!(rt;
        text.as_str(),
        "W 3F800000/J 1/I 40800000/S 0/E 0/O 00000000/= 0 0/"
    );
    Ok(())
}

// Each letter once; the style letters may follow the path.
#[test]
fn every_letter(rt: HostRuntime) -> Result<(), Fail> {
    let path = b"M\x00\x00\x00\x00\x80\x00\x00\x00L????@@@@Qaaaabbbbccccdddd\
C000011112222333344445555ZI\x40\x00\x00\x00J\x02S\x01E\x02O\xc0\x00\x00\x00D\x3f\x80\x00\x00W\x41\x00\x00\x00";
    let text = text(rt.alloc(), path)?;
    assert_eq!(rt;
        text.as_str(),
        "W 41000000/J 2/I 40000000/S 1/E 2/O C0000000/D 3F800000/\
M 00000000 80000000/L 3F3F3F3F 40404040/Q 61616161 62626262 63636363 64646464/\
C 30303030 31313131 32323232 33333333 34343434 35353535/Z/= 5 1/"
    );
    Ok(())
}

// The later of two style letters wins, dashes add up, and a NaN is printed by one pattern.
#[test]
fn later_letters(rt: HostRuntime) -> Result<(), Fail> {
    let text = text(
        rt.alloc(),
        b"W1234S\x01D\xff\x80\x00\x01S\x02D????W\x7f\x80\x00\x02",
    )?;
    assert_eq!(rt;
        text.as_str(),
        "W 7FC00000/J 1/I 40800000/S 2/E 0/O 00000000/D 7FC00000/D 3F3F3F3F/= 0 2/"
    );
    Ok(())
}

#[test]
fn refusals(rt: HostRuntime) -> Result<(), Fail> {
    assert_eq!(rt; text(rt.alloc(), b"ZZ?")?.as_str(), "! 10 2 0/");
    assert_eq!(rt; text(rt.alloc(), &[b'Z'; 513])?.as_str(), "! 13 512 0/");
    Ok(())
}

// What comes after the first 8,192 bytes is left to the reader.
#[test]
fn later_bytes(rt: HostRuntime) -> Result<(), Fail> {
    let bytes = [b'Z'; 8200];
    let mut rest: &[u8] = &bytes;
    let mut printed = Vec::new(rt.alloc());
    listing(&mut rest, &mut printed)?;
    assert_eq!(rt; rest.len(), 8);
    Ok(())
}
