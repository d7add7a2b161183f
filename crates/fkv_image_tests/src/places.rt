//! Numbers of eight bytes at places of some bytes.
use byteorder::{ByteOrder, LittleEndian};
use std::process::Abort;

/// 512 bytes with these numbers at their places, and zeros elsewhere.
pub(crate) fn bytes_with(rt: &impl Abort, numbers: &[(usize, u64)]) -> [u8; 512] {
    let mut bytes = [0; 512];
    for (at, number) in numbers {
        assert!(rt; *at <= 504);
        LittleEndian::write_u64(&mut bytes[*at..], *number);
    }
    bytes
}

/// Asserts that the numbers stand at their places.
pub(crate) fn assert_numbers(rt: &impl Abort, bytes: &[u8], numbers: &[(usize, u64)]) {
    for (at, number) in numbers {
        assert!(rt; *at <= 504 && *at + 8 <= bytes.len());
        assert!(rt; LittleEndian::read_u64(&bytes[*at..]) == *number);
    }
}
