//! Tests of `byte_views`: numbers read and written at the ends of bytes.

use byte_views::{read_word, write_word};

#[test]
fn little_endian(rt: HostRuntime) {
    let mut bytes = [0x78, 0x56, 0x34, 0x12, 0xff, 0, 0, 0, 0x80];
    assert!(rt; read_word(&bytes, 0, 4) == Some(0x1234_5678));
    assert!(rt; read_word(&bytes, 3, 2) == Some(0xff12));
    assert!(rt; read_word(&bytes, 1, 8) == Some(0x8000_0000_ff12_3456));
    assert!(rt; read_word(&bytes, 2, 8) == None);
    assert!(rt; read_word(&bytes, usize::MAX, 1) == None);
    assert!(rt; write_word(&mut bytes, 7, 2, 0x1_2345));
    assert!(rt; bytes == [0x78, 0x56, 0x34, 0x12, 0xff, 0, 0, 0x45, 0x23]);
    assert!(rt; !write_word(&mut bytes, 8, 2, 7));
    assert!(rt; bytes[8] == 0x23);
}
