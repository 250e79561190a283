use crate::compare::stand_at;
use life_bytes::{
    Sector, crc_holed, crc32c, field_u16, field_u32, field_u64, numbers_determine_bytes, put_crc,
    put_u16, put_u32, put_u64,
};

#[test]
fn checksums_of_known_bytes(rt: HostRuntime) {
    let zeros = [0; 32];
    let ones = [0xff; 32];
    assert_eq!(rt; crc32c(b"123456789"), 0xe306_9283);
    assert_eq!(rt; crc32c(&zeros), 0x8a91_36aa);
    assert_eq!(rt; crc32c(&ones), 0x62a8_ab43);
    assert_eq!(rt; crc32c(&[]), 0);
}

#[test]
fn a_hole_counts_as_zero(rt: HostRuntime) {
    let mut bytes = [0; 32];
    bytes[11] = 7;
    bytes[12] = 9;
    assert_eq!(rt; crc_holed(&bytes, 9), 0x8a91_36aa);
    put_crc(&mut bytes, 9);
    assert_eq!(rt; &bytes[8..14], [0, 0xaa, 0x36, 0x91, 0x8a, 0].as_slice());
}

/// A sector with a field of each width.
fn fields() -> Sector {
    let mut sector = Sector::zero();
    put_u16(&mut sector.bytes, 0, 0x494e);
    put_u32(&mut sector.bytes, 16, 0x0102_0304);
    put_u64(&mut sector.bytes, 152, 192);
    sector
}

#[test]
fn a_field_is_big_endian(rt: HostRuntime) {
    stand_at(
        &rt,
        &fields().bytes,
        &[
            (0, b"\x49\x4e"),
            (16, b"\x01\x02\x03\x04"),
            (152, b"\0\0\0\0\0\0\0\xc0"),
        ],
    );
}

#[test]
fn a_field_is_read(rt: HostRuntime) {
    let sector = fields();
    assert_eq!(rt; field_u16(&sector.bytes, 0), 0x494e);
    assert_eq!(rt; field_u32(&sector.bytes, 16), 0x0102_0304);
    assert_eq!(rt; field_u64(&sector.bytes, 152), 192);
    numbers_determine_bytes();
}
