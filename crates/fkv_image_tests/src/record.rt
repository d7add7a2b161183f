//! Bytes of records, triples and shapes, written by hand.
use crate::places::assert_numbers;
use fkv_base::{Addr, Key, Shape, Version};
use fkv_record::{
    Record, Triple, area_place, most_triples, read_record, read_shape, read_triple, record_place,
    write_record, write_shape, write_triple,
};
use fkv_words::Header;
use std::test::Fail;

const RECORD: [u8; 24] = [
    0, 0, 0, 0, 0, 0, 1, 0, 1, 0, 0, 0, 0, 0, 0, 0, 10, 0, 0, 0, 0, 0, 0, 0,
];

/// The first record of a log.
fn sample_record(invalid: bool) -> Record {
    Record {
        header: Header {
            previous: Addr(0),
            version: Version(1),
            invalid,
        },
        key: Key(1),
        value: 10,
    }
}

#[test]
fn a_record_has_its_bytes(rt: HostRuntime) {
    assert!(rt; write_record(sample_record(false)) == RECORD);
    for (invalid, header) in [(false, 281474976710656), (true, 4611967493404098560)] {
        let record = sample_record(invalid);
        let bytes = write_record(record);
        assert_numbers(&rt, &bytes, &[(0, header), (8, 1), (16, 10)]);
        assert!(rt; read_record(&bytes) == Some(record));
    }
}

const TRIPLE: [u8; 16] = [1, 0, 0, 0, 0, 0, 0, 0, 1, 0, 0, 0, 0, 0, 0, 0];

#[test]
fn a_triple_has_its_bytes(rt: HostRuntime) {
    let triple = Triple {
        bucket: 1,
        tag: 0,
        addr: Addr(1),
    };
    assert!(rt; write_triple(triple) == TRIPLE);
    assert!(rt; read_triple(&TRIPLE) == Some(triple));
}

#[test]
fn a_shape_has_its_bytes_and_places(rt: HostRuntime) -> Result<(), Fail> {
    let shape = Shape::new(4, 16, 4, 2, 1, 0, 64)?;
    let bytes = write_shape(shape);
    assert!(rt; bytes[..8] == [0x46, 0x4b, 0x56, 0x53, 0x54, 0x4f, 0x52, 0x31][..]);
    let sizes = [
        (8, 4),
        (16, 16),
        (24, 4),
        (32, 2),
        (40, 1),
        (48, 0),
        (56, 64),
    ];
    assert_numbers(&rt, &bytes, &sizes);
    assert!(rt; read_shape(&bytes) == Some(shape));
    assert!(rt; most_triples(shape) == 112);
    assert!(rt; (area_place(shape, 0), area_place(shape, 1)) == (1536, 3328));
    assert!(rt; record_place(shape, Addr(1)) == 5144);
    Ok(())
}

/// A living store's image begins with another text. Behind it small sizes are read too, and behind a specified store's text they alone.
#[test]
fn a_living_shape_has_another_text(rt: HostRuntime) -> Result<(), Fail> {
    let shape = Shape::large(11, 16, 4, 2, 1, 0, 64)?;
    let mut bytes = write_shape(shape);
    assert!(rt; bytes[..8] == [0x46, 0x4b, 0x56, 0x53, 0x54, 0x4f, 0x52, 0x32][..]);
    assert!(rt; read_shape(&bytes) == Some(shape));
    bytes[8] = 10;
    let living = Shape::large(10, 16, 4, 2, 1, 0, 64)?;
    assert!(rt; read_shape(&bytes) == Some(living));
    bytes[7] = 0x31;
    let specified = Shape::new(10, 16, 4, 2, 1, 0, 64)?;
    assert!(rt; read_shape(&bytes) == Some(specified));
    bytes[8] = 11;
    assert!(rt; read_shape(&bytes).is_none());
    Ok(())
}
