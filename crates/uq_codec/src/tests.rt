use crate::*;
use std::alloc::Global;
use std::process::Abort;
use uq_value::{List, Object, Text, Value, depth, put_member, same, size};

/// `{"a":[1,true]}`.
fn one_member(rt: &impl Abort, alloc: Global) -> Value {
    let mut list = List::new(alloc);
    for v in [Value::Int(1), Value::Bool(true)] {
        list.push(v).expect(rt, "a list");
    }
    let mut object = Value::Null;
    put_member(alloc, &mut object, b"a", Value::List(list)).expect(rt, "a member");
    object
}

/// Encodes behind nothing and behind two other bytes.
fn check_encodes(rt: &impl Abort, alloc: Global, v: &Value, want: &[u8]) {
    let mut out = Vec::new(alloc);
    encode(alloc, v, &mut out).expect(rt, "a stored form");
    assert_eq!(rt; out.as_slice(), want);
    let mut behind = Vec::from_slice(alloc, b"\x06\xff").expect(rt, "two bytes");
    encode(alloc, v, &mut behind).expect(rt, "a stored form");
    assert_eq!(rt; &behind.as_slice()[..2], b"\x06\xff".as_slice());
    assert_eq!(rt; &behind.as_slice()[2..], want);
}

#[test]
fn values_without_parts_are_written(rt: HostRuntime) {
    let alloc = rt.alloc();
    let table: [(Value, &[u8]); 10] = [
        (Value::Null, b"\x00"),
        (Value::Bool(false), b"\x01"),
        (Value::Bool(true), b"\x02"),
        (Value::Int(0), b"\x03\0\0\0\0\0\0\0\0"),
        (Value::Int(1), b"\x03\0\0\0\0\0\0\0\x01"),
        (Value::Int(-1), b"\x03\xff\xff\xff\xff\xff\xff\xff\xff"),
        (
            Value::Int(i64::MAX),
            b"\x03\x7f\xff\xff\xff\xff\xff\xff\xff",
        ),
        (Value::Int(i64::MIN), b"\x03\x80\0\0\0\0\0\0\0"),
        (Value::List(List::new(alloc)), b"\x05\x00"),
        (Value::Object(Object::new(alloc)), b"\x06\x00"),
    ];
    for (v, want) in &table {
        check_encodes(&rt, alloc, v, want);
    }
}

#[test]
fn lengths_are_written_in_groups_of_seven_bits(rt: HostRuntime) {
    let alloc = rt.alloc();
    let table: [(usize, &[u8]); 6] = [
        (0, b"\x04\x00"),
        (127, b"\x04\x7f"),
        (128, b"\x04\x80\x01"),
        (300, b"\x04\xac\x02"),
        (16383, b"\x04\xff\x7f"),
        (16384, b"\x04\x80\x80\x01"),
    ];
    for (len, front) in table {
        let mut bytes = Vec::new(alloc);
        let mut want = Vec::from_slice(alloc, front).expect(&rt, "the front");
        for _ in 0..len {
            bytes.push(b'x').expect(&rt, "a byte");
            want.push(b'x').expect(&rt, "a byte");
        }
        let text = Text::from_vec(alloc, bytes).expect(&rt, "a text");
        check_encodes(&rt, alloc, &Value::Text(text), want.as_slice());
    }
}

#[test]
fn parts_are_written_in_order(rt: HostRuntime) {
    let alloc = rt.alloc();
    let mut object = one_member(&rt, alloc);
    let one = b"\x06\x01\x01a\x05\x02\x03\0\0\0\0\0\0\0\x01\x02";
    check_encodes(&rt, alloc, &object, one);
    put_member(alloc, &mut object, b"", Value::Null).expect(&rt, "a member");
    let two = b"\x06\x02\x01a\x05\x02\x03\0\0\0\0\0\0\0\x01\x02\x00\x00";
    check_encodes(&rt, alloc, &object, two);
}

/// Decodes the bytes alone and with two others behind, and compares the value.
fn check_decodes(rt: &impl Abort, alloc: Global, bytes: &[u8], want: &Value) {
    let mut longer = Vec::from_slice(alloc, bytes).expect(rt, "the bytes");
    longer
        .extend_from_slice(b"\x00\x06")
        .expect(rt, "two bytes");
    for whole in [bytes, longer.as_slice()] {
        let (value, len) = decode(alloc, whole).expect(rt, "a value");
        assert!(rt; same(&value, want), "{bytes:?}");
        assert_eq!(rt; len, bytes.len(), "{bytes:?}");
    }
}

fn check_refused(rt: &impl Abort, alloc: Global, bytes: &[u8]) {
    match decode(alloc, bytes) {
        Ok(_) => assert!(rt; false, "{bytes:?} is decoded"),
        Err(fault) => assert!(rt; fault == CodecFault::NotCanonical, "{bytes:?}: {fault:?}"),
    }
}

#[test]
fn stored_forms_are_read_whatever_follows(rt: HostRuntime) {
    let alloc = rt.alloc();
    let table: [(&[u8], Value); 11] = [
        (b"\x00", Value::Null),
        (b"\x01", Value::Bool(false)),
        (b"\x02", Value::Bool(true)),
        (b"\x03\0\0\0\0\0\0\x01\x02", Value::Int(258)),
        (b"\x03\xff\xff\xff\xff\xff\xff\xff\xfe", Value::Int(-2)),
        (
            b"\x03\x7f\xff\xff\xff\xff\xff\xff\xff",
            Value::Int(i64::MAX),
        ),
        (b"\x03\x80\0\0\0\0\0\0\0", Value::Int(i64::MIN)),
        (
            b"\x04\x03a\x00\xff",
            Value::Text(Text::new(alloc, b"a\x00\xff").expect(&rt, "a text")),
        ),
        (b"\x05\x00", Value::List(List::new(alloc))),
        (b"\x06\x00", Value::Object(Object::new(alloc))),
        (
            b"\x06\x01\x01a\x05\x02\x03\0\0\0\0\0\0\0\x01\x02",
            one_member(&rt, alloc),
        ),
    ];
    for (bytes, want) in &table {
        check_decodes(&rt, alloc, bytes, want);
    }
}

#[test]
fn other_bytes_are_no_stored_form(rt: HostRuntime) {
    let alloc = rt.alloc();
    let whole = b"\x06\x01\x01a\x05\x02\x03\0\0\0\0\0\0\0\x01\x02";
    for len in 0..whole.len() {
        check_refused(&rt, alloc, &whole[..len]);
    }
    let table: [&[u8]; 19] = [
        // No kind.
        b"\x07",
        b"\xff",
        // Lengths of a longer spelling: 1, 0, 127, 128, 300 and 16384.
        b"\x04\x81\x00a",
        b"\x04\x80\x00",
        b"\x05\x80\x80\x00",
        b"\x06\x80\x00",
        b"\x06\x01\x81\x00a\x00",
        b"\x04\xff\x00",
        b"\x04\x80\x81\x00",
        b"\x04\xac\x82\x00",
        b"\x04\x80\x80\x81\x00",
        // Lengths that no value has, and one that stops short.
        b"\x04\xbc\xff\xff\x07",
        b"\x04\xff\xff\xff\xff\xff\xff\xff\xff\xff\x01",
        b"\x05\x80\x80\x80\x80\x80\x80\x80\x80\x80\x01",
        b"\x04\x80",
        // A text, a list and an object that have not as much.
        b"\x04\xbb\xff\xff\x07a",
        b"\x05\xb9\xff\xff\x07\x00",
        // A member twice, also far apart.
        b"\x06\x02\x01a\x00\x01a\x00",
        b"\x06\x03\x00\x00\x01a\x05\x00\x00\x02",
    ];
    for bytes in table {
        check_refused(&rt, alloc, bytes);
    }
}

#[test]
fn the_limits_of_depth_and_size_are_kept(rt: HostRuntime) {
    let alloc = rt.alloc();
    for (levels, fits) in [(128, true), (129, false)] {
        let mut bytes = Vec::new(alloc);
        for _ in 1..levels {
            bytes.extend_from_slice(b"\x05\x01").expect(&rt, "a list");
        }
        bytes
            .extend_from_slice(b"\x05\x00")
            .expect(&rt, "the innermost");
        match decode(alloc, bytes.as_slice()) {
            Ok((value, _)) => assert!(rt; fits && depth(&value) == 128),
            Err(fault) => assert!(rt; !fits && fault == CodecFault::NotCanonical),
        }
    }
    // A text of 16,777,147 bytes is as large as a value may be; with one byte more it is none.
    for (front, len, fits) in [
        (b"\x04\xbb\xff\xff\x07", 16_777_147, true),
        (b"\x04\xbc\xff\xff\x07", 16_777_148, false),
    ] {
        let mut bytes = Vec::from_slice(alloc, front).expect(&rt, "the front");
        bytes.resize(5 + len, b'x').expect(&rt, "the text");
        match decode(alloc, bytes.as_slice()) {
            Ok((value, used)) => assert!(rt;
                fits && used == 16_777_152 && size(&value) == 16_777_152
            ),
            Err(fault) => assert!(rt; !fits && fault == CodecFault::NotCanonical),
        }
    }
}

#[test]
fn long_lists_and_names_are_written_and_read(rt: HostRuntime) {
    let alloc = rt.alloc();
    // 10,000 is 16 and 78 times 128, and 100,000 is 32, 13 times 128 and 6 times 128 times 128
    let mut list = List::new(alloc);
    let mut items = Vec::from_slice(alloc, b"\x05\x90\x4e").expect(&rt, "the front");
    for _ in 0..10_000 {
        list.push(Value::Null).expect(&rt, "an item");
        items.push(0).expect(&rt, "an item");
    }
    let list = Value::List(list);
    check_encodes(&rt, alloc, &list, items.as_slice());
    check_decodes(&rt, alloc, items.as_slice(), &list);
    let mut name = Vec::new(alloc);
    name.resize(100_000, b'n').expect(&rt, "the name");
    let mut object = Value::Null;
    put_member(alloc, &mut object, name.as_slice(), Value::Null).expect(&rt, "a member");
    let mut member = Vec::from_slice(alloc, b"\x06\x01\xa0\x8d\x06").expect(&rt, "the front");
    member
        .extend_from_slice(name.as_slice())
        .expect(&rt, "the name");
    member.push(0).expect(&rt, "the value");
    check_encodes(&rt, alloc, &object, member.as_slice());
    check_decodes(&rt, alloc, member.as_slice(), &object);
}
