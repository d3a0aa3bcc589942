use crate::*;
use std::alloc::Global;
use std::process::Abort;
use uq_value::{List, Text, Value, depth, put_member, same};

/// Reads the text, and compares what is printed of the value.
fn check_read(rt: &impl Abort, alloc: Global, text: &[u8], want: &[u8]) {
    let value = read_json(alloc, text).expect(rt, "a value");
    let printed = print_json(alloc, &value).expect(rt, "its text");
    assert_eq!(rt; printed.as_slice(), want);
}

fn check_refused(rt: &impl Abort, alloc: Global, text: &[u8], want: JsonFault) {
    match read_json(alloc, text) {
        Ok(_) => assert!(rt; false, "{text:?} is read"),
        Err(fault) => assert!(rt; fault == want, "{text:?}: {fault:?}"),
    }
}

#[test]
fn texts_in_the_grammar_are_read(rt: HostRuntime) {
    let alloc = rt.alloc();
    let table: [(&[u8], &[u8]); 31] = [
        (b" null\t", b"null"),
        (b"\n\rtrue", b"true"),
        (b"false ", b"false"),
        (b" [-0]", b"[0]"),
        (b"9223372036854775807", b"9223372036854775807"),
        (b"-9223372036854775808", b"-9223372036854775808"),
        (b" [ ] ", b"[]"),
        (b"[ 10 ,\t-2 ]", b"[10,-2]"),
        (b"{ }", b"{}"),
        (b" { \"a\" : [ ] , \"\" :\n{} } ", b"{\"a\":[],\"\":{}}"),
        (b"{\"a\":1,\"b\":2,\"a\":3}", b"{\"a\":3,\"b\":2}"),
        (
            b"\"\\\"\\\\\\/\\b\\f\\n\\r\\t\"",
            b"\"\\\"\\\\/\\b\\f\\n\\r\\t\"",
        ),
        (
            b"\"\\u0041\\u00E9\\u20aC\\u001f\"",
            b"\"A\xc3\xa9\xe2\x82\xac\\u001f\"",
        ),
        (b"\"\xff\x7f\xc3\"", b"\"\xff\x7f\xc3\""),
        (b"\"\\ud83d\\ude00\"", b"\"\xf0\x9f\x98\x80\""),
        (b"\"\\ude00\\ud83d\"", b"\"\xed\xb8\x80\xed\xa0\xbd\""),
        (b"\"\\ud83dA\\ude00\"", b"\"\xed\xa0\xbdA\xed\xb8\x80\""),
        (
            b"\"\\ud83d\\ud83d\\ude00\"",
            b"\"\xed\xa0\xbd\xf0\x9f\x98\x80\"",
        ),
        (
            b"\t\r\n [\t\r\n {\t\r\n \"a\"\t\r\n :\t\r\n 1\t\r\n ,\t\r\n \"b\" :\t[\r]\n} , \"c\"\t]\r\n \t",
            b"[{\"a\":1,\"b\":[]},\"c\"]",
        ),
        (b"9223372036854775806", b"9223372036854775806"),
        (b"-9223372036854775807", b"-9223372036854775807"),
        (b"[0,-1]", b"[0,-1]"),
        (
            b"{\"a\":1,\"\":2,\"\\u0061\":[3],\"\":null,\"a\":{}}",
            b"{\"a\":{},\"\":null}",
        ),
        (
            b"{\"a\":{\"b\":1,\"c\":2},\"b\":0,\"a\":{\"c\":3}}",
            b"{\"a\":{\"c\":3},\"b\":0}",
        ),
        (b"{\"\xff\x80\":\"\xc3(\"}", b"{\"\xff\x80\":\"\xc3(\"}"),
        (
            b"\"\\uD800\\uDC00\\udbff\\udfff\"",
            b"\"\xf0\x90\x80\x80\xf4\x8f\xbf\xbf\"",
        ),
        (b"\"\\udc00\"", b"\"\xed\xb0\x80\""),
        (b"\"\\udbff\"", b"\"\xed\xaf\xbf\""),
        (
            b"\"\\ud83d\\u0041\\ud83d\\n\\ude00\"",
            b"\"\xed\xa0\xbdA\xed\xa0\xbd\\n\xed\xb8\x80\"",
        ),
        (
            b"\"\\ud83d\\ud7ff\\ud83d\\ue000\"",
            b"\"\xed\xa0\xbd\xed\x9f\xbf\xed\xa0\xbd\xee\x80\x80\"",
        ),
        (
            b"\"\\u007f\\u0080\\u07ff\\u0800\\uffff\"",
            b"\"\x7f\xc2\x80\xdf\xbf\xe0\xa0\x80\xef\xbf\xbf\"",
        ),
    ];
    for (text, want) in table {
        check_read(&rt, alloc, text, want);
    }
}

#[test]
fn other_texts_are_refused(rt: HostRuntime) {
    let alloc = rt.alloc();
    let table: [&[u8]; 108] = [
        b"",
        b" ",
        b"\x0c1",
        b"\xef\xbb\xbf1",
        b"nul",
        b"nulls",
        b"True",
        b"01",
        b"-",
        b"-01",
        b"+1",
        b"1.0",
        b"1e2",
        b"0x1",
        b"9223372036854775808",
        b"-9223372036854775809",
        b"1 2",
        b"[",
        b"[1",
        b"[1,",
        b"[1,]",
        b"[,1]",
        b"[1 2]",
        b"[1}",
        b"]",
        b"{",
        b"{\"a\"",
        b"{\"a\":",
        b"{\"a\":1",
        b"{\"a\":1,}",
        b"{a:1}",
        b"{\"a\" 1}",
        b"{\"a\":1]",
        b"{1:1}",
        b"\"",
        b"\"a",
        b"\"\\",
        b"\"\\x\"",
        b"\"\\u12\"",
        b"\"\\u12g4\"",
        b"\"\\ud83d\\u\"",
        b"\"\x1f\"",
        b"\"\n\"",
        b"'a'",
        b"\x0b1",
        b"\x001",
        b"\xc2\xa01",
        b"\xff",
        b"[\x80]",
        b"tru",
        b"tr ue",
        b"falsee",
        b"NULL",
        b"00",
        b"-00",
        b"- 1",
        b"--1",
        b"+",
        b"1.5",
        b"1.",
        b".5",
        b"-.5",
        b"0.0",
        b"1E2",
        b"1e+2",
        b"-0e0",
        b"18446744073709551616",
        b"18446744073709551617",
        b"-18446744073709551617",
        b"100000000000000000000",
        b"1,",
        b"null null",
        b"[]]",
        b"{}}",
        b"{} []",
        b"\"a\"\"b\"",
        b"\"a\"b",
        b",",
        b":",
        b"}",
        b"[,]",
        b"[1,,2]",
        b"[1:2]",
        b"{,}",
        b"{]",
        b"[}",
        b"{\"a\":}",
        b"{\"a\",1}",
        b"{\"a\"::1}",
        b"{\"a\":1,,\"b\":2}",
        b"{\"a\":1 \"b\":2}",
        b"{\"a\":1,\"a\"}",
        b"{null:1}",
        b"{\"\x01\":1}",
        b"\"\\u",
        b"\"\\u\"",
        b"\"\\u1",
        b"\"\\u123\"",
        b"\"\\u 123\"",
        b"\"\\u+123\"",
        b"\"\\U0041\"",
        b"\"\\ud83d",
        b"\"\\ud83d\\ude0\"",
        b"\"\\ud83d\\",
        b"\"\\\"",
        b"\"\\a\"",
        b"\"\\'\"",
        b"\"\\\n\"",
    ];
    for text in table {
        check_refused(&rt, alloc, text, JsonFault::NotJson);
    }
}

/// The bytes `front`, so many times this one, and `back`.
fn repeated(
    rt: &impl Abort,
    alloc: Global,
    front: &[u8],
    byte: u8,
    count: usize,
    back: &[u8],
) -> Vec<u8> {
    let mut text = Vec::from_slice(alloc, front).expect(rt, "memory");
    text.resize(front.len().saturating_add(count), byte)
        .expect(rt, "memory");
    text.extend_from_slice(back).expect(rt, "memory");
    text
}

#[test]
fn at_most_128_levels_are_read(rt: HostRuntime) {
    let alloc = rt.alloc();
    let mut deepest = repeated(&rt, alloc, b"", b'[', 128, b"");
    for _ in 0..128 {
        deepest.push(b']').expect(&rt, "memory");
    }
    let value = read_json(alloc, deepest.as_slice()).expect(&rt, "128 levels");
    assert_eq!(rt; depth(&value), 128);
    let deeper = repeated(&rt, alloc, b" [", b'[', 128, b"x");
    check_refused(&rt, alloc, deeper.as_slice(), JsonFault::TooDeep);
    let member = repeated(&rt, alloc, b"{\"a\":1,\"b\":", b'[', 127, b"{");
    check_refused(&rt, alloc, member.as_slice(), JsonFault::TooDeep);
    let stopped = repeated(&rt, alloc, b"[9223372036854775808,", b'[', 128, b"");
    check_refused(&rt, alloc, stopped.as_slice(), JsonFault::NotJson);
}

/// Refuses so many `[` with each of these behind them.
fn check_behind(rt: &impl Abort, alloc: Global, count: usize, ends: &[&[u8]], want: JsonFault) {
    for end in ends {
        let text = repeated(rt, alloc, b"", b'[', count, end);
        check_refused(rt, alloc, text.as_slice(), want);
    }
}

#[test]
fn a_level_more_is_told_where_a_text_begins_so(rt: HostRuntime) {
    let alloc = rt.alloc();
    let deep: [&[u8]; 5] = [b"[", b"{", b"1,[", b" \"a\" , {", b"[]x"];
    check_behind(&rt, alloc, 128, &deep, JsonFault::TooDeep);
    let ended: [&[u8]; 4] = [b"1[", b"1 {", b"\"a\"[", b"n["];
    check_behind(&rt, alloc, 128, &ended, JsonFault::NotJson);
    let nameless: [&[u8]; 3] = [b"{[", b"{{", b"{\"a\"["];
    check_behind(&rt, alloc, 127, &nameless, JsonFault::NotJson);
    // the 128th level again
    let again: [&[u8]; 3] = [b"],[", b"],{", b"][["];
    check_behind(&rt, alloc, 128, &again, JsonFault::NotJson);
}

/// So many objects, each but the last one the value of the one before.
fn nested_objects(rt: &impl Abort, alloc: Global, count: usize) -> Vec<u8> {
    let mut text = Vec::from_slice(alloc, b"0").expect(rt, "memory");
    for _ in 0..count {
        let inner = text;
        text = Vec::from_slice(alloc, b"{\"a\":").expect(rt, "memory");
        text.extend_from_slice(inner.as_slice())
            .expect(rt, "memory");
        text.push(b'}').expect(rt, "memory");
    }
    text
}

#[test]
fn at_most_128_objects_are_nested(rt: HostRuntime) {
    let alloc = rt.alloc();
    let deepest = nested_objects(&rt, alloc, 128);
    check_read(&rt, alloc, deepest.as_slice(), deepest.as_slice());
    let deeper = nested_objects(&rt, alloc, 129);
    check_refused(&rt, alloc, deeper.as_slice(), JsonFault::TooDeep);
}

#[test]
fn the_size_is_asked_of_the_whole_value(rt: HostRuntime) {
    let alloc = rt.alloc();
    // a text of so many bytes takes five bytes more in the stored form, which is one too many
    let larger = repeated(&rt, alloc, b"\"", b'a', 16_777_148, b"\"");
    check_refused(&rt, alloc, larger.as_slice(), JsonFault::TooLarge);
    let replaced = repeated(&rt, alloc, b"{\"a\":\"", b'a', 16_777_148, b"\",\"a\":1}");
    check_read(&rt, alloc, replaced.as_slice(), b"{\"a\":1}");
}

#[test]
fn strings_are_quoted_and_unquoted(rt: HostRuntime) {
    let alloc = rt.alloc();
    let quoted = quote(alloc, b"a\n").expect(&rt, "a string");
    assert_eq!(rt; quoted.as_slice(), b"\"a\\n\"".as_slice());
    let controls = quote(alloc, b"\x00\x1b\x7f\xff\"\\\x08\x0c\r\t/").expect(&rt, "a string");
    let escaped = b"\"\\u0000\\u001b\x7f\xff\\\"\\\\\\b\\f\\r\\t/\"".as_slice();
    assert_eq!(rt; controls.as_slice(), escaped);
    let bytes = unquote(alloc, b"\"\\u0041\\n\"").expect(&rt, "its bytes");
    assert_eq!(rt; bytes.as_slice(), b"A\n".as_slice());
    let table: [&[u8]; 7] = [b"", b"\"", b"\"a", b" \"a\"", b"\"a\" ", b"a", b"\"a\"b\""];
    for text in table {
        assert!(rt; matches!(unquote(alloc, text), Err(JsonFault::NotJson)));
    }
}

#[test]
fn the_string_at_the_front_is_split_off(rt: HostRuntime) {
    let alloc = rt.alloc();
    let table: [(&[u8], &[u8], &[u8]); 4] = [
        (b"\"\"", b"", b""),
        (b"\"a\\n\" b", b"a\n", b" b"),
        (b"\"a\"\"b\"", b"a", b"\"b\""),
        (b"\"\\u0041\"\"", b"A", b"\""),
    ];
    for (text, want, behind) in table {
        let (bytes, rest) = split_string(alloc, text).expect(&rt, "a string");
        assert_eq!(rt; bytes.as_slice(), want);
        assert_eq!(rt; rest, behind);
    }
    let refused: [&[u8]; 5] = [b"", b"a", b" \"a\"", b"\"a", b"\"\\x\""];
    for text in refused {
        assert!(rt; matches!(split_string(alloc, text), Err(JsonFault::NotJson)));
    }
}

#[test]
fn control_bytes_are_spelled_by_escapes(rt: HostRuntime) {
    let alloc = rt.alloc();
    let spelled: [&[u8]; 32] = [
        b"\"\\u0000\"",
        b"\"\\u0001\"",
        b"\"\\u0002\"",
        b"\"\\u0003\"",
        b"\"\\u0004\"",
        b"\"\\u0005\"",
        b"\"\\u0006\"",
        b"\"\\u0007\"",
        b"\"\\b\"",
        b"\"\\t\"",
        b"\"\\n\"",
        b"\"\\u000b\"",
        b"\"\\f\"",
        b"\"\\r\"",
        b"\"\\u000e\"",
        b"\"\\u000f\"",
        b"\"\\u0010\"",
        b"\"\\u0011\"",
        b"\"\\u0012\"",
        b"\"\\u0013\"",
        b"\"\\u0014\"",
        b"\"\\u0015\"",
        b"\"\\u0016\"",
        b"\"\\u0017\"",
        b"\"\\u0018\"",
        b"\"\\u0019\"",
        b"\"\\u001a\"",
        b"\"\\u001b\"",
        b"\"\\u001c\"",
        b"\"\\u001d\"",
        b"\"\\u001e\"",
        b"\"\\u001f\"",
    ];
    for byte in 0..32u8 {
        let itself = [b'"', byte, b'"'];
        check_refused(&rt, alloc, &itself, JsonFault::NotJson);
        let text = spelled[byte as usize];
        let quoted = quote(alloc, &[byte]).expect(&rt, "a string");
        assert_eq!(rt; quoted.as_slice(), text);
        let bytes = unquote(alloc, text).expect(&rt, "its byte");
        assert_eq!(rt; bytes.as_slice(), [byte].as_slice());
    }
}

#[test]
fn a_value_has_a_text(rt: HostRuntime) {
    let alloc = rt.alloc();
    let table: [(&[u8], &[u8]); 5] = [
        (b"null", b""),
        (b"true", b"true"),
        (b"-12", b"-12"),
        (b"\"a\\n\"", b"a\n"),
        (b"{\"a\":[\"b\"]}", b"{\"a\":[\"b\"]}"),
    ];
    for (json, want) in table {
        let value = read_json(alloc, json).expect(&rt, "a value");
        assert_eq!(rt;
            text_of(alloc, &value).expect(&rt, "its text").as_slice(),
            want
        );
    }
}

/// `{"":[null,false,-1],"a":{"b":"c"}}`, made by the calls of values alone.
fn made(rt: &impl Abort, alloc: Global) -> Value {
    let mut list = List::new(alloc);
    for v in [Value::Null, Value::Bool(false), Value::Int(-1)] {
        list.push(v).expect(rt, "a list");
    }
    let c = Value::Text(Text::new(alloc, b"c").expect(rt, "a text"));
    let mut inner = Value::Null;
    put_member(alloc, &mut inner, b"b", c).expect(rt, "a member");
    let mut value = Value::Null;
    put_member(alloc, &mut value, b"", Value::List(list)).expect(rt, "a member");
    put_member(alloc, &mut value, b"a", inner).expect(rt, "a member");
    value
}

#[test]
fn a_whole_value_has_its_text_and_the_text_that_value(rt: HostRuntime) {
    let alloc = rt.alloc();
    let value = made(&rt, alloc);
    let text = b"{\"\":[null,false,-1],\"a\":{\"b\":\"c\"}}";
    let printed = print_json(alloc, &value).expect(&rt, "its text");
    assert_eq!(rt; printed.as_slice(), text.as_slice());
    let read = read_json(alloc, text).expect(&rt, "a value");
    assert!(rt; same(&read, &value));
}

#[test]
fn long_lists_and_names_are_read_and_printed(rt: HostRuntime) {
    let alloc = rt.alloc();
    let mut list = repeated(&rt, alloc, b"[", b'[', 0, b"0");
    for _ in 1..10_000 {
        list.extend_from_slice(b",0").expect(&rt, "memory");
    }
    list.push(b']').expect(&rt, "memory");
    check_read(&rt, alloc, list.as_slice(), list.as_slice());
    let name = repeated(&rt, alloc, b"{\"", b'n', 100_000, b"\":1}");
    check_read(&rt, alloc, name.as_slice(), name.as_slice());
}
