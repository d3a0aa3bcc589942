use crate::marks::{digest, mark};
use crate::*;
use std::alloc::Global;
use std::cmp::Ordering;
use std::process::Abort;

fn text(rt: &impl Abort, alloc: Global, bytes: &[u8]) -> Value {
    Value::Text(Text::new(alloc, bytes).expect(rt, "a text"))
}

fn ints(rt: &impl Abort, alloc: Global, numbers: &[i64]) -> Value {
    let mut list = List::new(alloc);
    for z in numbers {
        list.push(Value::Int(*z)).expect(rt, "a list");
    }
    Value::List(list)
}

/// An object with these two members, put in this order.
fn pair(rt: &impl Abort, alloc: Global, first: &[u8], second: &[u8]) -> Value {
    let mut object = Value::Null;
    put_member(alloc, &mut object, first, Value::Int(1)).expect(rt, "the first");
    put_member(alloc, &mut object, second, Value::Int(2)).expect(rt, "the second");
    object
}

#[test]
fn a_copy_is_changed_apart(rt: HostRuntime) {
    let alloc = rt.alloc();
    let letter = Text::new(alloc, b"a").expect(&rt, "a text");
    assert_eq!(rt; letter.bytes(), b"a".as_slice());
    let one = ints(&rt, alloc, &[1]);
    let mut other = copy(alloc, &one).expect(&rt, "a copy");
    assert!(rt; same(&other, &ints(&rt, alloc, &[1])));
    put_index(alloc, &mut other, &Value::Int(0), Value::Int(2)).expect(&rt, "a write");
    assert!(rt; same(&other, &ints(&rt, alloc, &[2])));
    assert!(rt; same(&one, &ints(&rt, alloc, &[1])));
}

#[test]
fn null_becomes_what_a_step_asks_for(rt: HostRuntime) {
    let alloc = rt.alloc();
    let mut root = Value::Null;
    let second = [Step::Index(Value::Int(1))];
    assert_eq!(rt;
        put(alloc, &mut root, &second, Value::Int(5)),
        Err(ValueFault::IndexRange)
    );
    let first = [Step::Index(Value::Int(0))];
    assert_eq!(rt; put(alloc, &mut root, &first, Value::Int(5)), Ok(()));
    assert!(rt; same(&root, &ints(&rt, alloc, &[5])));
    let mut null = Value::Null;
    let by_boolean = put_index(alloc, &mut null, &Value::Bool(true), Value::Null);
    assert_eq!(rt; by_boolean, Err(ValueFault::NotContainer));
    // the fault of the second step comes, and the list that the first would make does not
    let twice = [Step::Append, Step::Index(Value::Int(1))];
    assert_eq!(rt;
        put(alloc, &mut null, &twice, Value::Null),
        Err(ValueFault::IndexRange)
    );
    assert!(rt; same(&null, &Value::Null));
}

#[test]
fn an_object_keeps_the_place_of_a_member_and_takes_its_last_value(rt: HostRuntime) {
    let alloc = rt.alloc();
    let mut one = Value::Null;
    put_member(alloc, &mut one, b"a", Value::Int(1)).expect(&rt, "a member");
    let mut builder = ObjectBuilder::new(alloc);
    set(&rt, alloc, &mut builder, b"a", Value::Int(1), 0);
    let built = builder.finish(alloc).expect(&rt, "an object");
    assert!(rt; same(&one, &Value::Object(built)));
    let mut object = pair(&rt, alloc, b"a", b"-7");
    put_member(alloc, &mut object, b"a", Value::Int(3)).expect(&rt, "a member");
    let seven = get_index(&object, &Value::Int(-7)).expect(&rt, "by the decimal text");
    assert!(rt; same(seven, &Value::Int(2)));
    let Value::Object(members) = &object else {
        return;
    };
    assert_eq!(rt; members.len(), 2);
    let (name, value) = members.member(0).expect(&rt, "the first");
    assert_eq!(rt; name, b"a".as_slice());
    assert!(rt; same(value, &Value::Int(3)));
}

/// What comes of an index step that puts 5 into a list.
fn check_index(
    rt: &impl Abort,
    alloc: Global,
    root: &[i64],
    at: &Value,
    want: Result<&[i64], ValueFault>,
) {
    let mut value = ints(rt, alloc, root);
    let answer = put_index(alloc, &mut value, at, Value::Int(5));
    match want {
        Ok(items) => assert!(rt; same(&value, &ints(rt, alloc, items))),
        Err(fault) => {
            assert_eq!(rt; answer, Err(fault));
            assert!(rt; same(&value, &ints(rt, alloc, root)));
        }
    }
}

#[test]
fn a_list_takes_indices_up_to_its_length(rt: HostRuntime) {
    let alloc = rt.alloc();
    check_index(&rt, alloc, &[1], &Value::Int(0), Ok(&[5]));
    check_index(&rt, alloc, &[1, 2], &Value::Int(1), Ok(&[1, 5]));
    check_index(&rt, alloc, &[1, 2], &Value::Int(2), Ok(&[1, 2, 5]));
    check_index(
        &rt,
        alloc,
        &[1, 2],
        &Value::Int(3),
        Err(ValueFault::IndexRange),
    );
    check_index(
        &rt,
        alloc,
        &[1, 2],
        &Value::Int(-1),
        Err(ValueFault::IndexRange),
    );
    check_index(
        &rt,
        alloc,
        &[1],
        &text(&rt, alloc, b"0"),
        Err(ValueFault::IndexRange),
    );
    let mut list = ints(&rt, alloc, &[1]);
    let by_name = put_member(alloc, &mut list, b"a", Value::Null);
    assert_eq!(rt; by_name, Err(ValueFault::NotContainer));
    let mut number = Value::Int(1);
    let appended = put(alloc, &mut number, &[Step::Append], Value::Null);
    assert_eq!(rt; appended, Err(ValueFault::NotContainer));
}

#[test]
fn texts_have_the_numbers_of_their_digits(rt: HostRuntime) {
    let alloc = rt.alloc();
    let table: [(&[u8], Option<i64>); 16] = [
        (b"0", Some(0)),
        (b"-0", Some(0)),
        (b"007", Some(7)),
        (b"-12", Some(-12)),
        (b"", None),
        (b"-", None),
        (b"+1", None),
        (b"1a", None),
        (b" 1", None),
        (b"9223372036854775807", Some(i64::MAX)),
        (b"9223372036854775808", None),
        (b"-9223372036854775808", Some(i64::MIN)),
        (b"-9223372036854775809", None),
        (b"10000000000000000000", None),
        (b"00000000000000000001", Some(1)),
        (b"18446744073709551617", None),
    ];
    for (at, (digits, want)) in table.iter().enumerate() {
        assert_eq!(rt; number(&text(&rt, alloc, digits)), *want, "row {at}");
    }
    assert_eq!(rt; number(&Value::Bool(true)), Some(1));
    assert_eq!(rt; number(&Value::List(List::new(alloc))), None);
}

/// Whether two values are `===` and `==`, and their order.
fn compared(a: &Value, b: &Value) -> (bool, bool, Option<Ordering>) {
    (same(a, b), loose_same(a, b), order(a, b))
}

#[test]
fn texts_and_numbers_compare_by_number_and_two_texts_by_bytes(rt: HostRuntime) {
    let alloc = rt.alloc();
    let (nine, ten) = (text(&rt, alloc, b"9"), text(&rt, alloc, b"10"));
    let empty = text(&rt, alloc, b"");
    assert_eq!(rt; compared(&ten, &nine), (false, false, Some(Ordering::Less)));
    assert_eq!(rt;
        compared(&Value::Int(10), &nine),
        (false, false, Some(Ordering::Greater))
    );
    assert_eq!(rt;
        compared(&text(&rt, alloc, b"07"), &Value::Int(7)),
        (false, true, Some(Ordering::Equal))
    );
    assert_eq!(rt; compared(&Value::Int(0), &empty), (false, false, None));
    assert_eq!(rt; compared(&Value::Null, &empty), (false, true, None));
    assert_eq!(rt;
        compared(&Value::Bool(true), &nine),
        (false, true, Some(Ordering::Less))
    );
    assert_eq!(rt;
        compared(&Value::Null, &Value::Null),
        (true, true, Some(Ordering::Equal))
    );
    assert_eq!(rt;
        compared(&Value::Null, &Value::Bool(false)),
        (false, true, Some(Ordering::Equal))
    );
}

#[test]
fn lists_and_objects_are_equal_by_content_in_order(rt: HostRuntime) {
    let alloc = rt.alloc();
    let list = Value::List(List::new(alloc));
    let pairs = ints(&rt, alloc, &[1, 2]);
    assert_eq!(rt; compared(&list, &Value::Bool(false)), (false, true, None));
    assert_eq!(rt; compared(&list, &Value::Int(0)), (false, false, None));
    assert_eq!(rt;
        compared(&pairs, &ints(&rt, alloc, &[1, 2])),
        (true, true, None)
    );
    assert_eq!(rt;
        compared(&pairs, &ints(&rt, alloc, &[2, 1])),
        (false, false, None)
    );
    let object = pair(&rt, alloc, b"a", b"b");
    assert_eq!(rt;
        compared(&object, &pair(&rt, alloc, b"a", b"b")),
        (true, true, None)
    );
    assert_eq!(rt;
        compared(&object, &pair(&rt, alloc, b"b", b"a")),
        (false, false, None)
    );
    let truths = [
        truth(&Value::Null),
        truth(&Value::Int(0)),
        truth(&list),
        truth(&object),
    ];
    assert_eq!(rt; truths, [false, false, false, true]);
}

/// A text of so many bytes.
fn long_text(rt: &impl Abort, alloc: Global, count: usize) -> Result<Value, ValueFault> {
    let bytes = vec![in alloc; b'x'; count].expect(rt, "room");
    Ok(Value::Text(Text::from_vec(alloc, bytes)?))
}

#[test]
fn a_value_takes_2_24_less_64_bytes_and_no_more(rt: HostRuntime) {
    let alloc = rt.alloc();
    // a text takes its kind, four bytes for its length, and itself
    assert_eq!(rt;
        long_text(&rt, alloc, 16_777_148).err(),
        Some(ValueFault::TooLarge)
    );
    let largest = long_text(&rt, alloc, 16_777_147).expect(&rt, "a text");
    assert_eq!(rt; size(&largest), 16_777_152);
}

#[test]
fn a_list_takes_two_bytes_more_than_its_one_item(rt: HostRuntime) {
    let alloc = rt.alloc();
    let mut root = Value::Null;
    let larger = long_text(&rt, alloc, 16_777_146).expect(&rt, "a text");
    assert_eq!(rt;
        put(alloc, &mut root, &[Step::Append], larger),
        Err(ValueFault::TooLarge)
    );
    let largest = long_text(&rt, alloc, 16_777_145).expect(&rt, "a text");
    assert_eq!(rt; put(alloc, &mut root, &[Step::Append], largest), Ok(()));
    assert_eq!(rt; size(&root), 16_777_152);
    let more = put(alloc, &mut root, &[Step::Append], Value::Null);
    assert_eq!(rt; more, Err(ValueFault::TooLarge));
}

/// Puts a value at the end of so many steps of `[ ]`.
fn put_deep(
    rt: &impl Abort,
    alloc: Global,
    root: &mut Value,
    count: usize,
    new: Value,
) -> Result<(), ValueFault> {
    let mut steps = Vec::new(alloc);
    for _ in 0..count {
        steps.push(Step::Append).expect(rt, "room");
    }
    put(alloc, root, steps.as_slice(), new)
}

#[test]
fn a_value_is_128_deep_and_no_deeper(rt: HostRuntime) {
    let alloc = rt.alloc();
    let mut deep = Value::Null;
    assert_eq!(rt;
        put_deep(&rt, alloc, &mut deep, 129, Value::Null),
        Err(ValueFault::TooDeep)
    );
    assert_eq!(rt; put_deep(&rt, alloc, &mut deep, 128, Value::Null), Ok(()));
    assert_eq!(rt; (size(&deep), depth(&deep)), (257, 128));
    // a list one deeper in is refused, and so is one level more on top
    let empty = Value::List(List::new(alloc));
    assert_eq!(rt;
        put_deep(&rt, alloc, &mut deep, 128, empty),
        Err(ValueFault::TooDeep)
    );
    let mut null = Value::Null;
    assert_eq!(rt;
        put_member(alloc, &mut null, b"a", deep),
        Err(ValueFault::TooDeep)
    );
}

/// Sets a member, which has to stand at a place.
fn set(
    rt: &impl Abort,
    alloc: Global,
    builder: &mut ObjectBuilder,
    name: &[u8],
    value: Value,
    place: usize,
) {
    let name = Vec::from_slice(alloc, name).expect(rt, "a name");
    assert_eq!(rt; builder.set(name, value), Ok(place));
}

#[test]
fn an_object_is_built_of_the_last_values_in_the_first_places(rt: HostRuntime) {
    let alloc = rt.alloc();
    let mut builder = ObjectBuilder::new(alloc);
    set(&rt, alloc, &mut builder, b"a", Value::Null, 0);
    set(&rt, alloc, &mut builder, b"b", Value::Int(2), 1);
    set(&rt, alloc, &mut builder, b"a", Value::Int(1), 0);
    let object = builder.finish(alloc).expect(&rt, "an object");
    assert!(rt; same(&Value::Object(object), &pair(&rt, alloc, b"a", b"b")));
}

#[test]
fn an_object_that_is_too_deep_or_too_large_is_not_built(rt: HostRuntime) {
    let alloc = rt.alloc();
    let largest = long_text(&rt, alloc, 16_777_147).expect(&rt, "a text");
    let mut large = ObjectBuilder::new(alloc);
    set(&rt, alloc, &mut large, b"a", largest, 0);
    let mut value = Value::Null;
    assert_eq!(rt; put_deep(&rt, alloc, &mut value, 128, Value::Null), Ok(()));
    let mut deep = ObjectBuilder::new(alloc);
    set(&rt, alloc, &mut deep, b"a", value, 0);
    assert_eq!(rt; large.finish(alloc).err(), Some(ValueFault::TooLarge));
    assert_eq!(rt; deep.finish(alloc).err(), Some(ValueFault::TooDeep));
}

/// One of nine values: those whose truth only the definition decides.
fn plain_one(rt: &impl Abort, alloc: Global, which: usize) -> Value {
    match which {
        0 => Value::Null,
        1 => Value::Bool(false),
        2 => Value::Bool(true),
        3 => Value::Int(0),
        4 => Value::Int(1),
        5 => text(rt, alloc, b""),
        6 => text(rt, alloc, b"0"),
        7 => Value::List(List::new(alloc)),
        _ => Value::Object(Object::new(alloc)),
    }
}

#[test]
fn null_false_zero_and_what_is_empty_are_false(rt: HostRuntime) {
    let alloc = rt.alloc();
    let table = [false, false, true, false, true, false, true, false, false];
    for (which, want) in table.iter().enumerate() {
        let value = plain_one(&rt, alloc, which);
        assert_eq!(rt; truth(&value), *want, "value {which}");
    }
}

/// The whole number that stands at an index.
fn number_at(value: &Value, at: &Value) -> Option<i64> {
    match get_index(value, at)? {
        Value::Int(z) => Some(*z),
        _ => None,
    }
}

#[test]
fn only_lists_by_numbers_and_objects_by_names_have_something_at_an_index(rt: HostRuntime) {
    let alloc = rt.alloc();
    let list = ints(&rt, alloc, &[10, 20]);
    let object = pair(&rt, alloc, b"0", b"");
    let in_list = [None, None, None, Some(10), Some(20), None, None, None, None];
    let in_object = [
        None,
        None,
        None,
        Some(1),
        None,
        Some(2),
        Some(1),
        None,
        None,
    ];
    for which in 0..9 {
        let at = plain_one(&rt, alloc, which);
        assert_eq!(rt;
            number_at(&list, &at),
            in_list[which],
            "in a list, index {which}"
        );
        assert_eq!(rt;
            number_at(&object, &at),
            in_object[which],
            "in an object, index {which}"
        );
        for kind in 0..9 {
            let value = plain_one(&rt, alloc, kind);
            assert_eq!(rt;
                number_at(&value, &at),
                None,
                "in value {kind}, index {which}"
            );
        }
    }
    assert!(rt; get_member(&list, b"0").is_none());
    assert!(rt; get_index(&list, &Value::Int(2)).is_none());
}

/// The deepest list.
fn deepest(rt: &impl Abort, alloc: Global) -> Value {
    let mut value = Value::Null;
    put_deep(rt, alloc, &mut value, 128, Value::Null).expect(rt, "a deep list");
    value
}

#[test]
fn a_step_that_leads_nowhere_comes_before_depth_and_depth_before_size(rt: HostRuntime) {
    let alloc = rt.alloc();
    let mut number = Value::Int(7);
    assert_eq!(rt;
        put_member(alloc, &mut number, b"a", deepest(&rt, alloc)),
        Err(ValueFault::NotContainer)
    );
    let mut list = ints(&rt, alloc, &[1]);
    assert_eq!(rt;
        put_index(alloc, &mut list, &Value::Int(2), deepest(&rt, alloc)),
        Err(ValueFault::IndexRange)
    );
    let mut large = Value::Null;
    let largest = long_text(&rt, alloc, 16_777_145).expect(&rt, "a text");
    put(alloc, &mut large, &[Step::Append], largest).expect(&rt, "a list");
    assert_eq!(rt;
        put_index(alloc, &mut large, &Value::Int(1), deepest(&rt, alloc)),
        Err(ValueFault::TooDeep)
    );
    let mut values = Vec::new(alloc);
    values.push(large).expect(&rt, "room");
    values.push(deepest(&rt, alloc)).expect(&rt, "room");
    assert_eq!(rt; List::from_values(values).err(), Some(ValueFault::TooDeep));
}

#[test]
fn a_length_takes_a_byte_up_to_127_and_two_from_128_on(rt: HostRuntime) {
    let alloc = rt.alloc();
    for (count, want) in [(127, 129), (128, 131)] {
        let bytes = long_text(&rt, alloc, count).expect(&rt, "a text");
        assert_eq!(rt; size(&bytes), want);
        let mut list = List::with_capacity(alloc, count).expect(&rt, "a list");
        let mut values = Vec::new(alloc);
        for _ in 0..count {
            list.push(Value::Null).expect(&rt, "an item");
            values.push(Value::Null).expect(&rt, "room");
        }
        let made = List::from_values(values).expect(&rt, "a list");
        let list = Value::List(list);
        assert_eq!(rt; size(&list), want);
        assert!(rt; same(&list, &Value::List(made)));
    }
}

#[test]
fn a_text_grows_by_other_bytes_up_to_the_limit(rt: HostRuntime) {
    let alloc = rt.alloc();
    let mut grown = Text::new(alloc, b"ab").expect(&rt, "a text");
    assert_eq!(rt; grown.append(b"cd"), Ok(()));
    assert_eq!(rt; grown.append(b""), Ok(()));
    assert_eq!(rt; grown.bytes(), b"abcd".as_slice());
    let mut zeros = Vec::new(alloc);
    zeros.resize(16_777_144, 0u8).expect(&rt, "room");
    assert_eq!(rt; grown.append(zeros.as_slice()), Err(ValueFault::TooLarge));
    assert_eq!(rt; grown.bytes(), b"abcd".as_slice());
    assert_eq!(rt; grown.append(&zeros[1..]), Ok(()));
    assert_eq!(rt; grown.bytes().len(), 16_777_147);
    assert_eq!(rt; grown.append(b"e"), Err(ValueFault::TooLarge));
    assert_eq!(rt; size(&Value::Text(grown)), MOST_SIZE);
}

#[test]
fn a_value_takes_six_words(rt: HostRuntime) {
    assert_eq!(rt; std::mem::size_of::<Value>(), 48);
}

/// The name of the nth of 1,009 members, in no order.
fn mixed_name(rt: &impl Abort, alloc: Global, n: u32) -> Vec<u8> {
    let mut decimal = itoa::Buffer::new();
    let name = decimal.format(n % 1_009 * 541 % 1_009);
    Vec::from_slice(alloc, name.as_bytes()).expect(rt, "a name")
}

#[test]
fn each_of_many_members_is_found_in_place_and_in_a_copy(rt: HostRuntime) {
    let alloc = rt.alloc();
    let mut written = Value::Null;
    let mut builder = ObjectBuilder::new(alloc);
    for n in 0..1_009 {
        let name = mixed_name(&rt, alloc, n);
        put_member(alloc, &mut written, name.as_slice(), Value::Null).expect(&rt, "a member");
        assert_eq!(rt; builder.set(name, Value::Int(n.into())), Ok(n as usize));
    }
    for n in 0..1_009 {
        let name = mixed_name(&rt, alloc, n);
        assert_eq!(rt; builder.set(name, Value::Int(-1)), Ok(n as usize));
        let name = mixed_name(&rt, alloc, n);
        put_member(alloc, &mut written, name.as_slice(), Value::Int(-1)).expect(&rt, "a member");
    }
    let built = builder.finish(alloc).expect(&rt, "an object");
    let copied = copy(alloc, &Value::Object(built)).expect(&rt, "a copy");
    assert!(rt; same(&written, &copied));
    for n in 0..1_009 {
        let name = mixed_name(&rt, alloc, n);
        let found = get_member(&copied, name.as_slice()).expect(&rt, "a member");
        assert!(rt; same(found, &Value::Int(-1)));
    }
    assert!(rt; get_member(&copied, b"1009").is_none());
}

/// Names whose marks all lead to the first row of an index, if it has 128 rows or fewer.
fn crowded_names(rt: &impl Abort, alloc: Global, count: usize) -> Vec<Vec<u8>> {
    let mut names = Vec::new(alloc);
    for n in 0..1_000_000u32 {
        if names.len() == count {
            break;
        }
        let mut decimal = itoa::Buffer::new();
        let name = decimal.format(n).as_bytes();
        if mark(digest(name)) % 128 == 0 {
            let name = Vec::from_slice(alloc, name).expect(rt, "a name");
            names.push(name).expect(rt, "room");
        }
    }
    names
}

#[test]
fn members_that_are_too_many_for_their_row_are_found(rt: HostRuntime) {
    let alloc = rt.alloc();
    let mut written = Value::Null;
    let names = crowded_names(&rt, alloc, 100);
    for name in &names {
        put_member(alloc, &mut written, name.as_slice(), Value::Null).expect(&rt, "a member");
    }
    for name in &names {
        put_member(alloc, &mut written, name.as_slice(), Value::Int(7)).expect(&rt, "a member");
    }
    let Value::Object(members) = &written else {
        return;
    };
    assert_eq!(rt; (names.len(), members.len()), (100, 100));
    let copied = copy(alloc, &written).expect(&rt, "a copy");
    for name in &names {
        let found = get_member(&copied, name.as_slice()).expect(&rt, "a member");
        assert!(rt; same(found, &Value::Int(7)));
    }
    assert!(rt; get_member(&copied, b"none").is_none());
}

#[test]
fn the_depth_falls_with_the_last_part_that_is_as_deep(rt: HostRuntime) {
    let alloc = rt.alloc();
    let mut root = Value::Null;
    for _ in 0..40 {
        let part = Value::List(List::new(alloc));
        put(alloc, &mut root, &[Step::Append], part).expect(&rt, "an item");
    }
    let twice = [Step::Index(Value::Int(20)), Step::Append];
    let inner = Value::List(List::new(alloc));
    put(alloc, &mut root, &twice, inner).expect(&rt, "a deeper item");
    assert_eq!(rt; depth(&root), 3);
    for at in 0..40 {
        let want = if at <= 20 { 3 } else { 2 };
        assert_eq!(rt; depth(&root), want, "before item {at}");
        put_index(alloc, &mut root, &Value::Int(at), Value::Null).expect(&rt, "a write");
    }
    assert_eq!(rt; depth(&root), 1);
    let last = Value::List(List::new(alloc));
    put(alloc, &mut root, &[Step::Append], last).expect(&rt, "an item");
    assert_eq!(rt; (depth(&root), size(&root)), (2, 44));
}
