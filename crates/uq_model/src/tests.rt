//! The layers above use a base through the trait, as here.

use crate::records::batch;
use crate::{
    Base, BaseStop, CollectionInfo, Done, Limits, MOST_BYTES, MOST_ENTRIES, MapBase, Refusal,
};
use std::alloc::Global;
use std::process::Abort;
use uq_value::{Object, Text, Value, put_member, same};

/// What a collection without records comes to.
const NEW: CollectionInfo = CollectionInfo {
    count: 0,
    next_id: 0,
};

/// A base that may hold as much as there may be.
fn base(alloc: Global) -> MapBase {
    let limits = Limits {
        entries: MOST_ENTRIES,
        bytes: MOST_BYTES,
    };
    MapBase::new(alloc, limits)
}

fn yes() -> Result<Done, BaseStop> {
    Ok(Done::Yes)
}

fn no(refusal: Refusal) -> Result<Done, BaseStop> {
    Ok(Done::No(refusal))
}

fn nothing(alloc: Global) -> Value {
    Value::Object(Object::new(alloc))
}

/// An object with this member.
fn one(rt: &impl Abort, alloc: Global, name: &[u8], value: Value) -> Value {
    let mut object = nothing(alloc);
    put_member(alloc, &mut object, name, value).expect(rt, "a member");
    object
}

/// An object whose member `a` is a text of so many bytes.
fn large(rt: &impl Abort, alloc: Global, bytes: usize) -> Value {
    let mut text = Vec::new(alloc);
    text.resize(bytes, b'x').expect(rt, "bytes");
    let text = Text::from_vec(alloc, text).expect(rt, "a text");
    one(rt, alloc, b"a", Value::Text(text))
}

fn check_record<B: Base>(rt: &impl Abort, base: &mut B, id: u64, want: &Value) {
    let found = base.fetch_record(b"u", id).expect(rt, "a record or none");
    let record = found.expect(rt, "a record");
    assert!(rt; same(&record, want), "record {id}");
}

fn check_schema<B: Base>(rt: &impl Abort, base: &mut B, want: &Value) {
    let found = base.schema(b"u").expect(rt, "a schema or none");
    let schema = found.expect(rt, "a schema");
    assert!(rt; same(&schema, want));
}

/// Each call on a base in which nothing is, and what it answers.
fn check_each_call<B: Base>(rt: &impl Abort, alloc: Global, base: &mut B) {
    assert_eq!(rt; base.create(b"u"), yes());
    assert_eq!(rt; base.collection(b"u"), Ok(Some(NEW)));
    assert_eq!(rt; base.create(b"u"), no(Refusal::Exists));
    assert_eq!(rt; base.store_records(b"u", &[nothing(alloc)]), yes());
    assert_eq!(rt; base.at_or_after(b"u", 0), Ok(Some(0)));
    check_record(rt, base, 0, &one(rt, alloc, b"__id", Value::Int(0)));
    let other = one(rt, alloc, b"a", Value::Int(1));
    assert_eq!(rt; base.replace_record(b"u", 0, &other), yes());
    assert_eq!(rt; base.set_schema(b"u", &nothing(alloc)), yes());
    check_schema(rt, base, &nothing(alloc));
    assert_eq!(rt; base.drop_record(b"u", 0), yes());
    assert_eq!(rt; base.drop_collection(b"u"), yes());
    assert_eq!(rt; base.commit(), Ok(true));
    assert_eq!(rt; base.commit(), Ok(false));
    assert_eq!(rt; base.begin(), Ok(()));
    assert_eq!(rt; base.rollback(), Ok(()));
}

#[test]
fn each_call_answers_over_maps(rt: HostRuntime) {
    let alloc = rt.alloc();
    check_each_call(&rt, alloc, &mut base(alloc));
}

#[test]
fn the_first_of_several_refusals_comes(rt: HostRuntime) {
    let alloc = rt.alloc();
    let mut base = base(alloc);
    let long = [b'n'; 65];
    let long = long.as_slice();
    let null = [Value::Null];
    for name in [b"".as_slice(), b"u-".as_slice(), long] {
        assert_eq!(rt; base.create(name), no(Refusal::BadName));
        assert_eq!(rt; base.drop_collection(name), no(Refusal::BadName));
        assert_eq!(rt; base.store_records(name, &null), no(Refusal::BadName));
        assert_eq!(rt;
            base.replace_record(name, 0, &Value::Null),
            no(Refusal::BadName)
        );
        assert_eq!(rt; base.drop_record(name, 0), no(Refusal::BadName));
        assert_eq!(rt; base.set_schema(name, &Value::Null), no(Refusal::BadName));
        assert_eq!(rt; base.collection(name), Ok(None));
    }
    assert_eq!(rt;
        base.drop_collection(&long[..64]),
        no(Refusal::NoCollection)
    );
    assert_eq!(rt; base.store_records(b"u", &null), no(Refusal::NoCollection));
    assert_eq!(rt;
        base.replace_record(b"u", 0, &Value::Null),
        no(Refusal::NoCollection)
    );
    assert_eq!(rt; base.drop_record(b"u", 0), no(Refusal::NoCollection));
    assert_eq!(rt;
        base.set_schema(b"u", &Value::Null),
        no(Refusal::NoCollection)
    );
    // a refused call begins nothing
    assert_eq!(rt; base.commit(), Ok(false));
    assert_eq!(rt; base.create(b"u"), yes());
    assert_eq!(rt;
        base.replace_record(b"u", 0, &Value::Null),
        no(Refusal::NoRecord)
    );
    assert_eq!(rt; base.drop_record(b"u", 0), no(Refusal::NoRecord));
    assert_eq!(rt; base.set_schema(b"u", &Value::Null), no(Refusal::NotObject));
    // what is no object comes before what is too large, also where it stands behind it
    let mixed = [large(&rt, alloc, 16_777_130), Value::Null];
    let mixed = mixed.as_slice();
    assert_eq!(rt; base.store_records(b"u", mixed), no(Refusal::NotObject));
    assert_eq!(rt;
        base.store_records(b"u", &mixed[..1]),
        no(Refusal::RecordTooLarge)
    );
    let largest = [large(&rt, alloc, 16_777_129)];
    assert_eq!(rt; base.store_records(b"u", &largest), yes());
    assert_eq!(rt;
        base.replace_record(b"u", 0, &Value::Null),
        no(Refusal::NotObject)
    );
    assert_eq!(rt;
        base.replace_record(b"u", 0, &mixed[0]),
        no(Refusal::RecordTooLarge)
    );
}

#[test]
fn a_list_is_stored_whole_or_not_at_all(rt: HostRuntime) {
    let alloc = rt.alloc();
    let mut base = base(alloc);
    assert_eq!(rt; base.create(b"u"), yes());
    assert_eq!(rt; base.commit(), Ok(true));
    let mixed = [nothing(alloc), Value::Int(1), nothing(alloc)];
    assert_eq!(rt; base.store_records(b"u", &mixed), no(Refusal::NotObject));
    assert_eq!(rt; base.collection(b"u"), Ok(Some(NEW)));
    assert_eq!(rt; base.commit(), Ok(false));
    // a list of nothing is accepted, and begins a transaction
    assert_eq!(rt; base.store_records(b"u", &[]), yes());
    assert_eq!(rt; base.commit(), Ok(true));
    assert_eq!(rt; base.collection(b"u"), Ok(Some(NEW)));
}

#[test]
fn an_id_is_given_once_in_the_life_of_a_collection(rt: HostRuntime) {
    let alloc = rt.alloc();
    let mut base = base(alloc);
    let two = [one(&rt, alloc, b"__id", Value::Int(9)), nothing(alloc)];
    let two = two.as_slice();
    assert_eq!(rt; base.create(b"u"), yes());
    assert_eq!(rt; base.store_records(b"u", two), yes());
    check_record(&rt, &mut base, 0, &one(&rt, alloc, b"__id", Value::Int(0)));
    assert_eq!(rt; base.drop_record(b"u", 1), yes());
    assert_eq!(rt; base.drop_record(b"u", 1), no(Refusal::NoRecord));
    assert_eq!(rt; base.store_records(b"u", &two[1..]), yes());
    assert_eq!(rt; base.at_or_after(b"u", 1), Ok(Some(2)));
    assert_eq!(rt; base.at_or_after(b"u", 3), Ok(None));
    let info = CollectionInfo {
        count: 2,
        next_id: 3,
    };
    assert_eq!(rt; base.collection(b"u"), Ok(Some(info)));
    assert_eq!(rt; base.drop_collection(b"u"), yes());
    assert_eq!(rt; base.create(b"u"), yes());
    assert_eq!(rt; base.collection(b"u"), Ok(Some(NEW)));
}

#[test]
fn ids_end_one_below_the_last_next_id(rt: HostRuntime) {
    let alloc = rt.alloc();
    let last: u64 = 9_223_372_036_854_775_806;
    let two = [nothing(alloc), nothing(alloc)];
    let two = two.as_slice();
    for (next, objects, fits) in [
        (last, 1, true),
        (last, 2, false),
        (last + 1, 0, true),
        (last + 1, 1, false),
    ] {
        assert!(rt; next <= last + 1 && objects <= 2);
        let made = batch(alloc, next, &two[..objects]);
        assert!(rt; made.is_ok() == fits, "{objects} from {next}");
    }
}

fn limited(rt: &impl Abort, alloc: Global, entries: u64, bytes: u64) -> MapBase {
    assert!(rt; entries <= MOST_ENTRIES && bytes <= MOST_BYTES);
    MapBase::new(alloc, Limits { entries, bytes })
}

#[test]
fn a_limit_may_be_reached_and_not_passed(rt: HostRuntime) {
    let alloc = rt.alloc();
    // a collection of one letter takes 36 bytes, and a record of its id alone 44
    for (entries, bytes, made, stored) in [
        (0, 100, no(Refusal::Full), no(Refusal::NoCollection)),
        (1, 100, yes(), no(Refusal::Full)),
        (2, 100, yes(), yes()),
        (2, 35, no(Refusal::Full), no(Refusal::NoCollection)),
        (2, 36, yes(), no(Refusal::Full)),
        (2, 79, yes(), no(Refusal::Full)),
        (2, 80, yes(), yes()),
    ] {
        let mut base = limited(&rt, alloc, entries, bytes);
        assert!(rt;
            base.create(b"u") == made,
            "{entries} entries, {bytes} bytes"
        );
        let answer = base.store_records(b"u", &[nothing(alloc)]);
        assert!(rt; answer == stored, "{entries} entries, {bytes} bytes");
    }
    let mut base = limited(&rt, alloc, 2, 80);
    assert_eq!(rt; base.create(b"u"), yes());
    assert_eq!(rt; base.store_records(b"u", &[nothing(alloc)]), yes());
    // at the limits a name that is taken comes first, and what makes nothing greater is accepted
    assert_eq!(rt; base.create(b"u"), no(Refusal::Exists));
    assert_eq!(rt; base.set_schema(b"u", &nothing(alloc)), no(Refusal::Full));
    let other = one(&rt, alloc, b"a", Value::Null);
    assert_eq!(rt; base.replace_record(b"u", 0, &other), no(Refusal::Full));
    assert_eq!(rt; base.replace_record(b"u", 0, &nothing(alloc)), yes());
    assert_eq!(rt; base.drop_record(b"u", 0), yes());
    assert_eq!(rt; base.set_schema(b"u", &nothing(alloc)), yes());
}

#[test]
fn a_rollback_gives_back_what_was_saved(rt: HostRuntime) {
    let alloc = rt.alloc();
    let mut base = base(alloc);
    assert_eq!(rt; base.create(b"u"), yes());
    assert_eq!(rt; base.store_records(b"u", &[nothing(alloc)]), yes());
    assert_eq!(rt; base.commit(), Ok(true));
    let saved = CollectionInfo {
        count: 1,
        next_id: 1,
    };
    for call in 0..6 {
        assert_eq!(rt; base.begin(), Ok(()));
        let done = match call {
            0 => base.create(b"v"),
            1 => base.drop_collection(b"u"),
            2 => base.store_records(b"u", &[nothing(alloc), nothing(alloc)]),
            3 => base.replace_record(b"u", 0, &one(&rt, alloc, b"a", Value::Null)),
            4 => base.drop_record(b"u", 0),
            _ => base.set_schema(b"u", &nothing(alloc)),
        };
        assert_eq!(rt; done, yes());
        assert_eq!(rt; base.begin(), Ok(()));
        assert_eq!(rt; base.rollback(), Ok(()));
        assert_eq!(rt; base.collection(b"u"), Ok(Some(saved)));
        assert_eq!(rt; base.collection(b"v"), Ok(None));
        check_record(&rt, &mut base, 0, &one(&rt, alloc, b"__id", Value::Int(0)));
        check_schema(&rt, &mut base, &Value::Null);
        assert_eq!(rt; base.commit(), Ok(false));
    }
}
