//! What no clause says: each call with ample memory, on cases from the rules of lines, words and options.
use crate::*;
use std::alloc::Global;
use std::test::Fail;
use uq_outside::{MemSource, SureSource};

/// The words, with a bar behind each.
fn barred(alloc: Global, words: &Words) -> Result<Vec<u8>, Fail> {
    let mut all = Vec::new(alloc);
    for word in words.as_slice() {
        all.extend_from_slice(word.as_slice())?;
        all.push(b'|')?;
    }
    Ok(all)
}

/// The words of a line, with a bar behind each; `!` where it is not made of words.
fn joined(alloc: Global, line: &[u8]) -> Result<Vec<u8>, Fail> {
    match read_words(alloc, line) {
        Ok(words) => barred(alloc, &words),
        Err(WordsFault::Bad) => Ok(Vec::from_slice(alloc, b"!")?),
        Err(WordsFault::Memory) => Err(Fail::from("no memory")),
    }
}

#[test]
fn a_line_is_cut_at_blanks_into_bare_words_and_strings(rt: HostRuntime) -> Result<(), Fail> {
    let cases: [(&[u8], &[u8]); 28] = [
        (b"", b""),
        (b" \t ", b""),
        (b"store a 1", b"store|a|1|"),
        (b"\tstore  a\t1 ", b"store|a|1|"),
        (b"#", b"#|"),
        (b"a #b", b"a|#b|"),
        (b"\"\"", b"|"),
        (b"store \"\" x", b"store||x|"),
        (b"\"store\" \"a b\"", b"store|a b|"),
        (b"\"a\\\"b\"", b"a\"b|"),
        (b"\"\\\\\\/\\b\\f\\n\\r\\t\"", b"\\/\x08\x0c\n\r\t|"),
        (b"\"\\u0041\\u00e9\"", b"A\xc3\xa9|"),
        (b"\"\\ud83d\\ude00\"", b"\xf0\x9f\x98\x80|"),
        (b"\"\\u0000\"", b"\x00|"),
        (b"a\x00\xff b", b"a\x00\xff|b|"),
        (b"\xff", b"\xff|"),
        (b"a \"b", b"!"),
        (b"a\"b", b"!"),
        (b"a\"", b"!"),
        (b"\"a\"b", b"!"),
        (b"\"a\"\"b\"", b"!"),
        (b"\"a\tb\"", b"!"),
        (b"\"a\\x\"", b"!"),
        (b"\"\\u00g0\"", b"!"),
        (b"\"a\\\"", b"!"),
        (b"\"", b"!"),
        (b"\"a\" ", b"a|"),
        (b"a\rb\x0b", b"a\rb\x0b|"),
    ];
    for (line, wanted) in cases {
        assert_eq!(rt; joined(rt.alloc(), line)?.as_slice(), wanted);
    }
    Ok(())
}

#[test]
fn words_are_counted_from_0(rt: HostRuntime) -> Result<(), Fail> {
    let words = read_words(rt.alloc(), b"a \"b c\"").map_err(|_| "words")?;
    assert_eq!(rt; words.len(), 2);
    assert_eq!(rt; words.word(0).expect(&rt, "a word"), b"a".as_slice());
    assert_eq!(rt; words.word(1).expect(&rt, "a word"), b"b c".as_slice());
    assert!(rt; words.word(2).is_none());
    Ok(())
}

/// What a line says, as one text.
fn spoken(alloc: Global, text: Option<&[u8]>) -> Result<Vec<u8>, Fail> {
    match read_line(alloc, text).map_err(|_| "no memory")? {
        Line::Silent => Ok(Vec::from_slice(alloc, b"silent")?),
        Line::TooLong => Ok(Vec::from_slice(alloc, b"too long")?),
        Line::NoWords => Ok(Vec::from_slice(alloc, b"no words")?),
        Line::Says(words) => barred(alloc, &words),
    }
}

#[test]
fn a_comment_says_nothing_whatever_stands_in_it(rt: HostRuntime) -> Result<(), Fail> {
    let cases: [(&[u8], &[u8]); 8] = [
        (b"", b"silent"),
        (b" \t ", b"silent"),
        (b"#", b"silent"),
        (b"\t # a\"b", b"silent"),
        (b"a #", b"a|#|"),
        (b"\"#\"", b"#|"),
        (b"a\"", b"no words"),
        (b" \"\x00\"", b"no words"),
    ];
    for (line, wanted) in cases {
        assert_eq!(rt; spoken(rt.alloc(), Some(line))?.as_slice(), wanted);
    }
    assert_eq!(rt;
        spoken(rt.alloc(), None)?.as_slice(),
        b"too long".as_slice()
    );
    Ok(())
}

/// The words between the bars of a line.
fn words_in(alloc: Global, line: &str) -> Result<Vec<String>, Fail> {
    let mut words = Vec::new(alloc);
    if !line.is_empty() {
        for word in line.split('|') {
            words.push(String::from_str(alloc, word)?)?;
        }
    }
    Ok(words)
}

/// What the words ask for but the budget, as one text; `usage` where they are in no form.
fn ordered(alloc: Global, line: &str) -> Result<String, Fail> {
    let words = words_in(alloc, line)?;
    match read_options(alloc, words.as_slice()) {
        Ok(order) => {
            let limits = order.limits();
            let mut text = format!(in alloc;
                "{} {} {}",
                limits.entries,
                limits.bytes,
                order.name.text()
            )?;
            for word in order.words.as_slice() {
                text.push_str(" ")?;
                text.push_str(std::str::from_utf8(word.as_slice()).map_err(|_| "utf8")?)?;
            }
            Ok(text)
        }
        Err(OptionsFault::Usage) => Ok(String::from_str(alloc, "usage")?),
        Err(OptionsFault::Memory) => Err(Fail::from("no memory")),
    }
}

#[test]
fn options_come_first_and_each_once(rt: HostRuntime) -> Result<(), Fail> {
    let cases: [(&str, &str); 32] = [
        ("", "usage"),
        ("t.db", "16777216 1073741824 t.db"),
        ("t.db|store|a|1", "16777216 1073741824 t.db store a 1"),
        ("--max-entries|1|t.db", "1 1073741824 t.db"),
        ("--max-bytes|3|t.db", "16777216 3 t.db"),
        ("--max-bytes|3|--max-entries|2|t.db|begin", "2 3 t.db begin"),
        ("--max-entries|2|--max-bytes|3|t.db|begin", "2 3 t.db begin"),
        ("--max-entries|16777216|t.db", "16777216 1073741824 t.db"),
        ("--max-bytes|1073741824|t.db", "16777216 1073741824 t.db"),
        ("--max-entries|007|t.db", "7 1073741824 t.db"),
        (
            "--max-entries|00000000000000000000000000001|t.db",
            "1 1073741824 t.db",
        ),
        ("--max-entries|0|t.db", "usage"),
        ("--max-entries|16777217|t.db", "usage"),
        ("--max-bytes|1073741825|t.db", "usage"),
        ("--max-bytes|18446744073709551617|t.db", "usage"),
        ("--max-entries|1|--max-entries|1|t.db", "usage"),
        ("--max-entries|+5|t.db", "usage"),
        ("--max-entries||t.db", "usage"),
        ("--max-entries|--|t.db", "usage"),
        ("--max-entries|1", "usage"),
        ("--max-entries", "usage"),
        ("--max-bytes=5|t.db", "usage"),
        ("--budget|1|t.db", "16777216 1073741824 t.db"),
        ("t.db|--max-entries|1", "usage"),
        ("t.db|-", "usage"),
        ("-", "usage"),
        ("--", "usage"),
        ("--|", "usage"),
        ("--|-x|--|-y", "16777216 1073741824 -x -- -y"),
        ("t.db|--|-y", "16777216 1073741824 t.db -y"),
        ("t.db|fetch|--|--", "16777216 1073741824 t.db fetch --"),
        (
            "--max-bytes|3|--|t.db|--max-bytes",
            "16777216 3 t.db --max-bytes",
        ),
    ];
    for (line, wanted) in cases {
        assert_eq!(rt; ordered(rt.alloc(), line)?.as_str(), wanted);
    }
    Ok(())
}

/// The budget that the words ask for; none where they are in no form.
fn budgeted(alloc: Global, line: &str) -> Result<Option<u64>, Fail> {
    let words = words_in(alloc, line)?;
    match read_options(alloc, words.as_slice()) {
        Ok(order) => Ok(Some(order.budget)),
        Err(OptionsFault::Usage) => Ok(None),
        Err(OptionsFault::Memory) => Err(Fail::from("no memory")),
    }
}

#[test]
fn a_budget_is_a_number_of_units_up_to_ten_to_the_twelfth(rt: HostRuntime) -> Result<(), Fail> {
    let cases: [(&str, Option<u64>); 24] = [
        ("t.db", Some(10_000_000)),
        ("--budget|1|t.db", Some(1)),
        ("--budget|007|t.db", Some(7)),
        ("--budget|5|t.db|script", Some(5)),
        ("--budget|999999999999|t.db", Some(999_999_999_999)),
        ("--budget|1000000000000|t.db", Some(1_000_000_000_000)),
        ("--budget|0001000000000000|t.db", Some(1_000_000_000_000)),
        ("--budget|1000000000001|t.db", None),
        ("--budget|18446744073709551617|t.db", None),
        ("--budget|0|t.db", None),
        ("--budget|000|t.db", None),
        ("--budget|+5|t.db", None),
        ("--budget|-5|t.db", None),
        ("--budget|5 |t.db", None),
        ("--budget|0x5|t.db", None),
        ("--budget||t.db", None),
        ("--budget|--|t.db", None),
        ("--budget|5", None),
        ("--budget=5|t.db", None),
        ("t.db|--budget|5", None),
        ("--budget|5|--budget|5|t.db", None),
        ("--budget|5|--max-bytes|3|t.db", Some(5)),
        ("--max-entries|2|--budget|5|--max-bytes|3|t.db", Some(5)),
        ("--|--budget|5", Some(10_000_000)),
    ];
    for (line, wanted) in cases {
        assert_eq!(rt; budgeted(rt.alloc(), line)?, wanted);
    }
    Ok(())
}

/// All lines of an input, each with its kind, as one text.
fn cut<I: uq_outside::Source>(alloc: Global, input: &mut I, most: u64) -> Result<Vec<u8>, Fail> {
    let mut lines = Lines::new(alloc, most);
    let mut all = Vec::new(alloc);
    for _ in 0..1000 {
        let step = lines.advance(input).map_err(|_| "input")?;
        if step == Step::TooMuch {
            all.push(b'>')?;
            return Ok(all);
        }
        match lines.text() {
            Some(text) => all.extend_from_slice(text)?,
            None => all.push(b'!')?,
        }
        if step == Step::Last {
            all.push(b'.')?;
            return Ok(all);
        }
        all.push(b'|')?;
    }
    Ok(all)
}

#[test]
fn an_input_is_cut_at_line_feeds_in_pieces_of_any_length(rt: HostRuntime) -> Result<(), Fail> {
    let cases: [(&[u8], &[u8]); 9] = [
        (b"", b"."),
        (b"\n", b"|."),
        (b"a", b"a."),
        (b"a\n", b"a|."),
        (b"a\r\nb\r\r\n\rc\r", b"a|b\r|\rc."),
        (b"\r\n\r", b"|."),
        (b"a\nb\n\nc", b"a|b||c."),
        (b"ab\ncd\n", b"ab|cd|."),
        (b"\xff\x00\n", b"\xff\x00|."),
    ];
    for (input, wanted) in cases {
        for piece in 1..5 {
            let mut source = MemSource::new(rt.alloc(), input, piece, &[]).map_err(|_| "memory")?;
            assert_eq!(rt; cut(rt.alloc(), &mut source, 1 << 40)?.as_slice(), wanted);
        }
        let mut source = SureSource::new(input);
        assert_eq!(rt; cut(rt.alloc(), &mut source, 1 << 40)?.as_slice(), wanted);
    }
    Ok(())
}

#[test]
fn only_so_many_bytes_are_taken(rt: HostRuntime) -> Result<(), Fail> {
    let cases: [(u64, &[u8]); 7] = [
        (1, b">"),
        (3, b"ab|>"),
        (4, b"ab|>"),
        (6, b"ab|cd|>"),
        (7, b"ab|cd|>"),
        (8, b"ab|cd|e."),
        (9, b"ab|cd|e."),
    ];
    for (most, wanted) in cases {
        let mut source = SureSource::new(b"ab\ncd\ne");
        assert_eq!(rt; cut(rt.alloc(), &mut source, most)?.as_slice(), wanted);
    }
    Ok(())
}

#[test]
fn the_longest_line_is_kept_and_a_longer_one_is_passed(rt: HostRuntime) -> Result<(), Fail> {
    let cases: [(usize, &[u8], &[u8]); 3] = [
        (LONGEST, b"\r\nz", b"k|z."),
        (LONGEST + 1, b"\nz", b"!|z."),
        (LONGEST + 70_000, b"\nz", b"!|z."),
    ];
    for (length, end, wanted) in cases {
        let mut input = vec![in rt.alloc(); b'k'; length]?;
        input.extend_from_slice(end)?;
        let mut source = SureSource::new(input.as_slice());
        let mut lines = Lines::new(rt.alloc(), 1 << 40);
        let mut told = Vec::new(rt.alloc());
        for _ in 0..3 {
            let step = lines.advance(&mut source).map_err(|_| "input")?;
            match lines.text() {
                Some(text) if text.len() > 1 => {
                    assert_eq!(rt; text.len(), length);
                    told.push(b'k')?;
                }
                Some(text) => told.extend_from_slice(text)?,
                None => told.push(b'!')?,
            }
            if step == Step::Last {
                told.push(b'.')?;
                break;
            }
            told.push(b'|')?;
        }
        assert_eq!(rt; told.as_slice(), wanted);
    }
    Ok(())
}
