//! Tables of texts and their tokens.

use crate::*;
use jx9_syntax::{Part, Token, TokenKind};
use std::alloc::Global;
use std::process::Abort;

fn put(rt: &impl Abort, out: &mut Vec<u8>, bytes: &[u8]) {
    out.extend_from_slice(bytes).expect(rt, "memory");
}

fn put_named(rt: &impl Abort, out: &mut Vec<u8>, name: &[u8], bytes: &[u8]) {
    put(rt, out, name);
    put(rt, out, b"(");
    put(rt, out, bytes);
    put(rt, out, b")");
}

/// The token's line, a colon, and what it is.
fn put_token(rt: &impl Abort, alloc: Global, out: &mut Vec<u8>, token: &Token) {
    let line = format!(in alloc; "{}:", token.line).expect(rt, "memory");
    put(rt, out, line.as_bytes());
    match &token.kind {
        TokenKind::Name(name) => put_named(rt, out, b"name", name.bytes()),
        TokenKind::Var(name) => put_named(rt, out, b"var", name.bytes()),
        TokenKind::Text(text) => put_named(rt, out, b"text", text.bytes()),
        TokenKind::Mixed(parts) => {
            for part in parts.as_slice() {
                match part {
                    Part::Text(text) => put_named(rt, out, b"text", text.bytes()),
                    Part::Var(name) => put_named(rt, out, b"var", name.bytes()),
                }
            }
        }
        TokenKind::Int(n) => {
            let digits = format!(in alloc; "{n}").expect(rt, "memory");
            put(rt, out, digits.as_bytes());
        }
        TokenKind::Sign(sign) => {
            let name = format!(in alloc; "{sign:?}").expect(rt, "memory");
            put(rt, out, name.as_bytes());
        }
        TokenKind::End => put(rt, out, b"end"),
    }
}

/// Compares the tokens of the text, with a blank between them.
fn check_tokens(rt: &impl Abort, alloc: Global, text: &[u8], want: &[u8]) {
    assert!(rt; text.len() <= 0x100_0000);
    let tokens = lex(alloc, text).expect(rt, "tokens");
    let mut shown = Vec::new(alloc);
    for token in tokens.as_slice() {
        put(rt, &mut shown, b" ");
        put_token(rt, alloc, &mut shown, token);
    }
    assert_eq!(rt; shown.as_slice(), want);
}

fn check_bad(rt: &impl Abort, alloc: Global, text: &[u8], line: u32) {
    assert!(rt; text.len() <= 0x100_0000);
    match lex(alloc, text) {
        Ok(_) => assert!(rt; false, "{text:?} has tokens"),
        Err(fault) => assert!(rt; fault == LexFault::Bad { line }, "{text:?}: {fault:?}"),
    }
}

#[test]
fn the_longest_sign_is_taken(rt: HostRuntime) {
    let alloc = rt.alloc();
    let table: [(&[u8], &[u8]); 27] = [
        (
            b"+ - * / % .. . = += -= *= /= %= ..=",
            b" 1:Plus 1:Minus 1:Times 1:Divide 1:Remainder 1:Join 1:Dot 1:Assign 1:PlusAssign 1:MinusAssign 1:TimesAssign 1:DivideAssign 1:RemainderAssign 1:JoinAssign 1:end",
        ),
        (
            b"== != === !== < <= > >= && || ! ++ --",
            b" 1:Equal 1:NotEqual 1:Same 1:NotSame 1:Less 1:LessOrEqual 1:Greater 1:GreaterOrEqual 1:And 1:Or 1:Not 1:Increment 1:Decrement 1:end",
        ),
        (
            b"?:()[]{},;",
            b" 1:Question 1:Colon 1:OpenParen 1:CloseParen 1:OpenBracket 1:CloseBracket 1:OpenBrace 1:CloseBrace 1:Comma 1:Semicolon 1:end",
        ),
        (b"====", b" 1:Same 1:Assign 1:end"),
        (b"=====", b" 1:Same 1:Equal 1:end"),
        (b"=!=", b" 1:Assign 1:NotEqual 1:end"),
        (b"!===", b" 1:NotSame 1:Assign 1:end"),
        (b"!!=!", b" 1:Not 1:NotEqual 1:Not 1:end"),
        (b"<==", b" 1:LessOrEqual 1:Assign 1:end"),
        (b"<<=", b" 1:Less 1:LessOrEqual 1:end"),
        (b">>=>", b" 1:Greater 1:GreaterOrEqual 1:Greater 1:end"),
        (b"&&&&", b" 1:And 1:And 1:end"),
        (b"||||", b" 1:Or 1:Or 1:end"),
        (b"+++", b" 1:Increment 1:Plus 1:end"),
        (b"+++=", b" 1:Increment 1:PlusAssign 1:end"),
        (b"+==", b" 1:PlusAssign 1:Assign 1:end"),
        (b"---", b" 1:Decrement 1:Minus 1:end"),
        (b"--=->", b" 1:Decrement 1:Assign 1:Minus 1:Greater 1:end"),
        (b"*==*", b" 1:TimesAssign 1:Assign 1:Times 1:end"),
        (b"%%=", b" 1:Remainder 1:RemainderAssign 1:end"),
        (b"/==", b" 1:DivideAssign 1:Assign 1:end"),
        (b"...", b" 1:Join 1:Dot 1:end"),
        (b"....", b" 1:Join 1:Join 1:end"),
        (b"..=.=", b" 1:JoinAssign 1:Dot 1:Assign 1:end"),
        (b"..==", b" 1:JoinAssign 1:Assign 1:end"),
        (
            b"a.b..c...d",
            b" 1:name(a) 1:Dot 1:name(b) 1:Join 1:name(c) 1:Join 1:Dot 1:name(d) 1:end",
        ),
        (b"a/ *b", b" 1:name(a) 1:Divide 1:Times 1:name(b) 1:end"),
    ];
    for (text, want) in table {
        check_tokens(&rt, alloc, text, want);
    }
}

#[test]
fn names_and_numbers_are_taken_whole(rt: HostRuntime) {
    let alloc = rt.alloc();
    let table: [(&[u8], &[u8]); 19] = [
        (b"", b" 1:end"),
        (b"1;", b" 1:1 1:Semicolon 1:end"),
        (b"0", b" 1:0 1:end"),
        (b"00", b" 1:0 1:0 1:end"),
        (b"007", b" 1:0 1:0 1:7 1:end"),
        (b"0x", b" 1:0 1:name(x) 1:end"),
        (b"0xg", b" 1:0 1:name(xg) 1:end"),
        (b"0xF", b" 1:15 1:end"),
        (b"0xfFg", b" 1:255 1:name(g) 1:end"),
        (b"0X1", b" 1:0 1:name(X1) 1:end"),
        (b"0x0x1", b" 1:0 1:name(x1) 1:end"),
        (b"1a", b" 1:1 1:name(a) 1:end"),
        (b"12ab_3", b" 1:12 1:name(ab_3) 1:end"),
        (b"9223372036854775807", b" 1:9223372036854775807 1:end"),
        (b"0x7fffffffffffffff", b" 1:9223372036854775807 1:end"),
        (b"0x0007fffffffffffffff", b" 1:9223372036854775807 1:end"),
        (b"_aZ9 A_", b" 1:name(_aZ9) 1:name(A_) 1:end"),
        (b"$a$_b9", b" 1:var(a) 1:var(_b9) 1:end"),
        (b"-1", b" 1:Minus 1:1 1:end"),
    ];
    for (text, want) in table {
        check_tokens(&rt, alloc, text, want);
    }
}

#[test]
fn escapes_and_variables_stand_only_where_the_quotes_have_them(rt: HostRuntime) {
    let alloc = rt.alloc();
    let table: [(&[u8], &[u8]); 31] = [
        (b"''\"\"", b" 1:text() 1:text() 1:end"),
        (b"'\\'\\\\'", b" 1:text('\\) 1:end"),
        (b"'\\n\\x41$a\\\"'", b" 1:text(\\n\\x41$a\\\") 1:end"),
        (b"'a\"b'", b" 1:text(a\"b) 1:end"),
        (b"'\x00\x80\xff'", b" 1:text(\x00\x80\xff) 1:end"),
        (b"\"\x00\x80\xff\"", b" 1:text(\x00\x80\xff) 1:end"),
        (b"\"\\n\\t\\r\\\\\\\"\\$\"", b" 1:text(\n\t\r\\\"$) 1:end"),
        (b"\"\\a\\0\\'\\N\"", b" 1:text(\\a\\0\\'\\N) 1:end"),
        (b"\"\\x\"", b" 1:text(\\x) 1:end"),
        (b"\"\\x4\"", b" 1:text(\\x4) 1:end"),
        (b"\"\\x4g\"", b" 1:text(\\x4g) 1:end"),
        (b"\"\\xg4\"", b" 1:text(\\xg4) 1:end"),
        (b"\"\\x\\x41\"", b" 1:text(\\xA) 1:end"),
        (b"\"\\x41\\x4a\\x4A\\xFf\"", b" 1:text(AJJ\xff) 1:end"),
        (b"\"\\X41\"", b" 1:text(\\X41) 1:end"),
        (b"\"\\\\x41\"", b" 1:text(\\x41) 1:end"),
        (b"\"$\"", b" 1:text($) 1:end"),
        (b"\"$1 $ a$\"", b" 1:text($1 $ a$) 1:end"),
        (b"\"$$a\"", b" 1:text($)var(a) 1:end"),
        (b"\"$a$b\"", b" 1:var(a)var(b) 1:end"),
        (b"\"$a.b\"", b" 1:var(a)text(.b) 1:end"),
        (b"\"$a[0]\"", b" 1:var(a)text([0]) 1:end"),
        (b"\"\\$a\"", b" 1:text($a) 1:end"),
        (b"\"\\x24a\"", b" 1:text($a) 1:end"),
        (b"\"$a1_\"", b" 1:var(a1_) 1:end"),
        (b"\"x$a y\"", b" 1:text(x)var(a)text( y) 1:end"),
        (b"\"a\\x62$c\"", b" 1:text(ab)var(c) 1:end"),
        (b"\"$a\\x62\"", b" 1:var(a)text(b) 1:end"),
        (b"\"$a\\\\$b\"", b" 1:var(a)text(\\)var(b) 1:end"),
        (b"\"\\x$a\"", b" 1:text(\\x)var(a) 1:end"),
        (b"\"a\\\\\"'b'", b" 1:text(a\\) 1:text(b) 1:end"),
    ];
    for (text, want) in table {
        check_tokens(&rt, alloc, text, want);
    }
}

#[test]
fn blanks_and_comments_stand_between_tokens(rt: HostRuntime) {
    let alloc = rt.alloc();
    let table: [(&[u8], &[u8]); 16] = [
        (b"\t\n\x0b\x0c\r a", b" 2:name(a) 2:end"),
        (b"'\n' a", b" 1:text(\n) 2:name(a) 2:end"),
        (b"\"\n$a\" b", b" 1:text(\n)var(a) 2:name(b) 2:end"),
        (b"/*\n*/\na", b" 3:name(a) 3:end"),
        (b"# x\n a", b" 2:name(a) 2:end"),
        (b"a # 'b\n'c'", b" 1:name(a) 2:text(c) 2:end"),
        (b"//", b" 1:end"),
        (b"#", b" 1:end"),
        (b"a//b", b" 1:name(a) 1:end"),
        (b"a//b\r\nc", b" 1:name(a) 2:name(c) 2:end"),
        (b"/**/", b" 1:end"),
        (b"/***/a", b" 1:name(a) 1:end"),
        (b"/* * /*/a", b" 1:name(a) 1:end"),
        (b"a/**/b", b" 1:name(a) 1:name(b) 1:end"),
        (b"/* // */a", b" 1:name(a) 1:end"),
        (b"\n\n", b" 3:end"),
    ];
    for (text, want) in table {
        check_tokens(&rt, alloc, text, want);
    }
}

#[test]
fn the_first_byte_that_begins_no_token_is_told_by_its_line(rt: HostRuntime) {
    let alloc = rt.alloc();
    let table: [(&[u8], u32); 37] = [
        (b"@", 1),
        (b"\n'a", 2),
        (b"$", 1),
        (b"$1", 1),
        (b"$$a", 1),
        (b"a\n\n$", 3),
        (b"&", 1),
        (b"&&&", 1),
        (b"|", 1),
        (b"~", 1),
        (b"^", 1),
        (b"`", 1),
        (b"\\", 1),
        (b"\x00", 1),
        (b"\n\x7f", 2),
        (b"\x80", 1),
        (b"\xc3\xa9", 1),
        (b"a\xff", 1),
        (b"'abc\n\n", 1),
        (b"'a\\'", 1),
        (b"\"abc", 1),
        (b"\"a\\\"", 1),
        (b"\"a\\", 1),
        (b"\"$a", 1),
        (b"/*", 1),
        (b"/*/", 1),
        (b"/* *", 1),
        (b"\n/* \n\n", 2),
        (b"a / /* b", 1),
        (b"9223372036854775808", 1),
        (b"0x8000000000000000", 1),
        (b"\n18446744073709551616", 2),
        (b"0x10000000000000000", 1),
        (b"'\n'@", 2),
        (b"'\n\n' \"\n", 3),
        (b"a /* \n */ @ \n\n", 2),
        (b"//\n&", 2),
    ];
    for (text, line) in table {
        check_bad(&rt, alloc, text, line);
    }
}

/// So many bytes `a` between these.
fn long_text(rt: &impl Abort, alloc: Global, before: &[u8], count: usize, after: &[u8]) -> Vec<u8> {
    let mut text = Vec::from_slice(alloc, before).expect(rt, "memory");
    let middle = vec![in alloc; b'a'; count].expect(rt, "memory");
    put(rt, &mut text, middle.as_slice());
    put(rt, &mut text, after);
    text
}

#[test]
fn names_texts_and_parts_are_at_most_as_long_as_a_text(rt: HostRuntime) {
    let alloc = rt.alloc();
    let table: [(&[u8], usize, &[u8]); 2] = [(b"", 16_777_147, b""), (b"\"$a.", 16_777_146, b"\"")];
    for (before, most, after) in table {
        let longest = long_text(&rt, alloc, before, most, after);
        assert!(rt; longest.len() <= 0x100_0000);
        let tokens = lex(alloc, longest.as_slice()).expect(&rt, "tokens");
        assert_eq!(rt; tokens.len(), 2);
        let longer = long_text(&rt, alloc, before, most + 1, after);
        check_bad(&rt, alloc, longer.as_slice(), 1);
    }
}
