//! Scripts over a disk and a sink in memory: the input as one script, blocks, budgets, and calls that fail.
ghost use Rattle.std.specs.Prelude.{◌≤◌};

use crate::tests::{MOST, obey};
use crate::{Ended, Status, run_within};
use std::alloc::{AllocError, Global};
use std::process::Abort;
use std::test::Fail;
use uq_outside::{Disk, MemDisk, MemSink, MemSource, Source};

/// The longest script.
const LONGEST: usize = 1 << 24;

const SPENT: &[u8] = b"budget spent\n";

const FETCH: &[&str] = &["t.db", "fetch", "a"];

/// Runs words over a disk and an input, into a sink.
fn follow<D: Disk, I: Source>(
    alloc: Global,
    words: &[&str],
    disk: &mut D,
    input: &mut I,
    out: &mut MemSink,
    most: u64,
) -> Result<Ended, AllocError>
    requires { 1 ≤ most }
{
    let mut list = Vec::new(alloc);
    for word in words {
        list.push(word.to_string(alloc)?)?;
    }
    Ok(run_within(alloc, list.as_slice(), disk, input, out, most))
}

/// Whether these words, over empty files and this input, write and answer this: status, events, units.
fn check(
    rt: &impl Abort,
    alloc: Global,
    words: &[&str],
    input: &[u8],
    wanted: &[u8],
    wanted_end: (Status, u128, u128),
) -> Result<(), Fail> {
    let mut disk = MemDisk::new(alloc, b"", b"", &[])?;
    let mut source = MemSource::new(alloc, input, 4096, &[])?;
    let mut out = MemSink::new(alloc, &[])?;
    let end = follow(alloc, words, &mut disk, &mut source, &mut out, MOST)?;
    assert_eq!(rt; out.written(), wanted, "{words:?}");
    let (status, done, units) = wanted_end;
    assert_eq!(rt; end.status, status, "{words:?}");
    assert_eq!(rt; end.done, done, "{words:?}");
    assert_eq!(rt; end.meter.units(), units, "{words:?}");
    Ok(())
}

#[test]
fn an_input_that_is_one_script_puts_out_its_texts_or_says_why_not(
    rt: HostRuntime,
) -> Result<(), Fail> {
    let runs: [(&[u8], &[u8], (Status, u128, u128)); 18] = [
        (b"", b"", (Status::Done, 0, 0)),
        (
            b"print -7 / 2, ' ', -7 % 2;",
            b"-3 -1",
            (Status::Done, 3, 10),
        ),
        (
            b"print 9223372036854775807 + 1;",
            b"fault: overflow, line 1\n",
            (Status::Refused, 1, 4),
        ),
        (
            b"print 9223372036854775808;",
            b"lexical error, line 1\n",
            (Status::Refused, 1, 0),
        ),
        (b"print 1;", b"1", (Status::Done, 1, 2)),
        (
            b"$f = function($x){ return $x",
            b"syntax error, line 1\n",
            (Status::Refused, 1, 0),
        ),
        (
            b"$i = 0; while ($i < 3) { $i++; } print $i;",
            b"3",
            (Status::Done, 1, 27),
        ),
        (
            b"print 1, 1/0;",
            b"1\nfault: zero divisor, line 1\n",
            (Status::Refused, 2, 5),
        ),
        (
            b"print $a[0];",
            b"compile error: not built, line 1\n",
            (Status::Refused, 1, 0),
        ),
        (
            b"break;",
            b"compile error: break outside a loop, line 1\n",
            (Status::Refused, 1, 0),
        ),
        (
            b"print 'a';\n\n  @",
            b"lexical error, line 3\n",
            (Status::Refused, 1, 0),
        ),
        (
            b"print 1;\nprint 2 +;\n",
            b"syntax error, line 2\n",
            (Status::Refused, 1, 0),
        ),
        (
            b"if (1) {\n  continue;\n}\n",
            b"compile error: break outside a loop, line 2\n",
            (Status::Refused, 1, 0),
        ),
        (
            b"print 1;\nprint 'x' - 1;",
            b"1\nfault: not a number, line 2\n",
            (Status::Refused, 2, 6),
        ),
        // A text that ends with a line feed needs none before the reply.
        (
            b"print \"a\\n\"; print 1/0;",
            b"a\nfault: zero divisor, line 1\n",
            (Status::Refused, 2, 6),
        ),
        (b"print '';", b"", (Status::Done, 1, 2)),
        (b"return; print 1;", b"", (Status::Done, 0, 1)),
        (b"print 1 == '1', \"$x\";", b"true", (Status::Done, 2, 5)),
    ];
    for (text, wanted, end) in runs {
        check(&rt, rt.alloc(), &["t.db", "script"], text, wanted, end)?;
    }
    Ok(())
}

#[test]
fn a_script_needs_its_units_and_not_one_less(rt: HostRuntime) -> Result<(), Fail> {
    // The text, what it puts out, the events of that, and the budget that it needs and one less.
    let runs: [(&[u8], &[u8], u128, &str, &str, u128); 9] = [
        (b"print 1;", b"1", 1, "2", "1", 2),
        (
            b"$i = 0; while ($i < 3) { $i++; } print $i;",
            b"3",
            1,
            "27",
            "26",
            27,
        ),
        (b"{ print 1; }", b"1", 1, "3", "2", 3),
        (b"if (1) print 1; else print 2;", b"1", 1, "4", "3", 4),
        (b"print 1 + 2 * 3;", b"7", 1, "6", "5", 6),
        (b"$a = 5; print $a;", b"5", 1, "5", "4", 5),
        (b"print true ? 1 : 2;", b"1", 1, "4", "3", 4),
        (b"print 0 && 1;", b"false", 1, "3", "2", 3),
        (b"for ($i = 0; $i < 2; $i++) { }", b"", 0, "16", "15", 16),
    ];
    for (text, wanted, done, enough, less, units) in runs {
        let end = (Status::Done, done, units);
        check(
            &rt,
            rt.alloc(),
            &["--budget", enough, "t.db", "script"],
            text,
            wanted,
            end,
        )?;
        let end = (Status::Refused, 1, units.saturating_sub(1));
        check(
            &rt,
            rt.alloc(),
            &["--budget", less, "t.db", "script"],
            text,
            SPENT,
            end,
        )?;
    }
    check(
        &rt,
        rt.alloc(),
        &["--budget", "2", "t.db", "script"],
        b"print 1, 2;",
        b"1\nbudget spent\n",
        (Status::Refused, 2, 2),
    )
}

#[test]
fn blocks_go_up_to_a_line_that_is_a_dot(rt: HostRuntime) -> Result<(), Fail> {
    let runs: [(&[u8], &[u8], (Status, u128, u128)); 12] = [
        (b"script\nprint 1;\n.\n", b"1", (Status::Done, 1, 2)),
        (b"script\nprint 1;\n.", b"1", (Status::Done, 1, 2)),
        (b"script\r\nprint 1;\r\n.\r\n", b"1", (Status::Done, 1, 2)),
        (
            b"script\nprint 1;\n",
            b"unfinished script\n",
            (Status::Refused, 1, 0),
        ),
        (
            b"script\nprint 1;\n ..",
            b"unfinished script\n",
            (Status::Refused, 1, 0),
        ),
        (b"script", b"unfinished script\n", (Status::Refused, 1, 0)),
        (b"script\n.\nvalid\n", b"no\n", (Status::Done, 1, 0)),
        (
            b"script\n..\n .\n.\n",
            b"syntax error, line 1\n",
            (Status::Refused, 1, 0),
        ),
        (
            b"script a\nvalid",
            b"bad command\nno\n",
            (Status::Refused, 2, 0),
        ),
        (b" \"script\"\t\nprint 2;\n.\n", b"2", (Status::Done, 1, 2)),
        (
            b"script\nprint 'a';\n.\nscript\nprint 'b';\n.\nreset\n",
            b"ab\nok\n",
            (Status::Done, 3, 4),
        ),
        (
            b"script\n# store a 1\n.\nfetch a\n",
            b"not found\n",
            (Status::Refused, 1, 0),
        ),
    ];
    for (input, wanted, end) in runs {
        check(&rt, rt.alloc(), &["t.db"], input, wanted, end)?;
    }
    Ok(())
}

#[test]
fn only_a_script_that_was_run_and_failed_rolls_back(rt: HostRuntime) -> Result<(), Fail> {
    let runs: [(&[&str], &[u8], &[u8], (Status, u128, u128)); 7] = [
        (
            &["t.db"],
            b"store a 1\nscript\nprint 1;\n.\ncommit\nfetch a\n",
            b"ok\n1\nok\n\"1\"\n",
            (Status::Done, 5, 2),
        ),
        (
            &["t.db"],
            b"store a 1\nscript\nprint 1/0;\n.\nfetch a\n",
            b"ok\nfault: zero divisor, line 1\nnot found\n",
            (Status::Refused, 3, 4),
        ),
        (
            &["--budget", "1", "t.db"],
            b"store a 1\nscript\nprint 1;\n.\nfetch a\n",
            b"ok\nbudget spent\nnot found\n",
            (Status::Refused, 3, 1),
        ),
        (
            &["t.db"],
            b"store a 1\nscript\nprint $a[0];\n.\nfetch a\n",
            b"ok\ncompile error: not built, line 1\n\"1\"\n",
            (Status::Refused, 4, 0),
        ),
        (
            &["t.db"],
            b"store a 1\nscript\n@\n.\nfetch a\n",
            b"ok\nlexical error, line 1\n\"1\"\n",
            (Status::Refused, 4, 0),
        ),
        (
            &["t.db"],
            b"store a 1\ncommit\nstore a 2\nscript\nprint 1/0;\n.\nfetch a\n",
            b"ok\nok\nok\nfault: zero divisor, line 1\n\"1\"\n",
            (Status::Refused, 6, 4),
        ),
        // Each script has the whole budget.
        (
            &["--budget", "2", "t.db"],
            b"script\nprint 1;\n.\nscript\nprint 2;\n.\nscript\nprint 3;\n.\n",
            b"123",
            (Status::Done, 3, 6),
        ),
    ];
    for (words, input, wanted, end) in runs {
        check(&rt, rt.alloc(), words, input, wanted, end)?;
    }
    Ok(())
}

/// So many blanks between two texts.
fn blanks(alloc: Global, front: &[u8], count: usize, back: &[u8]) -> Result<Vec<u8>, AllocError> {
    let mut text = Vec::from_slice(alloc, front)?;
    for _ in 0..count {
        text.push(b' ')?;
    }
    text.extend_from_slice(back)?;
    Ok(text)
}

#[test]
fn a_script_of_one_byte_more_is_too_long(rt: HostRuntime) -> Result<(), Fail> {
    let done = (Status::Done, 1, 2);
    let refused = (Status::Refused, 1, 0);
    let whole = &["t.db", "script"];
    let text = blanks(rt.alloc(), b"print 1;", LONGEST - 8, b"")?;
    check(&rt, rt.alloc(), whole, text.as_slice(), b"1", done)?;
    let text = blanks(rt.alloc(), b"print 1;", LONGEST - 7, b"")?;
    check(
        &rt,
        rt.alloc(),
        whole,
        text.as_slice(),
        b"script too long\n",
        refused,
    )?;
    let text = blanks(rt.alloc(), b"script\nprint 1;", LONGEST - 9, b"\n.\n")?;
    check(&rt, rt.alloc(), &["t.db"], text.as_slice(), b"1", done)?;
    let text = blanks(
        rt.alloc(),
        b"script\nprint 1;",
        LONGEST - 8,
        b"\n.\nvalid\n",
    )?;
    let both = (Status::Refused, 2, 0);
    check(
        &rt,
        rt.alloc(),
        &["t.db"],
        text.as_slice(),
        b"script too long\nno\n",
        both,
    )
}

#[test]
fn only_so_many_bytes_are_read_of_a_block_and_of_a_script(rt: HostRuntime) -> Result<(), Fail> {
    // The words, the input, and the fewest bytes that have the script in them.
    let runs: [(&[&str], &[u8], u64); 2] = [
        (&["t.db"], b"script\nprint 1;\n.\n", 18),
        (&["t.db", "script"], b"print 1;", 9),
    ];
    for (words, input, whole) in runs {
        for most in 1..21u64 {
            let mut disk = MemDisk::new(rt.alloc(), b"", b"", &[])?;
            let mut source = MemSource::new(rt.alloc(), input, 3, &[])?;
            let mut out = MemSink::new(rt.alloc(), &[])?;
            let end = follow(rt.alloc(), words, &mut disk, &mut source, &mut out, most)?;
            let (wanted, status): (&[u8], Status) = if most < whole {
                (b"too much input\n", Status::TooMuchInput)
            } else if most <= input.len() as u64 {
                (b"1\ntoo much input\n", Status::TooMuchInput)
            } else {
                (b"1", Status::Done)
            };
            assert_eq!(rt; out.written(), wanted, "{most}");
            assert_eq!(rt; end.status, status, "{most}");
            assert_eq!(rt;
                end.meter.units(),
                if most < whole { 0 } else { 2 },
                "{most}"
            );
        }
    }
    Ok(())
}

/// Two scripts between commands: one is done, and the other fails.
const TWO: &[u8] =
    b"store a 1\nscript\nprint 'p';\n.\ncommit\nscript\nprint 'q', 1/0;\n.\nfetch a\n";

/// What their run puts out, piece by piece, and how many events are done before each piece.
const PIECES: [(&[u8], u128); 6] = [
    (b"ok\n", 0),
    (b"p", 1),
    (b"\nok\n", 3),
    (b"q", 4),
    (b"\nfault: zero divisor, line 1\n", 5),
    (b"\"1\"\n", 6),
];

/// What `fetch a` replies over a disk.
fn fetched(alloc: Global, disk: &mut MemDisk) -> Result<MemSink, Fail> {
    let mut found = MemSink::new(alloc, &[])?;
    obey(alloc, FETCH, disk, &mut found)?;
    Ok(found)
}

#[test]
fn a_sink_that_fails_in_a_print_or_a_reply_ends_the_run_there(rt: HostRuntime) -> Result<(), Fail> {
    for kept in 0..2usize {
        let mut put: u64 = 0;
        let mut before = Vec::new(rt.alloc());
        for (piece, done) in PIECES {
            put = put.saturating_add(1);
            let mut disk = MemDisk::new(rt.alloc(), b"", b"", &[])?;
            let mut source = MemSource::new(rt.alloc(), TWO, 5, &[])?;
            let mut out = MemSink::new(rt.alloc(), &[(put, kept)])?;
            let end = follow(
                rt.alloc(),
                &["t.db"],
                &mut disk,
                &mut source,
                &mut out,
                MOST,
            )?;
            let mut wanted = before.clone()?;
            wanted.extend_from_slice(piece.get(..kept).unwrap_or(piece))?;
            assert_eq!(rt; out.written(), wanted.as_slice(), "{put} {kept}");
            assert_eq!(rt; end.status, Status::Stream, "{put} {kept}");
            assert_eq!(rt; end.done, done, "{put} {kept}");
            let saved: &[u8] = if put < 3 { b"not found\n" } else { b"\"1\"\n" };
            let found = fetched(rt.alloc(), &mut disk)?;
            assert_eq!(rt; found.written(), saved, "{put} {kept}");
            before.extend_from_slice(piece)?;
        }
    }
    Ok(())
}

#[test]
fn a_source_that_fails_ends_the_run_behind_the_last_command_or_block(
    rt: HostRuntime,
) -> Result<(), Fail> {
    for take in 1..72u64 {
        let mut disk = MemDisk::new(rt.alloc(), b"", b"", &[])?;
        let mut source = MemSource::new(rt.alloc(), TWO, 1, &[take])?;
        let mut out = MemSink::new(rt.alloc(), &[])?;
        let end = follow(
            rt.alloc(),
            &["t.db"],
            &mut disk,
            &mut source,
            &mut out,
            MOST,
        )?;
        let (wanted, done): (&[u8], u128) = match take {
            0..=10 => (b"input failed\n", 0),
            11..=30 => (b"ok\ninput failed\n", 1),
            31..=37 => (b"ok\np\ninput failed\n", 2),
            38..=62 => (b"ok\np\nok\ninput failed\n", 4),
            63..=70 => (
                b"ok\np\nok\nq\nfault: zero divisor, line 1\ninput failed\n",
                6,
            ),
            _ => (
                b"ok\np\nok\nq\nfault: zero divisor, line 1\n\"1\"\ninput failed\n",
                7,
            ),
        };
        assert_eq!(rt; out.written(), wanted, "{take}");
        assert_eq!(rt; end.status, Status::Stream, "{take}");
        assert_eq!(rt; end.done, done, "{take}");
        let saved: &[u8] = if take <= 37 {
            b"not found\n"
        } else {
            b"\"1\"\n"
        };
        let found = fetched(rt.alloc(), &mut disk)?;
        assert_eq!(rt; found.written(), saved, "{take}");
    }
    Ok(())
}

#[test]
fn a_source_that_fails_within_a_script_runs_nothing(rt: HostRuntime) -> Result<(), Fail> {
    for take in 1..10u64 {
        let mut disk = MemDisk::new(rt.alloc(), b"", b"", &[])?;
        let mut source = MemSource::new(rt.alloc(), b"print 1;", 1, &[take])?;
        let mut out = MemSink::new(rt.alloc(), &[])?;
        let end = follow(
            rt.alloc(),
            &["t.db", "script"],
            &mut disk,
            &mut source,
            &mut out,
            MOST,
        )?;
        assert_eq!(rt; out.written(), b"input failed\n".as_slice(), "{take}");
        assert_eq!(rt; end.status, Status::Stream, "{take}");
        assert_eq!(rt; end.done, 0, "{take}");
    }
    Ok(())
}
