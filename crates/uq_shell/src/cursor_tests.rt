//! Runs of commands beside the one cursor. The walk over `a`, `b` and `c` is `b`, `a`, `c`.
use crate::Status;
use crate::tests::{End, FAILED, MOST, ended, follow, obey, stored};
use std::alloc::Global;
use std::process::Abort;
use std::test::Fail;
use uq_outside::{MemDisk, MemSink, MemSource, SureSource};

/// Whether these lines, over empty files and in pieces of every kind, get these replies.
fn check(
    rt: &impl Abort,
    alloc: Global,
    input: &[u8],
    wanted: &[u8],
    wanted_end: End,
) -> Result<(), Fail> {
    for more in [0usize, 6, 999] {
        let piece = more.saturating_add(1);
        let mut disk = MemDisk::new(alloc, b"", b"", &[])?;
        let mut source = MemSource::new(alloc, input, piece, &[])?;
        let mut out = MemSink::new(alloc, &[])?;
        let end = follow(alloc, &["t.db"], &mut disk, &mut source, &mut out, MOST)?;
        assert_eq!(rt; out.written(), wanted);
        assert!(rt; end == wanted_end, "{end:?}");
    }
    Ok(())
}

#[test]
fn a_walk_goes_on_behind_a_key_that_is_dropped(rt: HostRuntime) -> Result<(), Fail> {
    let runs: [(&[u8], &[u8], End); 5] = [
        (
            b"store a 1\nstore b 2\nstore c 3\nfirst\ndrop\nnext\ndata\nnext\nnext\n",
            b"ok\nok\nok\n\"b\"\nok\n\"a\"\n\"1\"\n\"c\"\nno entry\n",
            ended(Status::Refused, 10),
        ),
        (
            b"store a 1\nstore b 2\nstore c 3\nfirst\ndrop\nnext\nkey\nnext\n",
            b"ok\nok\nok\n\"b\"\nok\n\"a\"\n\"a\"\n\"c\"\n",
            ended(Status::Done, 9),
        ),
        (
            b"store a 1\nstore b 2\nstore c 3\nfirst\ndrop\nnext\nkey\nnext\nnext\n",
            b"ok\nok\nok\n\"b\"\nok\n\"a\"\n\"a\"\n\"c\"\nno entry\n",
            ended(Status::Refused, 10),
        ),
        (
            b"store a 1\nstore b 2\nstore c 3\nlast\nprev\nprev\nprev\nprev\nvalid",
            b"ok\nok\nok\n\"c\"\n\"a\"\n\"b\"\nno entry\nno entry\nno\n",
            ended(Status::Refused, 10),
        ),
        (
            b"store a 1\nseek a\ndrop\nvalid\nkey\ndata\ndrop\nstore a 2\nvalid\ndata\nkey\n",
            b"ok\n\"a\"\nok\nno\nno entry\nno entry\nno entry\nok\nyes\n\"2\"\n\"a\"\n",
            ended(Status::Refused, 12),
        ),
    ];
    for (input, wanted, wanted_end) in runs {
        check(&rt, rt.alloc(), input, wanted, wanted_end)?;
    }
    Ok(())
}

#[test]
fn a_cursor_that_is_unset_is_at_no_entry(rt: HostRuntime) -> Result<(), Fail> {
    let runs: [(&[u8], &[u8], End); 6] = [
        (
            b"next\nprev\nkey\ndata\ndrop\nvalid\nreset\nfirst\nlast\n",
            b"no entry\nno entry\nno entry\nno entry\nno entry\nno\nok\nno entry\nno entry\n",
            ended(Status::Refused, 9),
        ),
        (
            b"store a 1\nfirst\nvalid\nreset\nvalid\nnext\nkey\n",
            b"ok\n\"a\"\nyes\nok\nno\nno entry\nno entry\n",
            ended(Status::Refused, 8),
        ),
        (
            b"store a 1\nfirst\nnext\nvalid\nprev\n",
            b"ok\n\"a\"\nno entry\nno\nno entry\n",
            ended(Status::Refused, 6),
        ),
        (
            b"store a 1\nseek a\nseek \"\"\nvalid\n",
            b"ok\n\"a\"\nempty key\nno\n",
            ended(Status::Refused, 5),
        ),
        (
            b"store a 1\nseek a\nseek b\nvalid\nkey\n",
            b"ok\n\"a\"\nnot found\nno\nno entry\n",
            ended(Status::Refused, 6),
        ),
        (
            b"first a\nlast a\nnext a\nprev a\nkey a\ndata a\ndrop a\nvalid a\nreset a\nseek\nseek a b\n",
            b"bad command\nbad command\nbad command\nbad command\nbad command\nbad command\nbad command\nbad command\nbad command\nbad command\nbad command\n",
            ended(Status::Refused, 11),
        ),
    ];
    for (input, wanted, wanted_end) in runs {
        check(&rt, rt.alloc(), input, wanted, wanted_end)?;
    }
    Ok(())
}

#[test]
fn a_cursor_is_at_a_key_whatever_happens_to_the_data(rt: HostRuntime) -> Result<(), Fail> {
    let runs: [(&[u8], &[u8], End); 5] = [
        (
            b"store a 1\nseek a\nappend a 2\ndata\nkey\nvalid\nreset\n",
            b"ok\n\"a\"\nok\n\"12\"\n\"a\"\nyes\nok\n",
            ended(Status::Done, 8),
        ),
        (
            b"store a 1\ncommit\nseek a\ndrop\nrollback\nvalid\ndata\n",
            b"ok\nok\n\"a\"\nok\nok\nyes\n\"1\"\n",
            ended(Status::Done, 8),
        ),
        (
            b"store a 1\nseek a\nrollback\nvalid\nnext\n",
            b"ok\n\"a\"\nok\nno\nno entry\n",
            ended(Status::Refused, 5),
        ),
        (
            b"store a 1\ncommit\nfirst\ndrop\ncommit\nvalid\nfirst\n",
            b"ok\nok\n\"a\"\nok\nok\nno\nno entry\n",
            ended(Status::Refused, 9),
        ),
        (
            b"store \"a \\\"\\n\" \"\\t\"\nlast\nkey\ndata\nseek \"a \\\"\\n\"\n",
            b"ok\n\"a \\\"\\n\"\n\"a \\\"\\n\"\n\"\\t\"\n\"a \\\"\\n\"\n",
            ended(Status::Done, 6),
        ),
    ];
    for (input, wanted, wanted_end) in runs {
        check(&rt, rt.alloc(), input, wanted, wanted_end)?;
    }
    Ok(())
}

#[test]
fn each_run_has_a_cursor_of_its_own(rt: HostRuntime) -> Result<(), Fail> {
    let mut disk = stored(rt.alloc())?;
    let runs: [(&[&str], &[u8], End); 6] = [
        (&["t.db", "first"], b"\"a\"\n", ended(Status::Done, 1)),
        (&["t.db", "valid"], b"no\n", ended(Status::Done, 1)),
        (&["t.db", "next"], b"no entry\n", ended(Status::Refused, 1)),
        (&["t.db", "seek", "a"], b"\"a\"\n", ended(Status::Done, 1)),
        (&["t.db", "drop"], b"no entry\n", ended(Status::Refused, 1)),
        (&["t.db", "reset"], b"ok\n", ended(Status::Done, 1)),
    ];
    for (words, wanted, wanted_end) in runs {
        let mut out = MemSink::new(rt.alloc(), &[])?;
        let end = obey(rt.alloc(), words, &mut disk, &mut out)?;
        assert_eq!(rt; out.written(), wanted, "{words:?}");
        assert_eq!(rt; end, wanted_end, "{words:?}");
    }
    Ok(())
}

#[test]
fn a_key_above_the_limit_is_not_sought(rt: HostRuntime) -> Result<(), Fail> {
    let mut disk = stored(rt.alloc())?;
    let key = "k".repeat(rt.alloc(), 1025)?;
    let mut out = MemSink::new(rt.alloc(), &[])?;
    let end = obey(
        rt.alloc(),
        &["t.db", "seek", key.as_str()],
        &mut disk,
        &mut out,
    )?;
    assert_eq!(rt; out.written(), b"key too long\n".as_slice());
    assert_eq!(rt; end, ended(Status::Refused, 1));
    Ok(())
}

/// A walk that drops an entry, and commits.
const WALK: &[u8] = b"store a 1\nstore b 2\ncommit\nfirst\ndata\ndrop\nnext\ncommit\nprev\nvalid\n";

/// What it puts out.
const WALKED: &[u8] = b"ok\nok\nok\n\"b\"\n\"2\"\nok\n\"a\"\nok\nno entry\nno\n";

#[test]
fn a_disk_that_fails_in_a_walk_cuts_it_short(rt: HostRuntime) -> Result<(), Fail> {
    let mut cuts: u64 = 0;
    for call in 1..40 {
        let mut disk = MemDisk::new(rt.alloc(), b"", b"", &[call])?;
        let mut out = MemSink::new(rt.alloc(), &[])?;
        let mut source = SureSource::new(WALK);
        let end = follow(
            rt.alloc(),
            &["t.db"],
            &mut disk,
            &mut source,
            &mut out,
            MOST,
        )?;
        if end.status == Status::Disk {
            let replies = out.written().strip_suffix(FAILED).unwrap_or(b"?");
            assert!(rt; WALKED.starts_with(replies), "{call}");
            cuts = cuts.saturating_add(1);
        } else {
            assert_eq!(rt; out.written(), WALKED, "{call}");
            assert_eq!(rt; end, ended(Status::Refused, 12), "{call}");
        }
    }
    assert!(rt; cuts > 10, "{cuts}");
    Ok(())
}
