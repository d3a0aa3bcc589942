//! Runs over a disk and a sink in memory: replies, calls that fail, and stops at every moment.
ghost use Rattle.std.specs.Prelude.{◌≤◌};

use crate::{Status, run, run_within};
use std::alloc::{AllocError, Global};
use std::fs;
use std::process::Abort;
use std::test::Fail;
use uq_outside::{Disk, FileDisk, FileNo, Image, MemDisk, MemSink, MemSource, Source, SureSource};

/// The length of a page, and of a main file.
const PAGE: usize = 4096;

const TWO_PAGES: usize = 2 * PAGE;

/// More than the calls of the disk in any run here.
const MANY_CALLS: u64 = 64;

const NOT_FOUND: &[u8] = b"not found\n";

pub const FAILED: &[u8] = b"disk failed\n";

/// How a run ended, without the units of its scripts.
#[derive(Clone, Copy, Debug, PartialEq, Eq)]
pub struct End {
    pub status: Status,
    pub done: u128,
}

/// Runs words over a disk, into a sink, with no input.
pub fn obey<D: Disk>(
    alloc: Global,
    words: &[&str],
    disk: &mut D,
    out: &mut MemSink,
) -> Result<End, AllocError> {
    let mut list = Vec::new(alloc);
    for word in words {
        list.push(word.to_string(alloc)?)?;
    }
    let ended = run(alloc, list.as_slice(), disk, &mut SureSource::new(b""), out);
    Ok(End {
        status: ended.status,
        done: ended.done,
    })
}

const STORE: &[&str] = &["t.db", "store", "a", "1"];

const FETCH: &[&str] = &["t.db", "fetch", "a"];

/// A disk that holds `a`, as the first store leaves it.
pub fn stored(alloc: Global) -> Result<MemDisk, Fail> {
    let mut disk = MemDisk::new(alloc, b"", b"", &[])?;
    obey(alloc, STORE, &mut disk, &mut MemSink::new(alloc, &[])?)?;
    Ok(disk)
}

pub fn ended(status: Status, done: u128) -> End {
    End { status, done }
}

#[test]
fn a_stored_key_is_fetched_as_a_json_string(rt: HostRuntime) -> Result<(), Fail> {
    let mut disk = MemDisk::new(rt.alloc(), b"", b"", &[])?;
    let runs: [(&[&str], &[u8], End); 19] = [
        (
            &["t.db", "fetch", "b"],
            NOT_FOUND,
            ended(Status::Refused, 1),
        ),
        (STORE, b"ok\n", ended(Status::Done, 2)),
        (FETCH, b"\"1\"\n", ended(Status::Done, 1)),
        (
            &["t.db", "store", "b", "x\"\\\u{1}\n\u{e9}"],
            b"ok\n",
            ended(Status::Done, 2),
        ),
        (
            &["t.db", "fetch", "b"],
            b"\"x\\\"\\\\\\u0001\\n\xc3\xa9\"\n",
            ended(Status::Done, 1),
        ),
        (&["t.db", "store", "a", ""], b"ok\n", ended(Status::Done, 2)),
        (FETCH, b"\"\"\n", ended(Status::Done, 1)),
        (&["t.db", "begin"], b"ok\n", ended(Status::Done, 2)),
        (&["t.db", "commit"], b"ok\n", ended(Status::Done, 1)),
        (&["t.db", "rollback"], b"ok\n", ended(Status::Done, 1)),
        (FETCH, b"\"\"\n", ended(Status::Done, 1)),
        (
            &["t.db", "store", "", "1"],
            b"empty key\n",
            ended(Status::Refused, 1),
        ),
        (
            &["t.db", "fetch", ""],
            b"empty key\n",
            ended(Status::Refused, 1),
        ),
        (
            &["t.db", "fetch"],
            b"bad command\n",
            ended(Status::Refused, 1),
        ),
        (
            &["t.db", "store", "a"],
            b"bad command\n",
            ended(Status::Refused, 1),
        ),
        (
            &["t.db", "begin", "a"],
            b"bad command\n",
            ended(Status::Refused, 1),
        ),
        (
            &["t.db", "drops"],
            b"unknown command\n",
            ended(Status::Refused, 1),
        ),
        (
            &["t.db", "Store", "a", "1"],
            b"unknown command\n",
            ended(Status::Refused, 1),
        ),
        (
            &["--budget", "0", "t.db"],
            b"usage: unqlite [--budget N] [--max-entries N] [--max-bytes N] DB [COMMAND [WORD ...]]\n",
            ended(Status::Usage, 0),
        ),
    ];
    for (words, bytes, want) in runs {
        let mut out = MemSink::new(rt.alloc(), &[])?;
        let end = obey(rt.alloc(), words, &mut disk, &mut out)?;
        assert_eq!(rt; out.written(), bytes, "{words:?}");
        assert_eq!(rt; end, want, "{words:?}");
    }
    Ok(())
}

#[test]
fn the_longest_key_is_stored_with_long_data(rt: HostRuntime) -> Result<(), Fail> {
    let mut disk = MemDisk::new(rt.alloc(), b"", b"", &[])?;
    let key = "k".repeat(rt.alloc(), 1024)?;
    let data = "d".repeat(rt.alloc(), 70_000)?;
    let mut out = MemSink::new(rt.alloc(), &[])?;
    obey(
        rt.alloc(),
        &["t.db", "store", key.as_str(), data.as_str()],
        &mut disk,
        &mut out,
    )?;
    assert_eq!(rt; out.written(), "ok\n".as_bytes());
    let mut out = MemSink::new(rt.alloc(), &[])?;
    let end = obey(
        rt.alloc(),
        &["t.db", "fetch", key.as_str()],
        &mut disk,
        &mut out,
    )?;
    assert_eq!(rt; end, ended(Status::Done, 1));
    let quoted = format!(in rt.alloc(); "\"{data}\"\n")?;
    assert_eq!(rt; out.written(), quoted.as_bytes());
    Ok(())
}

#[test]
fn a_key_of_one_byte_more_is_refused(rt: HostRuntime) -> Result<(), Fail> {
    let mut disk = MemDisk::new(rt.alloc(), b"", b"", &[])?;
    let key = "k".repeat(rt.alloc(), 1025)?;
    let mut out = MemSink::new(rt.alloc(), &[])?;
    let end = obey(
        rt.alloc(),
        &["t.db", "store", key.as_str(), "1"],
        &mut disk,
        &mut out,
    )?;
    assert_eq!(rt; out.written(), "key too long\n".as_bytes());
    assert_eq!(rt; end, ended(Status::Refused, 1));
    let mut out = MemSink::new(rt.alloc(), &[])?;
    let end = obey(
        rt.alloc(),
        &["t.db", "fetch", key.as_str()],
        &mut disk,
        &mut out,
    )?;
    assert_eq!(rt; out.written(), "key too long\n".as_bytes());
    assert_eq!(rt; end, ended(Status::Refused, 1));
    Ok(())
}

#[test]
fn a_store_leaves_a_journal_of_ten_zero_bytes_and_a_rollback_leaves_no_page(
    rt: HostRuntime,
) -> Result<(), Fail> {
    let disk = stored(rt.alloc())?;
    assert_eq!(rt; disk.file(FileNo::Journal), [0; 10].as_slice());
    assert_eq!(rt; disk.file(FileNo::Main).len(), TWO_PAGES);
    let mut disk = MemDisk::new(rt.alloc(), b"", b"", &[])?;
    let mut out = MemSink::new(rt.alloc(), &[])?;
    let end = obey(rt.alloc(), &["t.db", "rollback"], &mut disk, &mut out)?;
    assert_eq!(rt; end, ended(Status::Done, 1));
    assert_eq!(rt; disk.file(FileNo::Main), b"".as_slice());
    Ok(())
}

/// A command over a start, and what the rules say of it.
#[derive(Clone, Copy)]
struct Case<'a> {
    words: &'a [&'a str],
    /// The main file and the journal at its start.
    main: &'a [u8],
    journal: &'a [u8],
    /// What `fetch a` replies before it.
    before: &'a [u8],
    reply: &'a [u8],
    status: Status,
    /// What `fetch a` replies behind the commit at its end, where there is one.
    after: Option<&'a [u8]>,
}

impl<'a> Case<'a> {
    /// The events of its whole run: the reply, and the commit.
    fn events(&self) -> u128 {
        if self.after.is_some() { 2 } else { 1 }
    }

    /// Whether a stop may leave this, where so many events are done: what was there before, or what the commit left
    /// where it is done or under way. At the end of the run a commit that is done has left it for good.
    fn allows(&self, found: &[u8], done: u128, is_over: bool) -> bool {
        if found == self.before {
            return !(is_over && done == 2) || self.after == Some(self.before);
        }
        done >= 1 && self.after == Some(found)
    }
}

/// What `fetch a` replies over an image.
fn fetched(alloc: Global, image: &Image) -> Result<MemSink, Fail> {
    let mut disk = MemDisk::new(alloc, image.main(), image.journal(), &[])?;
    let mut out = MemSink::new(alloc, &[])?;
    obey(alloc, FETCH, &mut disk, &mut out)?;
    Ok(out)
}

/// How many images there are of a run that has ended so, each of which reopens as the rules allow.
fn count_stops(
    rt: &impl Abort,
    alloc: Global,
    case: &Case<'_>,
    disk: &MemDisk,
    end: End,
) -> Result<u64, Fail> {
    let mut images: u64 = 0;
    for choice in 0..5u8 {
        let mut last: Option<Image> = None;
        for moment in 0..=disk.calls() {
            if moment > disk.calls() {
                return Ok(images);
            }
            let image = disk.image(moment, choice)?;
            let is_over = moment == disk.calls();
            // One like that of the moment before was reopened already.
            let is_known = match &last {
                Some(last) => last.main() == image.main() && last.journal() == image.journal(),
                None => false,
            };
            if is_over || !is_known {
                let found = fetched(alloc, &image)?;
                let words = case.words;
                assert!(rt;
                    case.allows(found.written(), end.done, is_over),
                    "{words:?} {moment} {choice}"
                );
            }
            images = images.saturating_add(1);
            last = Some(image);
        }
    }
    Ok(images)
}

/// The commands over an empty file, or over one that holds `a`.
fn cases<'a>(main: &'a [u8], journal: &'a [u8], before: &'a [u8]) -> [Case<'a>; 6] {
    let status = if before == NOT_FOUND {
        Status::Refused
    } else {
        Status::Done
    };
    let case = Case {
        words: FETCH,
        main,
        journal,
        before,
        reply: before,
        status,
        after: None,
    };
    let done = Case {
        reply: b"ok\n",
        status: Status::Done,
        ..case
    };
    [
        case,
        Case {
            words: STORE,
            after: Some(b"\"1\"\n"),
            ..done
        },
        Case {
            words: &["t.db", "store", "a", "2"],
            after: Some(b"\"2\"\n"),
            ..done
        },
        Case {
            words: &["t.db", "begin"],
            after: Some(before),
            ..done
        },
        Case {
            words: &["t.db", "commit"],
            ..done
        },
        Case {
            words: &["t.db", "rollback"],
            ..done
        },
    ]
}

/// The calls of the disk in a run of this case in which none fails.
fn count_calls(rt: &impl Abort, alloc: Global, case: &Case<'_>) -> Result<u64, Fail> {
    let mut disk = MemDisk::new(alloc, case.main, case.journal, &[])?;
    let mut out = MemSink::new(alloc, &[])?;
    let end = obey(alloc, case.words, &mut disk, &mut out)?;
    let words = case.words;
    assert_eq!(rt; end, ended(case.status, case.events()), "{words:?}");
    assert_eq!(rt; out.written(), case.reply, "{words:?}");
    count_stops(rt, alloc, case, &disk, end)?;
    Ok(disk.calls())
}

/// A run whose disk fails in this call, and in all later ones or in none of them. Answers the number of images.
fn check_failing_call(
    rt: &impl Abort,
    alloc: Global,
    case: &Case<'_>,
    call: u64,
    goes_on: bool,
) -> Result<u64, Fail> {
    let mut fails = Vec::new(alloc);
    fails.push(call)?;
    if goes_on {
        for later in 1..MANY_CALLS {
            fails.push(call.saturating_add(later))?;
        }
    }
    let mut disk = MemDisk::new(alloc, case.main, case.journal, &fails)?;
    let mut out = MemSink::new(alloc, &[])?;
    let end = obey(alloc, case.words, &mut disk, &mut out)?;
    let words = case.words;
    assert_eq!(rt; end.status, Status::Disk, "{words:?} {call}");
    assert!(rt; end.done < case.events(), "{words:?} {call}");
    let mut bytes = Vec::new(alloc);
    if end.done == 1 {
        bytes.extend_from_slice(case.reply)?;
    }
    bytes.extend_from_slice(FAILED)?;
    assert_eq!(rt; out.written(), bytes.as_slice(), "{words:?} {call}");
    count_stops(rt, alloc, case, &disk, end)
}

/// How many images there are of the runs of these cases in which a call fails, each in turn.
fn count_failing(
    rt: &impl Abort,
    alloc: Global,
    cases: &[Case<'_>],
    goes_on: bool,
) -> Result<u64, Fail> {
    let mut images: u64 = 0;
    for case in cases {
        let calls = count_calls(rt, alloc, case)?;
        for call in 1..=calls {
            let more = check_failing_call(rt, alloc, case, call, goes_on)?;
            images = images.saturating_add(more);
        }
    }
    Ok(images)
}

#[test]
fn a_call_that_fails_over_an_empty_file_leaves_what_was_saved_or_the_commit_under_way(
    rt: HostRuntime,
) -> Result<(), Fail> {
    let cases = cases(b"", b"", NOT_FOUND);
    let images = count_failing(&rt, rt.alloc(), &cases, false)?;
    assert!(rt; images > 1000, "{images}");
    Ok(())
}

#[test]
fn calls_that_fail_from_one_on_over_an_empty_file_leave_what_was_saved_or_the_commit_under_way(
    rt: HostRuntime,
) -> Result<(), Fail> {
    let cases = cases(b"", b"", NOT_FOUND);
    let images = count_failing(&rt, rt.alloc(), &cases, true)?;
    assert!(rt; images > 1000, "{images}");
    Ok(())
}

#[test]
fn a_call_that_fails_in_a_store_of_the_same(rt: HostRuntime) -> Result<(), Fail> {
    let whole = stored(rt.alloc())?;
    let cases = cases(
        whole.file(FileNo::Main),
        whole.file(FileNo::Journal),
        b"\"1\"\n",
    );
    let images = count_failing(&rt, rt.alloc(), &cases[1..2], false)?;
    assert!(rt; images > 500, "{images}");
    Ok(())
}

#[test]
fn a_call_that_fails_in_a_store_of_other_data(rt: HostRuntime) -> Result<(), Fail> {
    let whole = stored(rt.alloc())?;
    let cases = cases(
        whole.file(FileNo::Main),
        whole.file(FileNo::Journal),
        b"\"1\"\n",
    );
    let images = count_failing(&rt, rt.alloc(), &cases[2..3], false)?;
    assert!(rt; images > 500, "{images}");
    Ok(())
}

#[test]
fn a_call_that_fails_in_begin_commit_and_rollback(rt: HostRuntime) -> Result<(), Fail> {
    let whole = stored(rt.alloc())?;
    let cases = cases(
        whole.file(FileNo::Main),
        whole.file(FileNo::Journal),
        b"\"1\"\n",
    );
    let images = count_failing(&rt, rt.alloc(), &cases[3..], false)?;
    assert!(rt; images > 500, "{images}");
    Ok(())
}

#[test]
fn calls_that_fail_from_one_on_in_a_store_of_the_same(rt: HostRuntime) -> Result<(), Fail> {
    let whole = stored(rt.alloc())?;
    let cases = cases(
        whole.file(FileNo::Main),
        whole.file(FileNo::Journal),
        b"\"1\"\n",
    );
    let images = count_failing(&rt, rt.alloc(), &cases[1..2], true)?;
    assert!(rt; images > 500, "{images}");
    Ok(())
}

#[test]
fn calls_that_fail_from_one_on_in_a_store_of_other_data(rt: HostRuntime) -> Result<(), Fail> {
    let whole = stored(rt.alloc())?;
    let cases = cases(
        whole.file(FileNo::Main),
        whole.file(FileNo::Journal),
        b"\"1\"\n",
    );
    let images = count_failing(&rt, rt.alloc(), &cases[2..3], true)?;
    assert!(rt; images > 500, "{images}");
    Ok(())
}

#[test]
fn calls_that_fail_from_one_on_in_begin_commit_and_rollback(rt: HostRuntime) -> Result<(), Fail> {
    let whole = stored(rt.alloc())?;
    let cases = cases(
        whole.file(FileNo::Main),
        whole.file(FileNo::Journal),
        b"\"1\"\n",
    );
    let images = count_failing(&rt, rt.alloc(), &cases[3..], true)?;
    assert!(rt; images > 500, "{images}");
    Ok(())
}

#[test]
fn a_call_that_fails_in_a_fetch(rt: HostRuntime) -> Result<(), Fail> {
    let whole = stored(rt.alloc())?;
    let cases = cases(
        whole.file(FileNo::Main),
        whole.file(FileNo::Journal),
        b"\"1\"\n",
    );
    let images = count_failing(&rt, rt.alloc(), &cases[..1], false)?;
    assert!(rt; images > 100, "{images}");
    Ok(())
}

/// A run over a sink that fails in this put behind so many bytes of it.
fn check_failing_put(
    rt: &impl Abort,
    alloc: Global,
    case: &Case<'_>,
    put: (u64, usize),
    fails: &[u64],
    want: End,
    bytes: &[u8],
) -> Result<(), Fail> {
    let mut disk = MemDisk::new(alloc, case.main, case.journal, fails)?;
    let mut out = MemSink::new(alloc, &[put])?;
    let end = obey(alloc, case.words, &mut disk, &mut out)?;
    let words = case.words;
    assert_eq!(rt; end, want, "{words:?} {put:?}");
    assert_eq!(rt; out.written(), bytes, "{words:?} {put:?}");
    count_stops(rt, alloc, case, &disk, end)?;
    Ok(())
}

#[test]
fn a_sink_that_fails_in_a_reply_stores_nothing(rt: HostRuntime) -> Result<(), Fail> {
    let whole = stored(rt.alloc())?;
    let empty = cases(b"", b"", NOT_FOUND);
    let held = cases(
        whole.file(FileNo::Main),
        whole.file(FileNo::Journal),
        b"\"1\"\n",
    );
    for case in empty.iter().chain(held.iter()) {
        for kept in 0..=NOT_FOUND.len() {
            if case.reply.len() < kept {
                break;
            }
            let want = ended(Status::Stream, 0);
            check_failing_put(
                &rt,
                rt.alloc(),
                case,
                (1, kept),
                &[],
                want,
                &case.reply[..kept],
            )?;
        }
    }
    Ok(())
}

#[test]
fn a_commit_that_fails_keeps_its_status_where_its_line_is_cut(rt: HostRuntime) -> Result<(), Fail> {
    let whole = stored(rt.alloc())?;
    let empty = cases(b"", b"", NOT_FOUND);
    let held = cases(
        whole.file(FileNo::Main),
        whole.file(FileNo::Journal),
        b"\"1\"\n",
    );
    for case in [empty[1], held[2]] {
        // The write that closes the gate is the last call but one.
        let calls = count_calls(&rt, rt.alloc(), &case)?;
        let fails = [calls.saturating_sub(1)];
        for kept in 0..=FAILED.len() {
            // Each run reopens its images, so a few lengths will do.
            if kept % 4 != 0 {
                continue;
            }
            let mut bytes = Vec::from_slice(rt.alloc(), case.reply)?;
            bytes.extend_from_slice(&FAILED[..kept])?;
            let want = ended(Status::Disk, 1);
            check_failing_put(&rt, rt.alloc(), &case, (2, kept), &fails, want, &bytes)?;
        }
    }
    Ok(())
}

#[test]
fn an_ending_line_that_is_cut_keeps_its_status(rt: HostRuntime) -> Result<(), Fail> {
    let whole = stored(rt.alloc())?;
    let (full, journal) = (whole.file(FileNo::Main), whole.file(FileNo::Journal));
    let zeros = [0; PAGE];
    // The words, the main file, the disk's call that fails, the bytes that are put, and the status.
    let runs: [(&[&str], &[u8], u64, &[u8], Status); 7] = [
        (&[], full, 0, b"", Status::Usage),
        (&[""], full, 0, b"usage", Status::Usage),
        (STORE, full, 1, b"", Status::Disk),
        (STORE, full, 1, b"d", Status::Disk),
        (FETCH, full, 5, b"disk", Status::Disk),
        (STORE, &zeros, 0, b"", Status::NotDatabase),
        (STORE, &zeros, 0, b"n", Status::NotDatabase),
    ];
    for (words, main, call, bytes, status) in runs {
        let mut disk = MemDisk::new(rt.alloc(), main, journal, &[call])?;
        let mut out = MemSink::new(rt.alloc(), &[(1, bytes.len())])?;
        let end = obey(rt.alloc(), words, &mut disk, &mut out)?;
        assert_eq!(rt; end, ended(status, 0), "{words:?}");
        assert_eq!(rt; out.written(), bytes, "{words:?}");
        assert_eq!(rt; disk.file(FileNo::Main), main, "{words:?}");
    }
    Ok(())
}

#[test]
fn other_files_are_no_database_and_stay(rt: HostRuntime) -> Result<(), Fail> {
    let zeros = [0; TWO_PAGES];
    // The main file, and a journal: none, a closed gate, and an open one without its batch.
    let files: [(&[u8], &[u8]); 5] = [
        (&zeros[..PAGE], b""),
        (&zeros, b"\0"),
        (b"UQ jx9 database\n", b""),
        (b"", b"\xa5\0"),
        (&zeros, b"\xa5\0"),
    ];
    for (main, journal) in files {
        for words in [FETCH, STORE] {
            let mut disk = MemDisk::new(rt.alloc(), main, journal, &[])?;
            let mut out = MemSink::new(rt.alloc(), &[])?;
            let end = obey(rt.alloc(), words, &mut disk, &mut out)?;
            assert_eq!(rt; out.written(), b"not a database\n".as_slice());
            assert_eq!(rt; end, ended(Status::NotDatabase, 0));
            assert_eq!(rt; disk.file(FileNo::Main), main);
        }
    }
    Ok(())
}

#[test]
fn a_fetch_over_a_closed_gate_changes_no_byte(rt: HostRuntime) -> Result<(), Fail> {
    let whole = stored(rt.alloc())?;
    let main = whole.file(FileNo::Main);
    let mut disk = MemDisk::new(rt.alloc(), main, b"\0", &[])?;
    let mut out = MemSink::new(rt.alloc(), &[])?;
    obey(rt.alloc(), FETCH, &mut disk, &mut out)?;
    assert_eq!(rt; out.written(), b"\"1\"\n".as_slice());
    for moment in 0..=disk.calls() {
        for choice in 0..5u8 {
            if moment <= disk.calls() {
                let image = disk.image(moment, choice)?;
                assert_eq!(rt; image.main(), main, "{moment} {choice}");
                assert_eq!(rt; image.journal(), b"\0".as_slice(), "{moment} {choice}");
            }
        }
    }
    Ok(())
}

#[test]
fn the_first_word_names_the_files(rt: HostRuntime) -> Result<(), Fail> {
    let _ = fs::remove_dir_all(&rt, "uq_shell_test");
    fs::create_dir(&rt, "uq_shell_test")?;
    let runs: [(&[&str], &[u8]); 4] = [
        (&["uq_shell_test/a.db", "store", "k", "1"], b"ok\n"),
        (&["uq_shell_test/b.db", "fetch", "k"], b"not found\n"),
        (&["uq_shell_test/b.db", "store", "k", "2"], b"ok\n"),
        (&["uq_shell_test/a.db", "fetch", "k"], b"\"1\"\n"),
    ];
    for (words, bytes) in runs {
        let mut out = MemSink::new(rt.alloc(), &[])?;
        obey(rt.alloc(), words, &mut FileDisk::new(&rt), &mut out)?;
        assert_eq!(rt; out.written(), bytes, "{words:?}");
    }
    for name in ["uq_shell_test/a.db", "uq_shell_test/b.db"] {
        assert_eq!(rt; fs::read(&rt, name)?.len(), TWO_PAGES, "{name}");
    }
    fs::remove_dir_all(&rt, "uq_shell_test")?;
    Ok(())
}

/// Runs words over a disk and an input of which at most so many bytes are read, into a sink.
pub fn follow<D: Disk, I: Source>(
    alloc: Global,
    words: &[&str],
    disk: &mut D,
    input: &mut I,
    out: &mut MemSink,
    most: u64,
) -> Result<End, AllocError>
    requires { 1 ≤ most }
{
    let mut list = Vec::new(alloc);
    for word in words {
        list.push(word.to_string(alloc)?)?;
    }
    let ended = run_within(alloc, list.as_slice(), disk, input, out, most);
    Ok(End {
        status: ended.status,
        done: ended.done,
    })
}

pub const MOST: u64 = 1 << 40;

#[test]
fn the_lines_of_the_input_are_obeyed_in_order(rt: HostRuntime) -> Result<(), Fail> {
    let runs: [(&[&str], &[u8], &[u8], End); 24] = [
        (&["t.db"], b"", b"", ended(Status::Done, 0)),
        (
            &["t.db"],
            b"\n \t\r\n# store a 1\n  #\n",
            b"",
            ended(Status::Done, 0),
        ),
        (
            &["t.db"],
            b"store \"\" x",
            b"empty key\n",
            ended(Status::Refused, 1),
        ),
        (
            &["t.db"],
            b"store a 1\nfetch a\n",
            b"ok\n\"1\"\n",
            ended(Status::Done, 3),
        ),
        (
            &["t.db"],
            b"store a 1\r\nfetch a\r",
            b"ok\n\"1\"\n",
            ended(Status::Done, 3),
        ),
        (
            &["t.db"],
            b"rollback\ncommit\n",
            b"ok\nok\n",
            ended(Status::Done, 2),
        ),
        (
            &["t.db"],
            b"store a 1\ncommit\nbegin\nstore a 2\nrollback\nfetch a\n",
            b"ok\nok\nok\nok\nok\n\"1\"\n",
            ended(Status::Done, 7),
        ),
        (
            &["--max-entries", "1", "t.db"],
            b"store a 1\nstore b 2\nstore a 22\n",
            b"ok\nfull\nok\n",
            ended(Status::Refused, 4),
        ),
        (
            &["--max-bytes", "3", "t.db"],
            b"store a 1\nstore a 12\nstore a \"\"\n",
            b"ok\nfull\nok\n",
            ended(Status::Refused, 4),
        ),
        (
            &["t.db"],
            b"\"store\" a \"1 2\"\nfetch a",
            b"ok\n\"1 2\"\n",
            ended(Status::Done, 3),
        ),
        (
            &["t.db"],
            b"fetch",
            b"bad command\n",
            ended(Status::Refused, 1),
        ),
        (
            &["t.db"],
            b"fetch a b",
            b"bad command\n",
            ended(Status::Refused, 1),
        ),
        (
            &["t.db"],
            b"begin now",
            b"bad command\n",
            ended(Status::Refused, 1),
        ),
        (
            &["t.db"],
            b"fetch \"a",
            b"bad command\n",
            ended(Status::Refused, 1),
        ),
        (
            &["t.db"],
            b"fetch a\"",
            b"bad command\n",
            ended(Status::Refused, 1),
        ),
        (
            &["t.db"],
            b"what \"a",
            b"bad command\n",
            ended(Status::Refused, 1),
        ),
        (
            &["t.db"],
            b"what a b c",
            b"unknown command\n",
            ended(Status::Refused, 1),
        ),
        (
            &["t.db"],
            b"scripts",
            b"unknown command\n",
            ended(Status::Refused, 1),
        ),
        (
            &["t.db"],
            b"\"\"",
            b"unknown command\n",
            ended(Status::Refused, 1),
        ),
        (
            &["t.db"],
            b"store a \xff\x00\nfetch a",
            b"ok\n\"\xff\\u0000\"\n",
            ended(Status::Done, 3),
        ),
        (
            &["t.db", "--", "begin"],
            b"what\n",
            b"ok\n",
            ended(Status::Done, 2),
        ),
        (
            &["t.db", "fetch", "a"],
            b"what\n",
            b"not found\n",
            ended(Status::Refused, 1),
        ),
        (
            &["t.db"],
            b"fetch a\nfetch a\n",
            b"not found\nnot found\n",
            ended(Status::Refused, 2),
        ),
        (
            &["t.db"],
            b"begin\n\nfetch a",
            b"ok\nnot found\n",
            ended(Status::Refused, 3),
        ),
    ];
    for (words, input, wanted, wanted_end) in runs {
        for more in [0usize, 1, 6, 999] {
            let piece = more.saturating_add(1);
            let mut disk = MemDisk::new(rt.alloc(), b"", b"", &[])?;
            let mut source = MemSource::new(rt.alloc(), input, piece, &[])?;
            let mut out = MemSink::new(rt.alloc(), &[])?;
            let end = follow(rt.alloc(), words, &mut disk, &mut source, &mut out, MOST)?;
            assert_eq!(rt; out.written(), wanted);
            assert!(rt; end == wanted_end, "{end:?}");
        }
    }
    Ok(())
}

#[test]
fn only_so_many_bytes_are_read_and_nothing_is_committed_then(rt: HostRuntime) -> Result<(), Fail> {
    let input = b"store a 1\nstore b 2";
    for most in 1..20 {
        let mut disk = MemDisk::new(rt.alloc(), b"", b"", &[])?;
        let mut out = MemSink::new(rt.alloc(), &[])?;
        let mut source = SureSource::new(input);
        let end = follow(
            rt.alloc(),
            &["t.db"],
            &mut disk,
            &mut source,
            &mut out,
            most,
        )?;
        if most < 10 {
            assert_eq!(rt; out.written(), b"too much input\n".as_slice());
            assert!(rt; end == ended(Status::TooMuchInput, 0));
        } else {
            assert_eq!(rt; out.written(), b"ok\ntoo much input\n".as_slice());
            assert!(rt; end == ended(Status::TooMuchInput, 1));
        }
        let mut found = MemSink::new(rt.alloc(), &[])?;
        obey(rt.alloc(), FETCH, &mut disk, &mut found)?;
        assert_eq!(rt; found.written(), NOT_FOUND);
    }
    Ok(())
}

#[test]
fn a_source_that_fails_ends_the_run_behind_its_line(rt: HostRuntime) -> Result<(), Fail> {
    let input = b"store a 1\ncommit\nstore b 2\n";
    for take in 1..28 {
        let mut disk = MemDisk::new(rt.alloc(), b"", b"", &[])?;
        let mut out = MemSink::new(rt.alloc(), &[])?;
        let mut source = MemSource::new(rt.alloc(), input, 1, &[take])?;
        let end = follow(
            rt.alloc(),
            &["t.db"],
            &mut disk,
            &mut source,
            &mut out,
            MOST,
        )?;
        let (wanted, done): (&[u8], u128) = if take <= 10 {
            (b"input failed\n", 0)
        } else if take <= 17 {
            (b"ok\ninput failed\n", 1)
        } else {
            (b"ok\nok\ninput failed\n", 3)
        };
        assert_eq!(rt; out.written(), wanted);
        assert!(rt; end == ended(Status::Stream, done), "{end:?}");
    }
    Ok(())
}

#[test]
fn blanks_returns_and_quoted_words_are_read_by_the_rules(rt: HostRuntime) -> Result<(), Fail> {
    let runs: [(&[u8], &[u8]); 14] = [
        (b"\tfetch \t a \t\r\n", b"not found\n"),
        (b"\r\n\r\n \r", b""),
        (b" \t# fetch a\n\t#\n", b""),
        (b"fetch a#\nfetch #\n", b"not found\nnot found\n"),
        (b"store a\rb 1\nfetch a\rb\n", b"ok\n\"1\"\n"),
        (b"store a\r 1\nfetch a\r\r\n", b"ok\n\"1\"\n"),
        (
            b"store \"\\\"\\\\\\/\\b\\f\\n\\r\\t\\u0041\\u00e9\" 1\nfetch \"\\\"\\\\/\\b\\f\\n\\r\\tA\xc3\xa9\"\n",
            b"ok\n\"1\"\n",
        ),
        (b"store a \"1\"2\n", b"bad command\n"),
        (b"store a \"1\"\t\nfetch a\n", b"ok\n\"1\"\n"),
        (b"store a \"\\q\"\n", b"bad command\n"),
        (b"store a\"b 1\n", b"bad command\n"),
        (
            b"append k ab\nappend k cd\nfetch k\n",
            b"ok\nok\n\"abcd\"\n",
        ),
        (
            b"delete a\nstore a 1\ndelete a\nfetch a\ndelete \"\"\n",
            b"not found\nok\nok\nnot found\nempty key\n",
        ),
        (
            b"append a\nappend a b c\ndelete\ndelete a b\nappend \"\" x\n",
            b"bad command\nbad command\nbad command\nbad command\nempty key\n",
        ),
    ];
    for (input, wanted) in runs {
        let mut disk = MemDisk::new(rt.alloc(), b"", b"", &[])?;
        let mut out = MemSink::new(rt.alloc(), &[])?;
        let mut source = SureSource::new(input);
        follow(
            rt.alloc(),
            &["t.db"],
            &mut disk,
            &mut source,
            &mut out,
            MOST,
        )?;
        assert_eq!(rt; out.written(), wanted);
    }
    Ok(())
}

#[test]
fn options_are_refused_in_other_places_and_forms(rt: HostRuntime) -> Result<(), Fail> {
    let refused: [&[&str]; 17] = [
        &[],
        &[""],
        &["--max-entries"],
        &["--max-entries", "1"],
        &["--max-entries", "0", "t.db"],
        &["--max-entries", "16777217", "t.db"],
        &["--max-entries", "+1", "t.db"],
        &["--max-entries", "1", "--max-entries", "1", "t.db"],
        &["--max-bytes", "1073741825", "t.db"],
        &["--max-bytes=5", "t.db"],
        &["--budget", "0", "t.db"],
        &["--budget", "1000000000001", "t.db"],
        &["t.db", "--max-bytes", "5"],
        &["t.db", "fetch", "-a"],
        &["-", "fetch", "a"],
        &["--"],
        &["--", ""],
    ];
    for words in refused {
        let mut disk = MemDisk::new(rt.alloc(), b"", b"", &[])?;
        let mut out = MemSink::new(rt.alloc(), &[])?;
        let end = obey(rt.alloc(), words, &mut disk, &mut out)?;
        assert_eq!(rt; end, ended(Status::Usage, 0), "{words:?}");
        assert_eq!(rt; disk.calls(), 0, "{words:?}");
    }
    let taken: [&[&str]; 6] = [
        &[
            "--max-entries",
            "007",
            "--max-bytes",
            "1073741824",
            "t.db",
            "fetch",
            "a",
        ],
        &[
            "--max-bytes",
            "1",
            "--max-entries",
            "16777216",
            "t.db",
            "fetch",
            "a",
        ],
        &["--", "t.db", "fetch", "a"],
        &["t.db", "--", "fetch", "a"],
        &["t.db", "fetch", "--", "-a"],
        &["--max-entries", "1", "--", "-t.db", "fetch", "a"],
    ];
    for words in taken {
        let mut disk = MemDisk::new(rt.alloc(), b"", b"", &[])?;
        let mut out = MemSink::new(rt.alloc(), &[])?;
        let end = obey(rt.alloc(), words, &mut disk, &mut out)?;
        assert_eq!(rt; end, ended(Status::Refused, 1), "{words:?}");
        assert_eq!(rt; out.written(), NOT_FOUND, "{words:?}");
    }
    Ok(())
}

/// Twelve commands, with two commits in their middle.
const TWELVE: &[u8] =
    b"store a 1\ncommit\nstore a 2\nrollback\nfetch a\nbegin\nappend a 3\ncommit\ndelete a\nstore b 4\nfetch b\nstore a 5\n";

/// An event of their run: what it puts out, and what `fetch a` replies over what it saves, where it is a commit.
#[derive(Clone, Copy)]
struct Event {
    bytes: &'static [u8],
    saved: Option<&'static [u8]>,
}

fn puts(bytes: &'static [u8]) -> Event {
    Event { bytes, saved: None }
}

fn saves(found: &'static [u8]) -> Event {
    Event {
        bytes: b"",
        saved: Some(found),
    }
}

fn events_of_twelve() -> [Event; 15] {
    [
        puts(b"ok\n"),
        saves(b"\"1\"\n"),
        puts(b"ok\n"),
        puts(b"ok\n"),
        puts(b"ok\n"),
        puts(b"\"1\"\n"),
        puts(b"ok\n"),
        puts(b"ok\n"),
        saves(b"\"13\"\n"),
        puts(b"ok\n"),
        puts(b"ok\n"),
        puts(b"ok\n"),
        puts(b"\"4\"\n"),
        puts(b"ok\n"),
        saves(b"\"5\"\n"),
    ]
}

/// What the first events put out.
fn put_by(alloc: Global, done: u128) -> Result<Vec<u8>, AllocError> {
    let events = events_of_twelve();
    let mut bytes = Vec::new(alloc);
    let mut number: u128 = 0;
    for event in events.iter() {
        if number < done {
            bytes.extend_from_slice(event.bytes)?;
        }
        number = number.saturating_add(1);
    }
    Ok(bytes)
}

/// Whether a stop may leave a store of which `fetch a` replies this, where so many events are done. At the end of the
/// run it is what the last commit among them saved, or a commit under way; before, what any of them saved.
fn may_leave(found: &[u8], done: u128, is_over: bool) -> bool {
    let mut last = NOT_FOUND;
    let mut was_saved = found == last;
    let mut is_under_way = false;
    let events = events_of_twelve();
    let mut number: u128 = 0;
    for event in events.iter() {
        if let Some(saved) = event.saved {
            if number < done {
                last = saved;
                was_saved = was_saved || found == saved;
            }
            if number == done {
                is_under_way = found == saved;
            }
        }
        number = number.saturating_add(1);
    }
    is_under_way || found == last || (was_saved && !is_over)
}

/// How many images there are of a run of the twelve that has ended so, each of which reopens as the rules allow.
fn count_stops_of_twelve(
    rt: &impl Abort,
    alloc: Global,
    disk: &MemDisk,
    end: End,
) -> Result<u64, Fail> {
    let mut images: u64 = 0;
    for choice in 0..5u8 {
        // What was not synced is absent, present, or there by half.
        if choice == 2 || choice == 3 {
            continue;
        }
        let mut last: Option<Image> = None;
        for moment in 0..=disk.calls() {
            if moment > disk.calls() {
                return Ok(images);
            }
            let image = disk.image(moment, choice)?;
            let is_over = moment == disk.calls();
            let is_known = match &last {
                Some(last) => last.main() == image.main() && last.journal() == image.journal(),
                None => false,
            };
            if is_over || !is_known {
                let found = fetched(alloc, &image)?;
                assert!(rt;
                    may_leave(found.written(), end.done, is_over),
                    "{end:?} {moment} {choice}"
                );
                images = images.saturating_add(1);
            }
            last = Some(image);
        }
    }
    Ok(images)
}

#[test]
fn a_source_that_fails_in_twelve_commands_leaves_what_was_saved(
    rt: HostRuntime,
) -> Result<(), Fail> {
    let mut images: u64 = 0;
    for take in 1..16 {
        let mut disk = MemDisk::new(rt.alloc(), b"", b"", &[])?;
        let mut out = MemSink::new(rt.alloc(), &[])?;
        let mut source = MemSource::new(rt.alloc(), TWELVE, 8, &[take])?;
        let end = follow(
            rt.alloc(),
            &["t.db"],
            &mut disk,
            &mut source,
            &mut out,
            MOST,
        )?;
        let mut wanted = put_by(rt.alloc(), end.done)?;
        if end.status == Status::Stream {
            wanted.extend_from_slice(b"input failed\n")?;
        } else {
            assert_eq!(rt; end, ended(Status::Done, 15));
        }
        assert_eq!(rt; out.written(), wanted.as_slice(), "{take}");
        let more = count_stops_of_twelve(&rt, rt.alloc(), &disk, end)?;
        images = images.saturating_add(more);
    }
    assert!(rt; images > 100, "{images}");
    Ok(())
}

#[test]
fn a_sink_that_fails_in_twelve_commands_leaves_what_was_saved(rt: HostRuntime) -> Result<(), Fail> {
    let mut images: u64 = 0;
    for put in 1..13 {
        for kept in 0..2 {
            let mut disk = MemDisk::new(rt.alloc(), b"", b"", &[])?;
            let mut out = MemSink::new(rt.alloc(), &[(put, kept)])?;
            let mut source = SureSource::new(TWELVE);
            let end = follow(
                rt.alloc(),
                &["t.db"],
                &mut disk,
                &mut source,
                &mut out,
                MOST,
            )?;
            assert_eq!(rt; end.status, Status::Stream, "{put} {kept}");
            let done = put_by(rt.alloc(), end.done)?;
            let whole = put_by(rt.alloc(), end.done.saturating_add(1))?;
            assert!(rt; whole.as_slice().starts_with(out.written()), "{put} {kept}");
            assert!(rt; out.written().starts_with(done.as_slice()), "{put} {kept}");
            let more = count_stops_of_twelve(&rt, rt.alloc(), &disk, end)?;
            images = images.saturating_add(more);
        }
    }
    assert!(rt; images > 200, "{images}");
    Ok(())
}

/// How many images there are of the runs of the twelve over a disk that fails in a call and in all behind it, for each
/// of these calls.
fn count_failing_twelve(
    rt: &impl Abort,
    alloc: Global,
    first: u64,
    behind: u64,
) -> Result<u64, Fail> {
    let mut images: u64 = 0;
    for call in first..behind {
        let mut fails = Vec::new(alloc);
        for later in 0..MANY_CALLS {
            fails.push(later.saturating_add(call))?;
        }
        let mut disk = MemDisk::new(alloc, b"", b"", &fails)?;
        let mut out = MemSink::new(alloc, &[])?;
        let mut source = SureSource::new(TWELVE);
        let end = follow(alloc, &["t.db"], &mut disk, &mut source, &mut out, MOST)?;
        let mut wanted = put_by(alloc, end.done)?;
        if end.status == Status::Disk {
            wanted.extend_from_slice(FAILED)?;
        } else {
            assert_eq!(rt; end, ended(Status::Done, 15));
        }
        assert_eq!(rt; out.written(), wanted.as_slice(), "{call}");
        let more = count_stops_of_twelve(rt, alloc, &disk, end)?;
        images = images.saturating_add(more);
    }
    Ok(images)
}

#[test]
fn a_disk_that_fails_early_in_twelve_commands_leaves_what_was_saved_or_the_commit_under_way(
    rt: HostRuntime,
) -> Result<(), Fail> {
    let images = count_failing_twelve(&rt, rt.alloc(), 1, 24)?;
    assert!(rt; images > 50, "{images}");
    Ok(())
}

#[test]
fn a_disk_that_fails_late_in_twelve_commands_leaves_what_was_saved_or_the_commit_under_way(
    rt: HostRuntime,
) -> Result<(), Fail> {
    let images = count_failing_twelve(&rt, rt.alloc(), 24, 48)?;
    assert!(rt; images > 200, "{images}");
    Ok(())
}
