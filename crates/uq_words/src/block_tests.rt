//! What no clause says of blocks and of an input that is one script: each call with ample memory, by tables.
use crate::*;
use std::alloc::Global;
use std::test::Fail;
use uq_outside::{MemSource, Source, SureSource};

/// How a walk over an input goes on behind a line or a block.
#[derive(Clone, Copy, Debug, PartialEq, Eq)]
enum Way {
    On,
    End,
}

/// The block behind a line `script`, and how it ends: `]` at a line that closes it, `];` at the last line, `?` at the
/// end of the input, `>` where no more bytes may be taken. `!` stands for a text that is too long.
fn tell_block<I: Source>(
    lines: &mut Lines,
    input: &mut I,
    told: &mut Vec<u8>,
) -> Result<Way, Fail> {
    told.push(b'[')?;
    let step = match lines.advance_block(input) {
        Ok(step) => step,
        Err(InputFault::Source) => {
            told.push(b'~')?;
            return Ok(Way::End);
        }
        Err(InputFault::Memory) => return Err(Fail::from("no memory")),
    };
    let (end, way): (&[u8], Way) = match step {
        BlockStep::Closed => (b"]", Way::On),
        BlockStep::ClosedLast => (b"];", Way::End),
        BlockStep::Unfinished => (b"?", Way::End),
        BlockStep::TooMuch => (b">", Way::End),
    };
    if step == BlockStep::Closed || step == BlockStep::ClosedLast {
        match lines.text() {
            Some(text) => told.extend_from_slice(text)?,
            None => told.push(b'!')?,
        }
    }
    told.extend_from_slice(end)?;
    Ok(way)
}

/// The next line of an input, and the block behind it where it is the word `script`. A bar stands behind a line, a
/// full stop behind the last.
fn tell_line<I: Source>(lines: &mut Lines, input: &mut I, told: &mut Vec<u8>) -> Result<Way, Fail> {
    let step = match lines.advance(input) {
        Ok(step) => step,
        Err(InputFault::Source) => {
            told.push(b'~')?;
            return Ok(Way::End);
        }
        Err(InputFault::Memory) => return Err(Fail::from("no memory")),
    };
    if step == Step::TooMuch {
        told.push(b'>')?;
        return Ok(Way::End);
    }
    let Some(text) = lines.text() else {
        return Err(Fail::from("a line that is too long"));
    };
    if step == Step::Line && text == b"script".as_slice() {
        return tell_block(lines, input, told);
    }
    told.extend_from_slice(text)?;
    if step == Step::Last {
        told.push(b'.')?;
        return Ok(Way::End);
    }
    told.push(b'|')?;
    Ok(Way::On)
}

/// All lines and blocks of an input, as one text.
fn walk<I: Source>(alloc: Global, input: &mut I, most: u64) -> Result<Vec<u8>, Fail> {
    let mut lines = Lines::new(alloc, most);
    let mut told = Vec::new(alloc);
    for _ in 0..1000 {
        match tell_line(&mut lines, input, &mut told)? {
            Way::On => {}
            Way::End => return Ok(told),
        }
    }
    Err(Fail::from("too many lines"))
}

#[test]
fn a_block_goes_up_to_a_line_that_is_a_dot(rt: HostRuntime) -> Result<(), Fail> {
    let cases: [(&[u8], &[u8]); 25] = [
        (b"script\n.\n", b"[]."),
        (b"script\n.", b"[];"),
        (b"script\n.\r\nx", b"[]x."),
        (b"script\n.\r", b"[];"),
        (b"script\nprint 1;\n.\ncommit\n", b"[print 1;\n]commit|."),
        (b"script\nprint 1;\n.", b"[print 1;\n];"),
        (b"script\n..\n.\n", b"[..\n]."),
        (b"script\n .\n. \n.x\n.\n", b"[ .\n. \n.x\n]."),
        (b"script\n.\r\r\n.\n", b"[.\r\r\n]."),
        (b"script\n\r\n.\n", b"[\r\n]."),
        (b"script\na\r\nb\r\r\n.\n", b"[a\r\nb\r\r\n]."),
        (b"script\n\n\n.\n", b"[\n\n]."),
        (b"script\n#\n \t\n\"\n.\n", b"[#\n \t\n\"\n]."),
        (b"script\n\xff\x00\n.\n", b"[\xff\x00\n]."),
        (b"script\nscript\n.\n.\n", b"[script\n].|."),
        (b"a\nscript\nb\n.\nscript\nc\n.\nd", b"a|[b\n][c\n]d."),
        (b"script\r\na\n.\n", b"[a\n]."),
        (b".\nscript\n.\n", b".|[]."),
        (b"script\n", b"[?"),
        (b"script\n\n", b"[?"),
        (b"script\nprint 1;", b"[?"),
        (b"script\nprint 1;\n", b"[?"),
        (b"script\n..", b"[?"),
        (b"script\n. ", b"[?"),
        (b"script", b"script."),
    ];
    for (input, wanted) in cases {
        for piece in 1..5 {
            let mut source = MemSource::new(rt.alloc(), input, piece, &[]).map_err(|_| "memory")?;
            assert_eq!(rt; walk(rt.alloc(), &mut source, 1 << 40)?.as_slice(), wanted);
        }
        let mut source = SureSource::new(input);
        assert_eq!(rt; walk(rt.alloc(), &mut source, 1 << 40)?.as_slice(), wanted);
    }
    Ok(())
}

#[test]
fn only_so_many_bytes_of_a_block_are_taken(rt: HostRuntime) -> Result<(), Fail> {
    let cases: [(u64, &[u8]); 9] = [
        (6, b">"),
        (7, b"[>"),
        (8, b"[>"),
        (10, b"[>"),
        (11, b"[>"),
        (12, b"[ab\n]>"),
        (13, b"[ab\n]>"),
        (14, b"[ab\n]x."),
        (15, b"[ab\n]x."),
    ];
    for (most, wanted) in cases {
        let mut source = SureSource::new(b"script\nab\n.\nx");
        assert_eq!(rt; walk(rt.alloc(), &mut source, most)?.as_slice(), wanted);
    }
    Ok(())
}

#[test]
fn a_take_that_fails_within_a_block_is_told(rt: HostRuntime) -> Result<(), Fail> {
    let cases: [(u64, &[u8]); 8] = [
        (1, b"~"),
        (7, b"~"),
        (8, b"[~"),
        (11, b"[~"),
        (12, b"[~"),
        (13, b"[ab\n]~"),
        (14, b"[ab\n]~"),
        (15, b"[ab\n]x."),
    ];
    for (failing, wanted) in cases {
        let mut source = MemSource::new(rt.alloc(), b"script\nab\n.\nx", 1, &[failing]).map_err(
            |_| "memory",
        )?;
        assert_eq!(rt; walk(rt.alloc(), &mut source, 1 << 40)?.as_slice(), wanted);
    }
    Ok(())
}

/// How long the text of the block at the front of an input is, and what line stands behind it. There is no length
/// where the text is too long, or no line closes the block.
fn measure(alloc: Global, input: &[u8]) -> Result<(BlockStep, Option<usize>, Vec<u8>), Fail> {
    let mut source = SureSource::new(input);
    let mut lines = Lines::new(alloc, 1 << 40);
    let step = lines.advance_block(&mut source).map_err(|_| "input")?;
    let length = match lines.text() {
        Some(text) => Some(text.len()),
        None => None,
    };
    let mut behind = Vec::new(alloc);
    if step == BlockStep::Closed {
        let _step = lines.advance(&mut source).map_err(|_| "input")?;
        behind.extend_from_slice(lines.text().ok_or("a line")?)?;
    }
    Ok((step, length, behind))
}

/// So many lines of so many bytes each, with their line feeds, and then this end.
fn lines_of(alloc: Global, count: usize, length: usize, end: &[u8]) -> Result<Vec<u8>, Fail> {
    let mut line = vec![in alloc; b'k'; length]?;
    line.push(b'\n')?;
    let mut input = Vec::new(alloc);
    for _ in 0..count {
        input.extend_from_slice(line.as_slice())?;
    }
    input.extend_from_slice(end)?;
    Ok(input)
}

#[test]
fn a_script_in_a_block_has_at_most_sixteen_mebibytes(rt: HostRuntime) -> Result<(), Fail> {
    let cases: [(usize, usize, &[u8], BlockStep, Option<usize>); 14] = [
        (1, 16_777_215, b".\nz", BlockStep::Closed, Some(16_777_216)),
        (
            1,
            16_777_215,
            b".\r\nz",
            BlockStep::Closed,
            Some(16_777_216),
        ),
        (1, 16_777_215, b".", BlockStep::ClosedLast, Some(16_777_216)),
        (1, 16_777_216, b".\nz", BlockStep::Closed, None),
        (1, 16_777_216, b".\r\nz", BlockStep::Closed, None),
        (1, 16_777_216, b".", BlockStep::ClosedLast, None),
        (1, 16_777_216, b".\r", BlockStep::ClosedLast, None),
        (1, 16_777_216, b"..", BlockStep::Unfinished, None),
        (4_194_304, 3, b".\nz", BlockStep::Closed, Some(16_777_216)),
        (4_194_304, 3, b"\n.\nz", BlockStep::Closed, None),
        (4_194_304, 3, b"\n..\n.\nz", BlockStep::Closed, None),
        (1, 67_200_000, b".\nz", BlockStep::Closed, None),
        (2, 16_777_216, b"k\n.x\n.\nz", BlockStep::Closed, None),
        (1, 16_777_215, b".x", BlockStep::Unfinished, None),
    ];
    for (count, length, end, wanted, kept) in cases {
        let input = lines_of(rt.alloc(), count, length, end)?;
        let (step, text, behind) = measure(rt.alloc(), input.as_slice())?;
        assert_eq!(rt; step, wanted);
        assert_eq!(rt; text, kept);
        if step == BlockStep::Closed {
            assert_eq!(rt; behind.as_slice(), b"z".as_slice());
        }
    }
    Ok(())
}

/// An input that is one script, as one text: `!` where it is too long, `>` where no more bytes may be taken, `~` where
/// a take failed.
fn read_as_one<I: Source>(alloc: Global, input: &mut I, most: u64) -> Result<Vec<u8>, Fail> {
    match read_script(alloc, input, most.max(1)) {
        Ok(Script::Complete(text)) => Ok(text),
        Ok(Script::TooLong) => Ok(Vec::from_slice(alloc, b"!")?),
        Ok(Script::TooMuch) => Ok(Vec::from_slice(alloc, b">")?),
        Err(InputFault::Source) => Ok(Vec::from_slice(alloc, b"~")?),
        Err(InputFault::Memory) => Err(Fail::from("no memory")),
    }
}

#[test]
fn an_input_is_one_script_as_it_stands(rt: HostRuntime) -> Result<(), Fail> {
    let cases: [(&[u8], u64, &[u8]); 9] = [
        (b"", 1 << 40, b""),
        (b"", 1, b""),
        (b"print 1;", 1 << 40, b"print 1;"),
        (b"a\r\n.\nb\n", 1 << 40, b"a\r\n.\nb\n"),
        (b"\xff\x00", 1 << 40, b"\xff\x00"),
        (b"abc", 4, b"abc"),
        (b"abc", 3, b">"),
        (b"abc", 2, b">"),
        (b"abc", 1, b">"),
    ];
    for (input, most, wanted) in cases {
        for piece in 1..5 {
            let mut source = MemSource::new(rt.alloc(), input, piece, &[]).map_err(|_| "memory")?;
            assert_eq!(rt;
                read_as_one(rt.alloc(), &mut source, most)?.as_slice(),
                wanted
            );
        }
        let mut source = SureSource::new(input);
        assert_eq!(rt;
            read_as_one(rt.alloc(), &mut source, most)?.as_slice(),
            wanted
        );
    }
    for failing in 1..5 {
        let mut source = MemSource::new(rt.alloc(), b"abc", 1, &[failing]).map_err(|_| "memory")?;
        assert_eq!(rt;
            read_as_one(rt.alloc(), &mut source, 1 << 40)?.as_slice(),
            b"~".as_slice()
        );
    }
    Ok(())
}

/// How many bytes a source has left, up to 100,000.
fn count_left<I: Source>(alloc: Global, input: &mut I) -> Result<usize, Fail> {
    let mut rest = vec![in alloc; 0; 100_000]?;
    input
        .take(rest.as_mut_slice())
        .map_err(|_| Fail::from("input"))
}

#[test]
fn no_more_is_read_of_an_input_than_a_script_and_one_byte(rt: HostRuntime) -> Result<(), Fail> {
    let cases: [(usize, u64, Option<usize>, usize); 12] = [
        (16_777_216, 1 << 40, Some(16_777_216), 0),
        (16_777_217, 1 << 40, None, 0),
        (16_777_218, 1 << 40, None, 1),
        (16_850_000, 1 << 40, None, 72_783),
        (16_777_216, 16_777_217, Some(16_777_216), 0),
        (16_777_217, 16_777_217, None, 0),
        (16_777_217, 16_777_218, None, 0),
        (16_777_223, 16_777_223, None, 6),
        (16_777_215, 16_777_216, Some(16_777_215), 0),
        (16_777_216, 16_777_216, Some(0), 0),
        (16_777_225, 16_777_216, Some(0), 9),
        (16_777_225, 16_777_211, Some(0), 14),
    ];
    for (length, most, wanted, left) in cases {
        let input = vec![in rt.alloc(); b' '; length]?;
        let mut source = SureSource::new(input.as_slice());
        let read = match read_script(rt.alloc(), &mut source, most.max(1)) {
            Ok(Script::Complete(text)) => Some(text.len()),
            Ok(Script::TooLong) => None,
            Ok(Script::TooMuch) => Some(0),
            Err(_) => return Err(Fail::from("input")),
        };
        assert_eq!(rt; read, wanted);
        assert_eq!(rt; count_left(rt.alloc(), &mut source)?, left);
    }
    Ok(())
}
