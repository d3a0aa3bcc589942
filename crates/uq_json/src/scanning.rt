//! Looking at the bytes that are next: blanks, single bytes, digits, and what stands for itself in a string.
ghost use Rattle.std.specs.Prelude.{◌≡◌, ◌<◌, length, true, IsTrue};
ghost use Rattle.std.specs.Char.{is_ascii_digit};
ghost use Rattle.std.specs.List.{list_all};
ghost use Rattle.uq_json.specs.Grammar.{is_blank as spec_is_blank};
ghost use Rattle.uq_json.specs.Internal.Reading.{is_next, skip_blanks as spec_skip_blanks, digits_of, behind_digits, is_verbatim as spec_is_verbatim, verbatim_of, behind_verbatim};

/// Whether this byte is next.
pub(crate) fn next_is(byte: u8, text: &[u8]) -> bool
    ensures next { result ≡ is_next byte text.now }
    ensures room { IsTrue result → 0 < length text.now }
{
    match text {
        [first, ..] => *first == byte,
        [] => false,
    }
}

fn is_blank(byte: u8) -> bool
    ensures { result ≡ spec_is_blank byte }
{
    matches!(byte, b' ' | b'\t' | b'\n' | b'\r')
}

/// The text behind the blanks that are next.
pub(crate) fn skip_blanks(text: &[u8]) -> &[u8]
    ensures { result.now ≡ spec_skip_blanks text.now }
{
    let mut count = 0;
    while count < text.len() && is_blank(text[count]) {
        count += 1;
    }
    &text[count..]
}

/// The digits that are next, and the text behind them.
pub(crate) fn split_digits(text: &[u8]) -> (&[u8], &[u8])
    ensures digits { result.0.now ≡ digits_of text.now }
    ensures all { list_all is_ascii_digit (digits_of text.now) ≡ true }
    ensures rest { result.1.now ≡ behind_digits text.now }
{
    let mut count = 0;
    while count < text.len() && text[count].is_ascii_digit() {
        count += 1;
    }
    text.split_at(count)
}

/// Whether the byte stands for itself in a string, read or written: it is no quote, backslash or control byte.
fn is_verbatim(byte: u8) -> bool
    ensures { result ≡ spec_is_verbatim byte }
{
    byte >= 0x20 && byte != b'"' && byte != b'\\'
}

/// The bytes that are next and stand for themselves in a string, and those behind them.
pub(crate) fn split_verbatim(text: &[u8]) -> (&[u8], &[u8])
    ensures verbatim { result.0.now ≡ verbatim_of text.now }
    ensures rest { result.1.now ≡ behind_verbatim text.now }
{
    let mut count = 0;
    while count < text.len() && is_verbatim(text[count]) {
        count += 1;
    }
    text.split_at(count)
}
