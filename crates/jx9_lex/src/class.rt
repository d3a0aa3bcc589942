//! Runs of bytes of a class.

ghost use Rattle.std.specs.Prelude.{◌≡◌, ◌≤◌, length};
ghost use Rattle.jx9_syntax.specs.Bytes.{is_letter as spec_is_letter, run, behind};
ghost use Rattle.jx9_lex.specs.Classes.{test, verbatim_class as spec_verbatim_class};

/// A class of bytes.
#[derive(Clone, Copy, Drop)]
pub(crate) enum Class {
    /// Tab to carriage return, and space.
    Blank,
    /// What a name goes on with: letters, digits and `_`.
    Name,
    /// Decimal digits.
    Decimal,
    /// Hexadecimal digits of either case.
    Hexadecimal,
    /// Any byte but a line feed.
    InLine,
    /// What stands for itself in a text in single quotes: any byte but the quote and the backslash.
    Single,
    /// What stands for itself in a text in double quotes: any byte but the quote, the backslash and `$`.
    Double,
}

impl Class {
    fn has(self, byte: u8) -> bool
        ensures { result ≡ test self byte }
    {
        match self {
            Class::Blank => matches!(byte, 0x09..=0x0d | b' '),
            Class::Name => is_letter(byte) || byte.is_ascii_digit(),
            Class::Decimal => byte.is_ascii_digit(),
            Class::Hexadecimal => byte.is_ascii_hexdigit(),
            Class::InLine => byte != b'\n',
            Class::Single => byte != b'\'' && byte != b'\\',
            Class::Double => byte != b'"' && byte != b'\\' && byte != b'$',
        }
    }
}

/// Whether a name may begin with the byte.
pub(crate) fn is_letter(byte: u8) -> bool
    ensures { result ≡ spec_is_letter byte }
{
    byte.is_ascii_alphabetic() || byte == b'_'
}

/// The bytes of the class that are next, and those behind them.
pub(crate) fn split_run(class: Class, text: &[u8]) -> (&[u8], &[u8])
    ensures run { result.0.now ≡ run (test class) text.now }
    ensures behind { result.1.now ≡ behind (test class) text.now }
    ensures shorter { length result.1.now ≤ length text.now }
{
    let mut count = 0;
    while count < text.len() && class.has(text[count]) {
        count += 1;
    }
    text.split_at(count)
}

/// What stands for itself in a text that this quote closes.
pub(crate) fn verbatim_class(quote: u8) -> Class
    ensures { result ≡ spec_verbatim_class quote }
{
    if quote == b'"' {
        Class::Double
    } else {
        Class::Single
    }
}
