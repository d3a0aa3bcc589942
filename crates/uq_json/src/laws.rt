//! What holds of JSON texts and values.
ghost use Rattle.uq_json.specs.Front.{FrontIsString};
ghost use Rattle.uq_json.specs.Laws.{OneAnswer, OneString, QuotesBack, PrintsBack, NoneBegins};

/// A text has one answer, but for want of memory.
pub fn one_answer()
    ensures { OneAnswer }
{}

/// A text is a string of one list of bytes at most.
pub fn one_string()
    ensures { OneString }
{}

/// What `quote` gives is the string of the bytes that it was given, and of no others: `unquote` gives them back.
pub fn quotes_back()
    ensures { QuotesBack }
{}

/// The text of a value spells that value, and no other answer fits it: `read_json` gives the value back.
pub fn prints_back()
    ensures { PrintsBack }
{}

/// No string begins another.
pub fn none_begins()
    ensures { NoneBegins }
{}

/// The string at the front of a text is the one front of it that is a string.
pub fn front_is_string()
    ensures { FrontIsString }
{}
