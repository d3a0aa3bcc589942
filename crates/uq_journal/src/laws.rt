//! Laws of the layout, each the contract of a call that does nothing.
ghost use Rattle.uq_journal.specs.Laws.{BytesArePages, LengthsArePages, PagesAreBytes, PagesAreWhole, Rows};

/// A main file is the bytes of its pages, one behind the other, and these are whole.
pub fn pages_tell_bytes()
    ensures pages { PagesAreBytes }
    ensures bytes { BytesArePages }
    ensures count { LengthsArePages }
    ensures whole { PagesAreWhole }
{}

/// What some files recover to, a row for each rule.
pub fn recovers_by_rows()
    ensures { Rows }
{}
