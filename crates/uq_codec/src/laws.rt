// What holds of the stored form.

ghost use Rattle.uq_codec.specs.Laws.{OneForm, NoneBegins, LengthIsSize, DecodesAgain};

/// A value has one stored form.
pub fn one_form()
    ensures { OneForm }
{}

/// No stored form begins another, and none is that of two values.
pub fn none_begins()
    ensures { NoneBegins }
{}

/// The length of a stored form is the size of its value.
pub fn length_is_size()
    ensures { LengthIsSize }
{}

/// A stored form is decoded to its value and its length, whatever follows it, unless memory is wanting.
pub fn decodes_again()
    ensures { DecodesAgain }
{}
