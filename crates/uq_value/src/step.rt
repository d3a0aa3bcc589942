//! The steps of a way into a value.
use crate::text::Text;
use crate::value::Value;

/// One step of the way to a place within a value.
#[derive(Drop)]
pub enum Step {
    /// The member of this name of an object.
    Member(Text),
    /// The item of a list at a whole number; the member of an object of a text, or of a whole number's decimal text.
    Index(Value),
    /// Behind the last item of a list.
    Append,
}
