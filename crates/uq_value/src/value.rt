//! The kinds of values.
use crate::list::List;
use crate::object::Object;
use crate::text::Text;

/// A value. Its size is at most 16,777,152 bytes and its depth at most 128.
#[cycle(value)]
#[derive(Drop)]
pub enum Value {
    Null,
    Bool(bool),
    Int(i64),
    Text(Text),
    List(List),
    Object(Object),
}
