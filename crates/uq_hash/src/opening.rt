//! The place of a key, opened for a change there.
use crate::gathering::Rest;
use crate::searching::Place;

/// The place of a key, and what is laid anew where something changes there.
#[derive(Drop)]
pub(crate) struct Open {
    /// The place, where the key's cell stands behind it.
    pub place: Place,

    /// The same in the page of the entry before it.
    pub near: Place,

    /// The cells behind the place, and the pages from that of `near` on.
    pub rest: Rest,
}
