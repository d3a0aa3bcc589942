//! What a token tells beside its kind.

/// The line of a token and its number.
#[derive(Clone, Copy)]
pub(crate) struct Spot {
    pub(crate) line: u32,
    pub(crate) token: u32,
}
